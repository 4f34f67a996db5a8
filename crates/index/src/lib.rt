// INDEX: stretches of k-mers by their minimizers.
#![tactic(auto)]

ghost use Rattle.std.specs.Prelude.{◌≡◌};
ghost use Rattle.index.specs.Indexing.{Lent, lent, outcome, index_with, index_of};
ghost use Rattle.index.specs.Judged.{Sized, foreseen, Judged, Held, judged_of};
ghost use Rattle.collection.specs.Lent.{spelling_in, collection_in};

use collection::{Collection, Refusal, Spelling};

// What INDEX answers: how many stretches it filled into each of three tables, and how many entries into the fourth.
#[derive(Clone, Copy, Debug, PartialEq, Eq)]
pub struct Indexed {
    pub stretches: usize,
    pub starts: usize,
}

// 2 to 6, then 1; five tables of these sizes are lent. The answer is that of a collection in which no word repeats.
#[tactic(auto, using(crate::proofs::Ways::foreseeing))]
fn foresee(
    given: Collection,
    p: usize,
    firsts: usize,
    positions: usize,
    numbers: usize,
    before: usize,
    work: usize,
) -> Result<Indexed, Refusal>
    ensures { (t : Lent) → Sized t firsts positions numbers before work
        → result ≡ foreseen (collection_in given.entry) p t }
{
    index_minimizers::judge_sizes(given.k, p)?;
    given.judge()?;
    let stretches = index_cutting::inner::count_all(given.spelling(), p);
    let starts = words::inner::word_count(p) + 1;
    if (stretches <= firsts)
        & ((stretches <= positions)
            & ((stretches <= numbers) & ((starts <= before) & (4 * given.weights.len() <= work))))
    {
        return Ok(Indexed { stretches, starts });
    }
    Err(Refusal::Room)
}

// The index of n k-mers in m stretches. The stretches are stored in the order of their handles first, and their minimizers in work.
fn build(
    given: Spelling,
    p: usize,
    n: usize,
    m: usize,
    firsts: &mut [u32],
    positions: &mut [u32],
    numbers: &mut [u32],
    before: &mut [u32],
    work: &mut [u32],
)
    requires { Judged (spelling_in given) p n m (lent firsts.old positions.old numbers.old before.old work.old) }
    ensures { Held (index_with (spelling_in given.entry) p) n
        (lent firsts.old positions.old numbers.old before.old work.old)
        (lent firsts.new positions.new numbers.new before.new work.new) }
{
    index_cutting::inner::cut_all(given, p, firsts, positions, numbers, &mut work[..n]);
    index_arranging::inner::arrange(work, n, m, p, before, firsts, positions, numbers);
}

// 7, or the index of n k-mers in m stretches. Work is zero afterwards in both cases.
#[tactic(auto, using(crate::proofs::Ways::judged_still, crate::proofs::Ways::work_still, repeats::proofs::Arranged::few_kmers))]
fn index_judged(
    given: Spelling,
    p: usize,
    n: usize,
    m: usize,
    firsts: &mut [u32],
    positions: &mut [u32],
    numbers: &mut [u32],
    before: &mut [u32],
    work: &mut [u32],
) -> Result<Indexed, Refusal>
    requires { Judged (spelling_in given) p n m (lent firsts.old positions.old numbers.old before.old work.old) }
    ensures { outcome result (lent firsts.new positions.new numbers.new before.new work.new)
        ≡ judged_of (spelling_in given.entry) p n
        (lent firsts.old positions.old numbers.old before.old work.old) }
{
    let repeat = repeats::inner::first_repeat(given, n, work);
    let repeated = repeat != 0;
    if repeated {
        collection::inner::zero_first(work, 4 * n);
        return Err(Refusal::Repeated { place: repeat });
    }
    build(given, p, n, m, firsts, positions, numbers, before, work);
    collection::inner::zero_first(work, 4 * n);
    let starts = words::inner::word_count(p) + 1;
    Ok(Indexed {
        stretches: m,
        starts,
    })
}

// INDEX: 2 to 6, 1, then 7, at the lowest handle whose word or its reverse complement stands earlier. Else the stretches by their minimizers, and where each
// minimizer starts. After 7 and after success the first 4n entries of work are 0.
#[tactic(auto, using(crate::proofs::Ways::lent_sized, crate::proofs::Ways::index_refused))]
pub fn index(
    given: Collection,
    p: usize,
    firsts: &mut [u32],
    positions: &mut [u32],
    numbers: &mut [u32],
    before: &mut [u32],
    work: &mut [u32],
) -> Result<Indexed, Refusal>
    ensures { outcome result (lent firsts.new positions.new numbers.new before.new work.new)
        ≡ index_of (collection_in given.entry) p
        (lent firsts.old positions.old numbers.old before.old work.old) }
{
    let counts = foresee(
        given,
        p,
        firsts.len(),
        positions.len(),
        numbers.len(),
        before.len(),
        work.len(),
    )?;
    index_judged(
        given.spelling(),
        p,
        given.weights.len(),
        counts.stretches,
        firsts,
        positions,
        numbers,
        before,
        work,
    )
}
