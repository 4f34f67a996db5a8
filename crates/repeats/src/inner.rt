// The first repeated word, by sorting: words that are equal, turned or not, have one canonical code and come to stand side by side. The code of k-mer x is
// entry x of `hi`, its upper half, and of `lo`, its lower half.
ghost use Rattle.std.specs.Prelude.{◌≡◌, ◌*◌, ◌≤◌, ◌<◌, eqb, length, take};
ghost use Rattle.lists.specs.Every.{All};
ghost use Rattle.lists.specs.Regions.{Only};
ghost use Rattle.collection.specs.Lent.{spelling_in};
ghost use Rattle.collection.specs.Kmers.{kmers};
ghost use Rattle.collection.specs.Ready.{Ready};
ghost use Rattle.sorting.specs.Keys.{code_at};
ghost use Rattle.repeats.specs.Check.{first_repeat};
ghost use Rattle.repeats.specs.Order.{Least, Ordered};

use collection::Spelling;

// Whether k-mers x and y have one code. Lower halves mostly differ, and then the upper ones, which lie elsewhere, are not read.
fn same_code(hi: &[u32], lo: &[u32], x: usize, y: usize) -> bool
    requires { (x < length hi.now) × (y < length hi.now) × (length lo.now ≡ length hi.now) }
    ensures { result ≡ eqb (code_at hi.now lo.now x) (code_at hi.now lo.now y) }
{
    if lo[x] != lo[y] {
        return false;
    }
    hi[x] == hi[y]
}

// The least of these k-mers that stands behind one of the same code, the number of all codes where none does.
fn least_second(hi: &[u32], lo: &[u32], ids: &[u32]) -> usize
    requires same_length { length lo.now ≡ length hi.now }
    requires inside { All (λ x. x < length hi.now) ids.now }
    ensures { Least (code_at hi.now lo.now) (length hi.now) ids.now (length ids.now) result }
{
    let mut least = hi.len();
    for pair in ids.windows(2) {
        let x = pair[0] as usize;
        let y = pair[1] as usize;
        let better = (y < least) & same_code(hi, lo, x, y);
        if better {
            least = y;
        }
    }
    least
}

// The canonical codes of all k-mers, and those k-mers that may have an equal in the order of these codes; how many they are.
fn arrange(
    given: Spelling,
    hi: &mut [u32],
    lo: &mut [u32],
    ids: &mut [u32],
    buf: &mut [u32],
) -> usize
    requires ready { Ready (spelling_in given) }
    requires sizes { (length hi.old ≡ length (kmers given.k given.ends.now)) × (length lo.old ≡ length hi.old)
        × (length ids.old ≡ length hi.old) × (length buf.old ≡ length hi.old) }
    ensures few { result ≤ length ids.old }
    ensures ordered { Ordered given.entry.k given.entry.letters.now (kmers given.entry.k given.entry.ends.now) hi.new lo.new (take result ids.new) }
{
    repeats_canonical::inner::code_all(given, hi, lo);
    sorting::inner::number_ids(ids);
    let m = repeats_sieving::inner::sieve(hi, lo, ids, buf);
    sorting::inner::sort_by_code(hi, lo, &mut ids[..m], &mut buf[..m]);
    m
}

// The lowest handle whose word or its reverse complement stands earlier; 0 where there is none. Of the first 4n entries of work, n each go to the upper halves
// of the codes, the lower halves, the k-mers in their order, and counters and a buffer.
pub fn first_repeat(given: Spelling, n: usize, work: &mut [u32]) -> usize
    requires ready { Ready (spelling_in given) }
    requires n_value { (n ≡ length (kmers given.k given.ends.now)) × (4 * n ≤ length work.old) }
    ensures { (result ≡ first_repeat (spelling_in given.entry)) × Only 0 (4 * n) work.old work.new }
{
    let (used, _) = work.split_at_mut(4 * n);
    let (codes, order) = used.split_at_mut(2 * n);
    let (hi, lo) = codes.split_at_mut(n);
    let (ids, buf) = order.split_at_mut(n);
    let m = arrange(given, hi, lo, ids, buf);
    let least = least_second(hi, lo, &ids[..m]);
    if least == n { 0 } else { least + 1 }
}
