// The calls for hosts in C and other languages, which `exports_c` gives to the static library. A table is lent with its number of entries. Each function
// returns the number of the refusal, 0 when done, and tells the rest through `answer`: the place of a refusal, or what the call answers.
#![tactic(auto)]

ghost use Rattle.std.specs.Prelude.{◌≡◌};
ghost use Rattle.index.specs.Indexing.{lent, index_of};
ghost use Rattle.access.specs.Access.{access_at};
ghost use Rattle.plain.specs.Plain.{plain_of};
ghost use Rattle.apply.specs.Apply.{apply_of, lent as new_lent};
ghost use Rattle.quick.specs.Quick.{quick_of};
ghost use Rattle.quick.specs.Weighed.{weighed_of};
ghost use Rattle.repeats.specs.Check.{check_of};
ghost use Rattle.runs.specs.Calls.{runs_of};
ghost use Rattle.weight.specs.Weight.{weight_answer};
ghost use Rattle.sheet.specs.Read.{read_of};
ghost use Rattle.sheet.specs.Write.{write_of};
ghost use Rattle.index_stretches.specs.Index.{tables};
ghost use Rattle.exports_replies.specs.Exported.{exported, exported_of, none};
ghost use Rattle.exports_replies.specs.Replies.{weight_reply, access_reply, plain_reply, quick_reply, weigh_reply};
ghost use Rattle.exports.specs.Calls.{read_exported, write_exported, check_exported, CoverExported, apply_exported, runs_exported, index_exported};
ghost use Rattle.collection.specs.Collection.{spelling, collection};
ghost use Rattle.collection.specs.Tables.{tables as collection_tables};

use collection::{Collection, Spelling};
use index_stretches::Index;
use weight::RunList;

// How many entries the answer table needs, for every call.
const ANSWER: usize = 4;

// READ: k, and how many letters, ends and weights were filled.
pub fn corrivume_read(
    sheet: &[u8],
    letters: &mut [u8],
    ends: &mut [u32],
    weights: &mut [u32],
    answer: &mut [u64],
) -> u32
    ensures { exported result answer.new (collection_tables letters.new ends.new weights.new)
        ≡ read_exported answer.old (collection_tables letters.old ends.old weights.old)
        (read_of sheet.now (collection_tables letters.old ends.old weights.old)) }
{
    if answer.len() < ANSWER {
        return 1;
    }
    let a = sheet_read::read(sheet, letters, ends, weights);
    let reply = exports_replies::inner::read_reply(exports_replies::inner::as_told(a));
    exports_replies::inner::tell(answer, reply)
}

// WRITE: how many bytes were written.
pub fn corrivume_write(
    k: usize,
    letters: &[u8],
    ends: &[u32],
    weights: &[u32],
    sheet: &mut [u8],
    answer: &mut [u64],
) -> u32
    ensures { exported result answer.new sheet.new
        ≡ write_exported answer.old sheet.old
        (write_of (collection k letters.now ends.now weights.now) sheet.old) }
{
    if answer.len() < ANSWER {
        return 1;
    }
    let given = Collection {
        k,
        letters,
        ends,
        weights,
    };
    let a = sheet_write::write(given, sheet);
    let reply = exports_replies::inner::count_reply(exports_replies::inner::as_told(a));
    exports_replies::inner::tell(answer, reply)
}

// CHECK: how many k-mers were looked at.
pub fn corrivume_check(
    k: usize,
    letters: &[u8],
    ends: &[u32],
    weights: &[u32],
    work: &mut [u32],
    answer: &mut [u64],
) -> u32
    ensures { exported result answer.new work.new
        ≡ check_exported answer.old work.old
        (check_of (collection k letters.now ends.now weights.now) work.old) }
{
    if answer.len() < ANSWER {
        return 1;
    }
    let given = Collection {
        k,
        letters,
        ends,
        weights,
    };
    let a = repeats::check(given, work);
    let reply = exports_replies::inner::count_reply(exports_replies::inner::as_told(a));
    exports_replies::inner::tell(answer, reply)
}

// COVER: the paths, and how many places were filled.
pub fn corrivume_cover(
    k: usize,
    letters: &[u8],
    ends: &[u32],
    weights: &[u32],
    places: &mut [i32],
    work: &mut [u32],
    answer: &mut [u64],
) -> u32
    ensures { CoverExported (collection k letters.now ends.now weights.now) places.old work.old
        answer.old result places.new work.new answer.new }
{
    if answer.len() < ANSWER {
        return 1;
    }
    let given = Collection {
        k,
        letters,
        ends,
        weights,
    };
    let a = cover::cover(given, places, work);
    let reply = exports_replies::inner::cover_reply(exports_replies::inner::as_told(a));
    exports_replies::inner::tell(answer, reply)
}

// APPLY: how many letters, ends and weights were filled.
pub fn corrivume_apply(
    k: usize,
    letters: &[u8],
    ends: &[u32],
    weights: &[u32],
    signed: &[i32],
    new_letters: &mut [u8],
    new_ends: &mut [u32],
    new_weights: &mut [u32],
    work: &mut [u32],
    answer: &mut [u64],
) -> u32
    ensures { exported result answer.new
        (new_lent (collection_tables new_letters.new new_ends.new new_weights.new) work.new)
        ≡ apply_exported answer.old
        (new_lent (collection_tables new_letters.old new_ends.old new_weights.old) work.old)
        (apply_of (collection k letters.now ends.now weights.now) signed.now
        (new_lent (collection_tables new_letters.old new_ends.old new_weights.old) work.old)) }
{
    if answer.len() < ANSWER {
        return 1;
    }
    let given = Collection {
        k,
        letters,
        ends,
        weights,
    };
    let a = apply::apply(given, signed, new_letters, new_ends, new_weights, work);
    let reply = exports_replies::inner::apply_reply(exports_replies::inner::as_told(a));
    exports_replies::inner::tell(answer, reply)
}

// RUNS: how many runs were filled in each table.
pub fn corrivume_runs(
    k: usize,
    letters: &[u8],
    ends: &[u32],
    weights: &[u32],
    run_weights: &mut [u32],
    run_firsts: &mut [u32],
    answer: &mut [u64],
) -> u32
    ensures { exported result answer.new (run_weights.new, run_firsts.new)
        ≡ runs_exported answer.old (run_weights.old, run_firsts.old)
        (runs_of (collection k letters.now ends.now weights.now) run_weights.old run_firsts.old) }
{
    if answer.len() < ANSWER {
        return 1;
    }
    let given = Collection {
        k,
        letters,
        ends,
        weights,
    };
    let a = runs::runs(given, run_weights, run_firsts);
    let reply = exports_replies::inner::count_reply(exports_replies::inner::as_told(a));
    exports_replies::inner::tell(answer, reply)
}

// WEIGHT: the weight of a handle, by the run list of n k-mers.
pub fn corrivume_weight(
    run_weights: &[u32],
    run_firsts: &[u32],
    n: usize,
    handle: usize,
    answer: &mut [u64],
) -> u32
    ensures { exported result answer.new none
        ≡ exported_of answer.old none (weight_reply (weight_answer run_weights.now run_firsts.now n handle)) none }
{
    if answer.len() < ANSWER {
        return 1;
    }
    let list = RunList {
        weights: run_weights,
        firsts: run_firsts,
    };
    let a = weight::weight(list, n, handle);
    let reply = exports_replies::inner::weight_reply(exports_replies::inner::as_told(a));
    exports_replies::inner::tell(answer, reply)
}

// ACCESS: the position of the first of the k letters of a handle, and k.
pub fn corrivume_access(
    k: usize,
    letters: &[u8],
    ends: &[u32],
    handle: usize,
    answer: &mut [u64],
) -> u32
    ensures { exported result answer.new none
        ≡ exported_of answer.old none (access_reply k (access_at (spelling k letters.now ends.now) handle)) none }
{
    if answer.len() < ANSWER {
        return 1;
    }
    let given = Spelling { k, letters, ends };
    let a = access::access_at(given, handle);
    let reply = exports_replies::inner::access_reply(k, exports_replies::inner::as_told(a));
    exports_replies::inner::tell(answer, reply)
}

// PLAIN: the handle of a word and its side, by a scan; handle 0 where it is absent.
pub fn corrivume_plain(
    k: usize,
    letters: &[u8],
    ends: &[u32],
    weights: &[u32],
    word: &[u8],
    answer: &mut [u64],
) -> u32
    ensures { exported result answer.new none
        ≡ exported_of answer.old none
        (plain_reply (plain_of (collection k letters.now ends.now weights.now) word.now)) none }
{
    if answer.len() < ANSWER {
        return 1;
    }
    let given = Collection {
        k,
        letters,
        ends,
        weights,
    };
    let a = plain::plain(given, word);
    let reply = exports_replies::inner::plain_reply(exports_replies::inner::as_told(a));
    exports_replies::inner::tell(answer, reply)
}

// INDEX: how many stretches were filled in each of three tables, and how many entries in the fourth.
pub fn corrivume_index(
    k: usize,
    p: usize,
    letters: &[u8],
    ends: &[u32],
    weights: &[u32],
    firsts: &mut [u32],
    positions: &mut [u32],
    numbers: &mut [u32],
    before: &mut [u32],
    work: &mut [u32],
    answer: &mut [u64],
) -> u32
    ensures { exported result answer.new (lent firsts.new positions.new numbers.new before.new work.new)
        ≡ index_exported answer.old
        (lent firsts.old positions.old numbers.old before.old work.old)
        (index_of (collection k letters.now ends.now weights.now) p
        (lent firsts.old positions.old numbers.old before.old work.old)) }
{
    if answer.len() < ANSWER {
        return 1;
    }
    let given = Collection {
        k,
        letters,
        ends,
        weights,
    };
    let a = index::index(given, p, firsts, positions, numbers, before, work);
    let reply = exports_replies::inner::index_reply(exports_replies::inner::as_told(a));
    exports_replies::inner::tell(answer, reply)
}

// QUICK: the handle of a word, its side and the number compared, by the index; handle 0 where it is absent.
pub fn corrivume_quick(
    k: usize,
    p: usize,
    word: &[u8],
    letters: &[u8],
    firsts: &[u32],
    positions: &[u32],
    numbers: &[u32],
    before: &[u32],
    answer: &mut [u64],
) -> u32
    ensures { exported result answer.new none
        ≡ exported_of answer.old none
        (quick_reply (quick_of k p word.now letters.now
        (tables firsts.now positions.now numbers.now before.now))) none }
{
    if answer.len() < ANSWER {
        return 1;
    }
    let index = Index {
        firsts,
        positions,
        numbers,
        before,
    };
    let a = quick::quick(k, p, word, letters, index);
    let reply = exports_replies::inner::quick_reply(exports_replies::inner::as_told(a));
    exports_replies::inner::tell(answer, reply)
}

// The weight of a word, by the index and the run list of n k-mers: 1 and the weight, 0 and 0 where it is absent.
pub fn corrivume_weigh(
    k: usize,
    p: usize,
    word: &[u8],
    letters: &[u8],
    firsts: &[u32],
    positions: &[u32],
    numbers: &[u32],
    before: &[u32],
    run_weights: &[u32],
    run_firsts: &[u32],
    n: usize,
    answer: &mut [u64],
) -> u32
    ensures { exported result answer.new none
        ≡ exported_of answer.old none
        (weigh_reply (weighed_of
        (quick_of k p word.now letters.now
        (tables firsts.now positions.now numbers.now before.now))
        run_weights.now run_firsts.now n)) none }
{
    if answer.len() < ANSWER {
        return 1;
    }
    let index = Index {
        firsts,
        positions,
        numbers,
        before,
    };
    let list = RunList {
        weights: run_weights,
        firsts: run_firsts,
    };
    let a = quick::weigh(k, p, word, letters, index, list, n);
    let reply = exports_replies::inner::weigh_reply(exports_replies::inner::as_told(a));
    exports_replies::inner::tell(answer, reply)
}
