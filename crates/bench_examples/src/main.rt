// Runs the worked examples that are not proved as theorems, and some that are, and writes one line each: what was asked, and the
// answer. The file `stdout` holds what the lines should be.
#![tactic(auto)]

mod asking;
mod reordering;

use collection::{Collection, Refusal, Side};
use std::io;
use std::io::Write;
use weight::RunList;

// The sheet of the examples after the places +1 +4 -3 -2.
pub(crate) const LETTERS: [u8; 18] = *b"AAACCTGTAGGCTGAGAT";

pub(crate) const ENDS: [u32; 4] = [5, 9, 14, 18];

pub(crate) const WEIGHTS: [u32; 10] = [2, 2, 5, 5, 3, 3, 7, 7, 7, 2];

pub(crate) fn sheet(k: usize) -> Collection<'static> {
    Collection {
        k,
        letters: &LETTERS,
        ends: &ENDS,
        weights: &WEIGHTS,
    }
}

pub(crate) fn show(rt: &impl Print, asked: &[u8], a: u64, b: u64) -> io::Result<()> {
    io::writer(rt).write_all(asked)?;
    println!(rt; "\t{a}\t{b}")
}

// A refusal of a call that answers something else too: 100 + number, and the place.
pub(crate) fn show_refusal(rt: &impl Print, asked: &[u8], refusal: Refusal) -> io::Result<()> {
    show(
        rt,
        asked,
        100 + u64::from(refusal.number()),
        refusal.place() as u64,
    )
}

// The number and the place of a refusal, 0 and 0 where there is none.
fn show_verdict(rt: &impl Print, asked: &[u8], verdict: Result<(), Refusal>) -> io::Result<()> {
    match verdict {
        Ok(()) => show(rt, asked, 0, 0),
        Err(refusal) => show(
            rt,
            asked,
            u64::from(refusal.number()),
            refusal.place() as u64,
        ),
    }
}

// 1 for side +, 2 for side -.
pub(crate) fn side_shown(side: Side) -> u64 {
    match side {
        Side::Asked => 1,
        Side::Turned => 2,
    }
}

// The letters that ACCESS hands back, and its number and place.
fn show_access(rt: &impl Print, asked: &[u8], k: usize, handle: usize) -> io::Result<()> {
    let given = sheet(k).spelling();
    let told = access::access_told(given, handle);
    let part = access::access(given, handle);
    io::writer(rt).write_all(part)?;
    io::writer(rt).write_all(b" ")?;
    show(rt, asked, u64::from(told.number), told.place as u64)
}

// The handle of a word and 1 for side +, 2 for side -; 0 and 0 if absent; 100 + number and the place if refused.
fn show_plain(rt: &impl Print, word: &[u8]) -> io::Result<()> {
    match plain::plain(sheet(3), word) {
        Ok(Some(standing)) => show(rt, word, standing.handle as u64, side_shown(standing.side)),
        Ok(None) => show(rt, word, 0, 0),
        Err(refusal) => show_refusal(rt, word, refusal),
    }
}

// Each run's weight and first handle, in a line of its own.
fn show_list(rt: &impl Print, list: RunList) -> io::Result<()> {
    for (weight, first) in list.weights.iter().zip(list.firsts) {
        show(rt, b"run", u64::from(*weight), u64::from(*first))?;
    }
    Ok(())
}

// How many there are of what was counted, or 100 + number and the place if the call refuses.
pub(crate) fn show_count(
    rt: &impl Print,
    asked: &[u8],
    answer: Result<usize, Refusal>,
) -> io::Result<()> {
    match answer {
        Ok(count) => show(rt, asked, count as u64, 0),
        Err(refusal) => show_refusal(rt, asked, refusal),
    }
}

// The runs of the sheet.
fn runs_all(rt: &impl Print) -> io::Result<()> {
    let mut weights = [0u32; 5];
    let mut firsts = [0u32; 5];
    let answer = runs::runs(sheet(3), &mut weights, &mut firsts);
    show_count(rt, b"runs", answer)?;
    let list = RunList {
        weights: &weights,
        firsts: &firsts,
    };
    show_list(rt, list)
}

// The weight of a handle in the run list of the sheet, or 100 + number and the place if refused.
fn show_weight(rt: &impl Print, asked: &[u8], n: usize, handle: usize) -> io::Result<()> {
    let list = RunList {
        weights: &[2, 5, 3, 7, 2],
        firsts: &[1, 3, 5, 7, 10],
    };
    match weight::weight(list, n, handle) {
        Ok(weight) => show(rt, asked, u64::from(weight), 0),
        Err(refusal) => show_refusal(rt, asked, refusal),
    }
}

fn judge(rt: &impl Print, asked: &[u8], given: Collection) -> io::Result<()> {
    show_verdict(rt, asked, given.judge())
}

fn judge_none(rt: &impl Print) -> io::Result<()> {
    let none = Collection {
        k: 3,
        letters: b"",
        ends: &[],
        weights: &[],
    };
    judge(rt, b"no strings", none)
}

// One string of 31 letters, with one weight.
fn judge_long(rt: &impl Print, asked: &[u8], k: usize, weight: u32) -> io::Result<()> {
    let long = Collection {
        k,
        letters: &[b'A'; 31],
        ends: &[31],
        weights: &[weight],
    };
    judge(rt, asked, long)
}

fn judge_all(rt: &impl Print) -> io::Result<()> {
    judge(rt, b"the sheet of the examples", sheet(3))?;
    judge(rt, b"k = 2", sheet(2))?;
    judge_long(rt, b"k = 31, weight 1", 31, 1)?;
    judge_long(rt, b"k = 32", 32, 1)?;
    judge_long(rt, b"weight 0", 31, 0)?;
    judge_none(rt)
}

fn turn_all(rt: &impl Print) -> io::Result<()> {
    show(rt, b"AACC turned", words::turned_four(5) as u64, 0)?;
    show(rt, b"ACGT turned", words::turned_four(27) as u64, 0)
}

fn access_all(rt: &impl Print) -> io::Result<()> {
    show_access(rt, b"handle 8", 3, 8)?;
    show_access(rt, b"handle 1", 3, 1)?;
    show_access(rt, b"handle 10", 3, 10)?;
    show_access(rt, b"handle 11", 3, 11)?;
    show_access(rt, b"k = 2, handle 1", 2, 1)
}

fn plain_all(rt: &impl Print) -> io::Result<()> {
    show_plain(rt, b"CAG")?;
    show_plain(rt, b"TTT")?;
    show_plain(rt, b"CCC")?;
    show_plain(rt, b"GGC")?;
    show_plain(rt, b"GGCT")?;
    show_plain(rt, b"cag")
}

fn weigh_all(rt: &impl Print) -> io::Result<()> {
    show_weight(rt, b"weight of 8", 10, 8)?;
    show_weight(rt, b"weight of 9", 10, 9)?;
    show_weight(rt, b"weight of 10", 10, 10)?;
    show_weight(rt, b"weight of 11", 10, 11)?;
    show_weight(rt, b"a run past n", 9, 8)
}

// How many k-mers CHECK looked at, or 100 + number and the place if it refuses.
fn show_check(rt: &impl Print, asked: &[u8], given: Collection) -> io::Result<()> {
    let mut work = [0u32; 64];
    let answer = repeats::check(given, &mut work);
    show_count(rt, asked, answer)
}

// Two strings of three letters.
fn check_two(rt: &impl Print, asked: &[u8], letters: &[u8]) -> io::Result<()> {
    let two = Collection {
        k: 3,
        letters,
        ends: &[3, 6],
        weights: &[1, 1],
    };
    show_check(rt, asked, two)
}

// A word that is its own reverse complement, once.
fn check_own(rt: &impl Print) -> io::Result<()> {
    let own = Collection {
        k: 4,
        letters: b"ACGT",
        ends: &[4],
        weights: &[1],
    };
    show_check(rt, b"ACGT is its own pair", own)
}

fn check_all(rt: &impl Print) -> io::Result<()> {
    show_check(rt, b"the sheet checked", sheet(3))?;
    check_two(rt, b"ACG and CGT", b"ACGCGT")?;
    check_two(rt, b"ACG and GTC", b"ACGGTC")?;
    check_own(rt)
}

fn main(rt: HostRuntime) -> io::Result<()> {
    turn_all(&rt)?;
    judge_all(&rt)?;
    access_all(&rt)?;
    plain_all(&rt)?;
    runs_all(&rt)?;
    weigh_all(&rt)?;
    check_all(&rt)?;
    reordering::cover_sheet(&rt)?;
    reordering::apply_all(&rt)?;
    asking::ask_all(&rt)
}
