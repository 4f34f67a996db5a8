// The sheet of the examples as it was given: COVER finds places, APPLY writes the new collection, RUNS counts its runs.
use crate::{show, show_count, show_refusal};
use collection::{Collection, Refusal};
use cover::Covered;
use std::io;

const LETTERS: [u8; 18] = *b"AAACCAGATCAGCCTACA";

const ENDS: [u32; 4] = [5, 9, 14, 18];

const WEIGHTS: [u32; 10] = [2, 2, 5, 7, 2, 7, 7, 3, 3, 5];

fn sheet() -> Collection<'static> {
    Collection {
        k: 3,
        letters: &LETTERS,
        ends: &ENDS,
        weights: &WEIGHTS,
    }
}

// How many runs a collection has.
fn show_runs(rt: &impl Print, asked: &[u8], given: Collection) -> io::Result<()> {
    let mut run_weights = [0u32; 10];
    let mut run_firsts = [0u32; 10];
    let answer = runs::runs(given, &mut run_weights, &mut run_firsts);
    show_count(rt, asked, answer)
}

// The runs after the strings are put to these places, or 100 + number and the place if APPLY refuses.
fn show_applied(rt: &impl Print, asked: &[u8], places: &[i32]) -> io::Result<()> {
    let mut letters = [0u8; 18];
    let mut ends = [0u32; 4];
    let mut weights = [0u32; 10];
    let mut work = [0u32; 4];
    let answer = apply::apply(
        sheet(),
        places,
        &mut letters,
        &mut ends,
        &mut weights,
        &mut work,
    );
    if let Err(refusal) = answer {
        return show_refusal(rt, asked, refusal);
    }
    let reordered = Collection {
        k: 3,
        letters: &letters,
        ends: &ends,
        weights: &weights,
    };
    show_runs(rt, asked, reordered)
}

fn show_cover(rt: &impl Print, answer: Result<Covered, Refusal>) -> io::Result<()> {
    match answer {
        Ok(covered) => show(rt, b"covered", covered.places as u64, covered.paths as u64),
        Err(refusal) => show(
            rt,
            b"cover refused",
            u64::from(refusal.number()),
            refusal.place() as u64,
        ),
    }
}

// The number of places that COVER fills and its paths, and the runs with these places.
pub(crate) fn cover_sheet(rt: &impl Print) -> io::Result<()> {
    show_runs(rt, b"runs as given", sheet())?;
    let mut places = [0i32; 4];
    let mut work = [0u32; 64];
    let answer = cover::cover(sheet(), &mut places, &mut work);
    show_cover(rt, answer)?;
    show_applied(rt, b"runs as covered", &places)
}

// Places that are given, and some that are refused.
pub(crate) fn apply_all(rt: &impl Print) -> io::Result<()> {
    show_applied(rt, b"runs at +1 +4 -3 -2", &[1, 4, -3, -2])?;
    show_applied(rt, b"places +1 -1", &[1, -1, 2, 3])?;
    show_applied(rt, b"the smallest place", &[1, 2, 3, -2147483648])
}
