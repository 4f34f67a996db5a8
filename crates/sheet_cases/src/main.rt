// Runs READ and WRITE on sheets from standard input, and writes for each `y` where they answer as the specification says (9.1, 9.2), else `n`.
// The sheets are parted by `~`. Each has a mark before it: `=` for a sheet that is read and written back, `1` `2` `3` for a
// wrong line of that number, `k` for a k out of range, `r` for a sheet that the tables have no room for.
#![tactic(auto)]

use collection::{Collection, Refusal};
use std::io;
use std::io::Write;

// Writes `y` or `n`.
fn say(rt: &impl Print, good: bool) -> io::Result<()> {
    if good {
        return io::writer(rt).write_all(b"y");
    }
    io::writer(rt).write_all(b"n")
}

// Whether READ refuses a sheet so.
fn is_refused(sheet: &[u8], refusal: Refusal) -> bool {
    let mut letters = [0u8; 32];
    let mut ends = [0u32; 8];
    let mut weights = [0u32; 32];
    sheet_read::read(sheet, &mut letters, &mut ends, &mut weights) == Err(refusal)
}

// Whether WRITE of a collection is the sheet.
fn written(given: Collection, sheet: &[u8], out: &mut [u8]) -> bool {
    let Ok(c) = sheet_write::write(given, out) else {
        return false;
    };
    out.get(..c) == Some(sheet)
}

// Whether READ takes a sheet, and WRITE of what it gives is the same bytes.
fn back(
    sheet: &[u8],
    letters: &mut [u8],
    ends: &mut [u32],
    weights: &mut [u32],
    out: &mut [u8],
) -> bool {
    let Ok(filled) = sheet_read::read(sheet, letters, ends, weights) else {
        return false;
    };
    let (Some(letters), Some(ends), Some(weights)) = (
        letters.get(..filled.letters),
        ends.get(..filled.ends),
        weights.get(..filled.weights),
    ) else {
        return false;
    };
    let k = filled.k;
    let given = Collection {
        k,
        letters,
        ends,
        weights,
    };
    written(given, sheet, out)
}

// The same with tables of its own.
fn same(sheet: &[u8]) -> bool {
    let mut letters = [0u8; 32];
    let mut ends = [0u32; 8];
    let mut weights = [0u32; 32];
    let mut out = [0u8; 128];
    back(sheet, &mut letters, &mut ends, &mut weights, &mut out)
}

// Whether a sheet has the answer that its mark says.
fn answers(mark: u8, sheet: &[u8]) -> bool {
    match mark {
        b'=' => same(sheet),
        b'1' => is_refused(sheet, Refusal::Line { place: 1 }),
        b'2' => is_refused(sheet, Refusal::Line { place: 2 }),
        b'3' => is_refused(sheet, Refusal::Line { place: 3 }),
        b'k' => is_refused(sheet, Refusal::Sizes),
        b'r' => is_refused(sheet, Refusal::Room),
        _ => false,
    }
}

// One case after the other: a mark, and a sheet up to the next `~` or the end.
fn run(rt: &impl Print, cases: &[u8]) -> io::Result<()> {
    let mut rest = cases;
    while let Some((mark, tail)) = rest.split_first() {
        let n = tail.iter().position(|b| *b == b'~').unwrap_or(tail.len());
        say(rt, answers(*mark, &tail[..n]))?;
        rest = tail.get(n + 1..).unwrap_or(&[]);
    }
    Ok(())
}

fn main(rt: HostRuntime) -> io::Result<()> {
    let mut buffer = [0u8; 4096];
    let n = streams::read_full(&mut rt.stdin(), &mut buffer)?;
    run(&rt, &buffer[..n])?;
    io::writer(&rt).write_all(b"\n")
}
