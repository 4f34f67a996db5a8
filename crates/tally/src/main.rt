// tally: reads a sheet from standard input and writes its numbers, or why it is refused, to standard output.
#![tactic(auto)]

use std::io;
use std::io::Write;

// Writes the report of a sheet. It takes at most 247 bytes, so that it always has room (`report_enough` of `summary`): the early way
// out is never taken.
fn tell(rt: &impl Print, sheet: &[u8]) -> io::Result<()> {
    let mut text = [0u8; 256];
    let Ok(bytes) = summary::report(sheet, &mut text) else {
        return Ok(());
    };
    io::writer(rt).write_all(&text[..bytes])
}

// One byte more than a sheet may have is enough to know that it has too many.
fn main(rt: HostRuntime) -> io::Result<()> {
    let mut sheet = [0u8; 8193];
    let n = streams::read_full(&mut rt.stdin(), &mut sheet)?;
    tell(&rt, &sheet[..n])
}
