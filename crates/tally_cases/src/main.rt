// Writes what `tally` says of each sheet on standard input, with an empty line after it. The sheets are parted by `~`.
#![tactic(auto)]

use std::io;
use std::io::Write;

// Writes the report of one sheet, as `tally` does, and an empty line.
fn tell(rt: &impl Print, sheet: &[u8]) -> io::Result<()> {
    let mut text = [0u8; 256];
    let Ok(bytes) = summary::report(sheet, &mut text) else {
        return Ok(());
    };
    io::writer(rt).write_all(&text[..bytes])?;
    io::writer(rt).write_all(b"\n")
}

// One sheet after the other. Behind a last `~` there is none.
fn run(rt: &impl Print, sheets: &[u8]) -> io::Result<()> {
    for part in sheets.split_inclusive(|b| *b == b'~') {
        tell(rt, part.strip_suffix(b"~").unwrap_or(part))?;
    }
    Ok(())
}

fn main(rt: HostRuntime) -> io::Result<()> {
    let mut sheets = [0u8; 65536];
    let n = streams::read_full(&mut rt.stdin(), &mut sheets)?;
    run(&rt, &sheets[..n])
}
