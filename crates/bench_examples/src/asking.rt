// The index of the collection, with p = 2, and questions to it: one line each, what was asked and the answer.
use crate::{LETTERS, sheet, side_shown};
use collection::{Collection, Refusal};
use index::Indexed;
use index_stretches::Index;
use quick::QuickAnswer;
use std::io;
use std::io::Write;
use weight::RunList;

fn show(rt: &impl Print, asked: &[u8], a: u64, b: u64, c: u64) -> io::Result<()> {
    io::writer(rt).write_all(asked)?;
    println!(rt; "\t{a}\t{b}\t{c}")
}

// Each stretch in a line of its own: first handle, position, number of k-mers.
fn show_stretches(rt: &impl Print, index: Index) -> io::Result<()> {
    for ((first, at), number) in index.firsts.iter().zip(index.positions).zip(index.numbers) {
        show(
            rt,
            b"stretch",
            u64::from(*first),
            u64::from(*at),
            u64::from(*number),
        )?;
    }
    Ok(())
}

// 100 + the number of a refusal, and its place.
fn show_refusal(rt: &impl Print, asked: &[u8], refusal: Refusal) -> io::Result<()> {
    show(
        rt,
        asked,
        100 + u64::from(refusal.number()),
        refusal.place() as u64,
        0,
    )
}

// INDEX's answer: stretches and entries of the fourth table; 100 + number and the place if refused.
fn show_index(rt: &impl Print, asked: &[u8], answer: Result<Indexed, Refusal>) -> io::Result<()> {
    match answer {
        Ok(indexed) => show(
            rt,
            asked,
            indexed.stretches as u64,
            indexed.starts as u64,
            0,
        ),
        Err(refusal) => show_refusal(rt, asked, refusal),
    }
}

// The handle, 1 for side + or 2 for side -, and the number compared; 0, 0 and the number if absent; 100 + number and the place if refused.
fn show_quick(
    rt: &impl Print,
    asked: &[u8],
    answer: Result<QuickAnswer, Refusal>,
) -> io::Result<()> {
    match answer {
        Ok(
            QuickAnswer::Found {
                handle,
                side,
                compared,
            },
        ) => show(rt, asked, handle as u64, side_shown(side), compared),
        Ok(QuickAnswer::Absent { compared }) => show(rt, asked, 0, 0, compared),
        Err(refusal) => show_refusal(rt, asked, refusal),
    }
}

// The weight of a word; 0 if it is absent; 100 + number and the place if refused.
fn show_weight(
    rt: &impl Print,
    asked: &[u8],
    answer: Result<Option<u32>, Refusal>,
) -> io::Result<()> {
    match answer {
        Ok(weight) => show(rt, asked, u64::from(weight.unwrap_or(0)), 0, 0),
        Err(refusal) => show_refusal(rt, asked, refusal),
    }
}

// Asks a word, with p = 2.
fn ask_word(rt: &impl Print, word: &[u8], index: Index) -> io::Result<()> {
    let answer = quick::quick(3, 2, word, &LETTERS, index);
    show_quick(rt, word, answer)
}

// Asks CAG with another p: the index does not fit.
fn ask_with(rt: &impl Print, asked: &[u8], p: usize, index: Index) -> io::Result<()> {
    let answer = quick::quick(3, p, b"CAG", &LETTERS, index);
    show_quick(rt, asked, answer)
}

fn ask_words(rt: &impl Print, index: Index) -> io::Result<()> {
    ask_word(rt, b"CAG", index)?;
    ask_word(rt, b"TTT", index)?;
    ask_word(rt, b"CCC", index)?;
    ask_word(rt, b"GGC", index)?;
    ask_word(rt, b"GGCT", index)?;
    ask_with(rt, b"p = 9", 9, index)?;
    ask_with(rt, b"p = 1", 1, index)
}

// The weight of a word, by the run list of n k-mers.
fn weigh(rt: &impl Print, asked: &[u8], word: &[u8], n: usize, index: Index) -> io::Result<()> {
    let list = RunList {
        weights: &[2, 5, 3, 7, 2],
        firsts: &[1, 3, 5, 7, 10],
    };
    let answer = quick::weigh(3, 2, word, &LETTERS, index, list, n);
    show_weight(rt, asked, answer)
}

fn weigh_all(rt: &impl Print, index: Index) -> io::Result<()> {
    weigh(rt, b"weight of CAG", b"CAG", 10, index)?;
    weigh(rt, b"weight of CCC", b"CCC", 10, index)?;
    weigh(rt, b"weight of CAG, n = 7", b"CAG", 7, index)
}

// Indexes a collection into tables that have room for seven stretches, but for the numbers of k-mers.
fn index_short(rt: &impl Print, asked: &[u8], given: Collection) -> io::Result<()> {
    let mut firsts = [0u32; 7];
    let mut positions = [0u32; 7];
    let mut numbers = [0u32; 6];
    let mut before = [0u32; 17];
    let mut work = [0u32; 40];
    let answer = index::index(
        given,
        2,
        &mut firsts,
        &mut positions,
        &mut numbers,
        &mut before,
        &mut work,
    );
    show_index(rt, asked, answer)
}

// A table that is too short, and a word that repeats.
fn refused(rt: &impl Print) -> io::Result<()> {
    index_short(rt, b"numbers too short", sheet(3))?;
    let twice = Collection {
        k: 3,
        letters: b"ACGCGT",
        ends: &[3, 6],
        weights: &[1, 1],
    };
    index_short(rt, b"ACG and CGT", twice)
}

// The seven stretches, and the questions.
fn after(rt: &impl Print, index: Index) -> io::Result<()> {
    show_stretches(rt, index)?;
    ask_words(rt, index)?;
    weigh_all(rt, index)
}

// INDEX, the stretches, the questions, and what INDEX refuses.
pub(crate) fn ask_all(rt: &impl Print) -> io::Result<()> {
    let mut firsts = [0u32; 7];
    let mut positions = [0u32; 7];
    let mut numbers = [0u32; 7];
    let mut before = [0u32; 17];
    let mut work = [0u32; 40];
    let a = index::index(
        sheet(3),
        2,
        &mut firsts,
        &mut positions,
        &mut numbers,
        &mut before,
        &mut work,
    );
    show_index(rt, b"index", a)?;
    let index = Index {
        firsts: &firsts,
        positions: &positions,
        numbers: &numbers,
        before: &before,
    };
    after(rt, index)?;
    refused(rt)
}
