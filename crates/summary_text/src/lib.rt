// The text of a summary: nine lines of numbers, or one of a refusal. Its length is known before a byte is written.
#![tactic(auto)]

mod lines;

ghost use Rattle.std.specs.Prelude.{◌≡◌, ◌+◌, ◌≤◌, length};
ghost use Rattle.lists.specs.Fill.{fill};
ghost use Rattle.text.specs.Numbers.{digits};
ghost use Rattle.summary_text.specs.Text.{counted_text, refused_text, text_for};
ghost use Rattle.summary_text.specs.Written.{outcome, written_of};

use collection::{Refusal, Told};

// The nine numbers of a collection.
#[derive(Clone, Copy, Debug, PartialEq, Eq)]
pub struct Numbers {
    pub strings: usize,
    pub kmers: usize,
    pub total: usize,
    pub inner: usize,
    pub given: usize,
    pub paths: usize,
    pub least: usize,
    pub distinct: usize,
    pub bits: usize,
}

// How long three numbers are, with a tab and a line feed each.
fn numbers_length(a: usize, b: usize, c: usize) -> usize
    ensures { (result ≡ length (digits a) + length (digits b) + length (digits c) + 6) × (result ≤ 66) }
{
    text::inner::digit_count(a) + text::inner::digit_count(b) + text::inner::digit_count(c) + 6
}

// The nine lines; answers where they end.
fn put_counted(n: Numbers, text: &mut [u8]) -> usize
    requires { length (counted_text n) ≤ length text.old }
    ensures { (result ≡ length (counted_text n)) × (text.new ≡ fill (counted_text n) text.old) }
{
    let a = lines::put_lines(
        b"strings", n.strings, b"kmers", n.kmers, b"total", n.total, text, 0,
    );
    let b = lines::put_lines(
        b"inner", n.inner, b"given", n.given, b"paths", n.paths, text, a,
    );
    lines::put_lines(
        b"least",
        n.least,
        b"distinct",
        n.distinct,
        b"bits",
        n.bits,
        text,
        b,
    )
}

// Writes the nine lines, where they have room. The nine labels have 49 letters.
fn write_counted(n: Numbers, text: &mut [u8]) -> Result<usize, Refusal>
    ensures text_after { outcome result text.new ≡ written_of (counted_text n) text.old }
    ensures n_len_bound { length (counted_text n) ≤ 247 }
{
    let a = numbers_length(n.strings, n.kmers, n.total);
    let b = numbers_length(n.inner, n.given, n.paths);
    let c = numbers_length(n.least, n.distinct, n.bits);
    collection::judge_room(text.len(), 49 + a + b + c)?;
    Ok(put_counted(n, text))
}

// The line of a refusal; answers where it ends.
fn put_refused(number: usize, place: usize, text: &mut [u8]) -> usize
    requires { length (refused_text number place) ≤ length text.old }
    ensures { (result ≡ length (refused_text number place)) × (text.new ≡ fill (refused_text number place) text.old) }
{
    let a = lines::put_entry(b"refused", number, text, 0);
    lines::put_line(b"", place, text, a)
}

// Writes the line of a refusal, where it has room. The label, two tabs and the line feed are ten bytes.
fn write_refused(number: usize, place: usize, text: &mut [u8]) -> Result<usize, Refusal>
    ensures text_after { outcome result text.new ≡ written_of (refused_text number place) text.old }
    ensures place_len_bound { length (refused_text number place) ≤ 247 }
{
    let a = text::inner::digit_count(number);
    let b = text::inner::digit_count(place);
    collection::judge_room(text.len(), 10 + a + b)?;
    Ok(put_refused(number, place, text))
}

// Writes what there is to say of a sheet, the numbers of its collection or why it is refused, where it has room (else 1); answers how many bytes it wrote. 247
// bytes are room for every summary.
#[tactic(auto, unfolding(crate::specs::Text::text_for))]
pub fn write_summary(summary: Result<Numbers, Told>, text: &mut [u8]) -> Result<usize, Refusal>
    ensures text_after { outcome result text.new ≡ written_of (text_for summary) text.old }
    ensures summary_len_bound { length (text_for summary) ≤ 247 }
{
    match summary {
        Ok(numbers) => write_counted(numbers, text),
        Err(told) => write_refused(told.number as usize, told.place, text),
    }
}
