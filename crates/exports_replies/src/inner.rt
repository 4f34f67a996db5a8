// The reply to each call's answer, and how it is told through a table that has room for it.
ghost use Rattle.std.specs.Prelude.{◌≡◌, ◌≤◌, length};
ghost use Rattle.exports_replies.specs.Told.{told, told_of, values_of};
ghost use Rattle.lists.specs.Fill.{fill};
ghost use Rattle.exports_replies.specs.Replies.{
  side_of,
  as_told,
  read_told,
  count_told,
  cover_told,
  apply_told,
  weight_told,
  access_told,
  plain_told,
  index_told,
  quick_told,
  weigh_told,
};

use crate::Reply;
use collection::{Refusal, Side, Told};
use cover::Covered;
use index::Indexed;
use plain::Standing;
use quick::QuickAnswer;

// 0 for a word as asked, 1 for its reverse complement.
fn side_of(side: Side) -> u64
    ensures { result ≡ side_of side }
{
    match side {
        Side::Asked => 0,
        Side::Turned => 1,
    }
}

// An answer as it is told: a refusal by its number and its place.
#[tactic(auto, unfolding(collection::specs::Verdict::told))]
pub fn as_told<A: Copy>(answer: Result<A, Refusal>) -> Result<A, Told>
    ensures { result ≡ as_told answer }
{
    answer.map_err(Refusal::told)
}

// READ: k, and how many letters, ends and weights were filled.
pub fn read_reply(answer: Result<sheet::Filled, Told>) -> Result<Reply, Told>
    ensures { result ≡ read_told answer }
{
    let filled = answer?;
    Ok(Reply::Four(
        filled.k as u64,
        filled.letters as u64,
        filled.ends as u64,
        filled.weights as u64,
    ))
}

// WRITE, CHECK and RUNS: how many bytes were written, k-mers were looked at, or runs were filled in each table.
pub fn count_reply(answer: Result<usize, Told>) -> Result<Reply, Told>
    ensures { result ≡ count_told answer }
{
    let count = answer?;
    Ok(Reply::One(count as u64))
}

// COVER: the paths, and how many places were filled.
pub fn cover_reply(answer: Result<Covered, Told>) -> Result<Reply, Told>
    ensures { result ≡ cover_told answer }
{
    let covered = answer?;
    Ok(Reply::Two(covered.paths as u64, covered.places as u64))
}

// APPLY: how many letters, ends and weights were filled.
pub fn apply_reply(answer: Result<apply::Filled, Told>) -> Result<Reply, Told>
    ensures { result ≡ apply_told answer }
{
    let filled = answer?;
    Ok(Reply::Three(
        filled.letters as u64,
        filled.ends as u64,
        filled.weights as u64,
    ))
}

// WEIGHT: the weight.
pub fn weight_reply(answer: Result<u32, Told>) -> Result<Reply, Told>
    ensures { result ≡ weight_told answer }
{
    let weight = answer?;
    Ok(Reply::One(weight as u64))
}

// ACCESS: the position of the first of the k letters, and k.
pub fn access_reply(k: usize, answer: Result<usize, Told>) -> Result<Reply, Told>
    ensures { result ≡ access_told k answer }
{
    let position = answer?;
    Ok(Reply::Two(position as u64, k as u64))
}

// PLAIN: the handle and the side; an absent word has handle 0.
pub fn plain_reply(answer: Result<Option<Standing>, Told>) -> Result<Reply, Told>
    ensures { result ≡ plain_told answer }
{
    match answer? {
        Some(standing) => Ok(Reply::Two(standing.handle as u64, side_of(standing.side))),
        None => Ok(Reply::Two(0, 0)),
    }
}

// INDEX: how many stretches were filled in each of three tables, and how many entries in the fourth.
pub fn index_reply(answer: Result<Indexed, Told>) -> Result<Reply, Told>
    ensures { result ≡ index_told answer }
{
    let indexed = answer?;
    Ok(Reply::Two(indexed.stretches as u64, indexed.starts as u64))
}

// QUICK: the handle, the side and the number compared; an absent word has handle 0.
pub fn quick_reply(answer: Result<QuickAnswer, Told>) -> Result<Reply, Told>
    ensures { result ≡ quick_told answer }
{
    match answer? {
        QuickAnswer::Found {
            handle,
            side,
            compared,
        } => Ok(Reply::Three(handle as u64, side_of(side), compared)),
        QuickAnswer::Absent { compared } => Ok(Reply::Three(0, 0, compared)),
    }
}

// The weight of a word: 1 and the weight; an absent word has 0 and 0.
pub fn weigh_reply(answer: Result<Option<u32>, Told>) -> Result<Reply, Told>
    ensures { result ≡ weigh_told answer }
{
    let Some(weight) = answer? else {
        return Ok(Reply::Two(0, 0));
    };
    Ok(Reply::Two(1, weight as u64))
}

// Stores the values of a reply in the first entries.
fn put_values(answer: &mut [u64], reply: Reply)
    requires { 4 ≤ length answer.old }
    ensures { answer.new ≡ fill (values_of reply) answer.old }
{
    match reply {
        Reply::One(a) => {
            answer[0] = a;
        }
        Reply::Two(a, b) => {
            answer[0] = a;
            answer[1] = b;
        }
        Reply::Three(a, b, c) => {
            answer[0] = a;
            answer[1] = b;
            answer[2] = c;
        }
        Reply::Four(a, b, c, d) => {
            answer[0] = a;
            answer[1] = b;
            answer[2] = c;
            answer[3] = d;
        }
    }
}

// Stores the values of a reply, or the place of a refusal, in the first entries, and returns the refusal's number, 0 where there is none.
#[tactic(auto, unfolding(crate::specs::Told::told_of))]
pub fn tell(answer: &mut [u64], reply: Result<Reply, Told>) -> u32
    requires { 4 ≤ length answer.old }
    ensures { told result answer.new ≡ told_of reply answer.old }
{
    match reply {
        Ok(values) => {
            put_values(answer, values);
            0
        }
        Err(told) => {
            answer[0] = told.place as u64;
            told.number
        }
    }
}
