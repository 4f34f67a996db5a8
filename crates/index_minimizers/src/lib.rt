// Minimizers: the smallest code among the words of p letters of a k-mer.
#![tactic(auto)]

pub mod inner;

ghost use Rattle.std.specs.Prelude.{◌≡◌};
ghost use Rattle.index_minimizers.specs.Minimizer.{sizes_verdict};

use collection::Refusal;

// 2: k or p outside its range.
#[tactic(auto, unfolding(crate::specs::Minimizer::sizes_verdict, collection::specs::Verdict::and_then))]
pub fn judge_sizes(k: usize, p: usize) -> Result<(), Refusal>
    ensures { result ≡ sizes_verdict k p }
{
    collection::judge_k(k)?;
    if (1 <= p) & ((p <= 8) & (p <= k)) {
        return Ok(());
    }
    Err(Refusal::Sizes)
}
