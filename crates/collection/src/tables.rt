// The tables of a collection, as a caller lends them.
ghost use Rattle.std.specs.Prelude.{◌≡◌};
ghost use Rattle.collection.specs.Lent.{spelling_in, collection_in};
ghost use Rattle.collection.specs.Collection.{spelling_of};
ghost use Rattle.collection.specs.Judge.{shape_verdict, collection_verdict};

use crate::{Refusal, inner, judge_k, judge_size, judging};

// What calls read that need no weights: k, the letters of all strings end to end, and where each string ends. The two tables may be lent for different times,
// since ACCESS hands back a part of the letters alone.
#[derive(Clone, Copy)]
pub struct Spelling<'a, 'b> {
    pub k: usize,
    pub letters: &'a [u8],
    pub ends: &'b [u32],
}

// The same with the weights of all k-mers.
#[derive(Clone, Copy)]
pub struct Collection<'a> {
    pub k: usize,
    pub letters: &'a [u8],
    pub ends: &'a [u32],
    pub weights: &'a [u32],
}

impl<'a, 'b> Spelling<'a, 'b> {
    // 2, 3, 4: the strings have their places.
    #[tactic(auto, unfolding(crate::specs::Judge::shape_verdict, crate::specs::Verdict::and_then), using(crate::proofs::Judged::k_good))]
    pub fn judge(self) -> Result<(), Refusal>
        ensures { result ≡ shape_verdict (spelling_in self.entry) }
    {
        judge_k(self.k)?;
        judge_size(self.letters.len(), self.ends.len())?;
        judging::judge_ends(self.k, self.letters.len(), self.ends)
    }
}

impl<'a> Collection<'a> {
    // Without its weights.
    pub fn spelling(self) -> Spelling<'a, 'a>
        ensures { spelling_in result ≡ spelling_of (collection_in self.entry) }
    {
        Spelling {
            k: self.k,
            letters: self.letters,
            ends: self.ends,
        }
    }

    // 2 to 6, in order.
    #[tactic(auto, unfolding(crate::specs::Judge::collection_verdict, crate::specs::Verdict::and_then))]
    pub fn judge(self) -> Result<(), Refusal>
        ensures { result ≡ collection_verdict (collection_in self.entry) }
    {
        self.spelling().judge()?;
        judging::judge_letters(self.letters)?;
        let n = inner::kmer_count(self.k, self.letters.len(), self.ends.len());
        judging::judge_weights(n, self.weights)
    }
}
