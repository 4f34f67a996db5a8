// Stretches of k-mers with one minimizer, and the index that is made of them: definitions and laws, and the lent tables of an index.
#![tactic(auto)]

// The four tables of an index: of each stretch its first handle, the position of its first letter and its number of k-mers; and how many stretches stand
// before each minimizer, last the total.
#[derive(Clone, Copy)]
pub struct Index<'a> {
    pub firsts: &'a [u32],
    pub positions: &'a [u32],
    pub numbers: &'a [u32],
    pub before: &'a [u32],
}
