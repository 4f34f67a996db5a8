// Faults of one table, and where the first stands.
#![tactic(auto)]

pub mod inner;

ghost use Rattle.std.specs.Prelude.{◌≡◌};
ghost use Rattle.collection_faults.specs.Faults.{is_weight};

// Whether a weight is in range.
pub fn is_weight(w: u32) -> bool
    ensures { result ≡ is_weight w }
{
    (1 <= w) & (w <= 16777215)
}
