// Closed walks over strings and spokes that stand in one lent table. Each walk goes on while there is an unused half where it stands, and gives back where
// there is none. The table says nothing of weights: strings are known by the vertices that they join.
#![tactic(auto)]

pub mod inner; // the walks, for a caller that has written the table
