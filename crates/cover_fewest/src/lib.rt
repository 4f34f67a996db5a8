// No code: the runs of reordered weights and the paths of an order are one count, so that fewest paths are fewest runs.
#![tactic(auto)]
