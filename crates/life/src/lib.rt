// What any list of starts, orders, replies and power cuts leaves on a chip, and that a run gives exactly its
// orders. There is no code here: specs/ states it, proofs/ proves it of the calls of the crates below.

#![tactic(auto)]
