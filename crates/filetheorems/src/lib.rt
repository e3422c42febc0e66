// What is proved of the functions for files, lists and reports that a C host calls, beside their contracts. There is no code
// here: specs/ states it, proofs/ proves it of the calls of the crates below.

#![tactic(auto)]
