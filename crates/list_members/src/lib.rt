//! What stands in a list, as a word for definitions by recursion on the list, and lemmas of it, and
//! of options and of the order of numbers: no code that runs. Its lemmas are its surface, as those
//! of the standard library are: proofs of the crates above cite them.
#![tactic(auto)]
