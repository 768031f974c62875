//! What a search for a byte answers, as a lemma for the crates above: no code that runs. Its lemma is
//! its surface: proofs of the crates above cite it.
#![tactic(auto)]
