//! Numbers of a given width side by side, as the formats of the uplink lay them out: definitions, and
//! lemmas of them, which proofs of the crates above cite; no code that runs.
#![tactic(auto)]
