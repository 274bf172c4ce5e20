//! No function: this crate has the laws on tests that the proofs of every other crate use.
#![tactic(auto)]
