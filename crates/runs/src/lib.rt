//! No function: this crate has the statements on whole runs of calls, and their proofs.
#![tactic(auto)]
