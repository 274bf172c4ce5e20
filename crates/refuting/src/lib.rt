//! No function: this crate has what the refutations of wrong machines share, whatever the machine.
#![tactic(auto)]
