//! No function: this crate says that no block is a state of two products.
#![tactic(auto)]
