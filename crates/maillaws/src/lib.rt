//! No function: this crate has the laws that hold of every call of a mailbox.
#![tactic(auto)]
