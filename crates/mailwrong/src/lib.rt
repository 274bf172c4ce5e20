//! No function: this crate has mailboxes that are wrong, and the laws that they break.
#![tactic(auto)]
