//! No function: this crate has the places of the stores: the ring by the remainder, each call, and all calls since a store was emptied.
#![tactic(auto)]
