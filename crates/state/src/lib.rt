//! The state of the bridge by value, whether it fits its stores, and its service requests.
#![tactic(auto)]

use registers::Registers;
use role::remote::Remote;
use status::Events;
use store::Ring;
use talker::Talker;

pub mod fitting;
pub mod requests;

// Whether we hold the line off, whether the other end forbids our sending, and whether stop was the last of go and stop that we sent.
#[derive(Clone, Copy, Default)]
pub struct Line {
    pub holding: bool,
    pub forbidden: bool,
    pub stopped: bool,
}

// What happened and is to be told, what happened again since a status byte was sent, and whether service is requested.
#[derive(Clone, Copy, Default)]
pub struct Notes {
    pub seen: Events,
    pub again: Events,
    pub request: bool,
}

// Bytes stored in the receive store, bytes lost, and data frames sent from it.
#[derive(Clone, Copy, Default)]
pub struct Counts {
    pub stored: u32,
    pub lost: u32,
    pub sent: u32,
}

// The state goes into every call by value, and comes back with the answer where the call is not refused; the caller keeps it. The rings
// record the stores' lengths.
#[derive(Clone, Copy)]
pub struct State {
    pub margin: usize,
    pub rx: Ring,
    pub tx: Ring,
    pub counts: Counts,
    pub talker: Talker,
    pub regs: Registers,
    pub line: Line,
    pub notes: Notes,
    pub remote: Remote,
}

// The next line byte: our own go or stop, or one held in the transmit store.
#[derive(Clone, Copy)]
pub enum Next {
    Own(u8),
    Held(u8),
}

// What a call on such a state answers, and the state after it.
pub type Outcome = answers::Outcome<State>;
