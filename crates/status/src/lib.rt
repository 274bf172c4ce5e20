//! The status byte, and the conditions that begin a service request.
#![tactic(auto)]

ghost use Rattle.std.specs.Prelude.{◌≡◌, cond, ◌≤◌};
ghost use Rattle.status.specs.Status.{status_byte, both, begins, acknowledged};

// The seven conditions that can ask for service: which of them hold, or which are enabled.
// Kept flat, in the order of the bits of the status byte, and with the paper's names: as bits of one byte they would lose them.
#[derive(Clone, Copy)]
pub struct Conditions {
    pub txempty: bool,
    pub txnotfull: bool,
    pub rxnotempty: bool,
    pub rxfull: bool,
    pub brk: bool,
    pub overrun: bool,
    pub key: bool,
}

// The three things that happen and are told until a status byte has told them.
#[derive(Clone, Copy, Default)]
pub struct Events {
    pub brk: bool,
    pub overrun: bool,
    pub key: bool,
}

// The status byte that shows these conditions and whether service is requested.
#[tactic(auto, using(crate::proofs::Weights::weighs), unfolding(crate::specs::Status::status_byte))]
pub fn status_byte(c: Conditions, requested: bool) -> u8
    ensures { result ≡ status_byte c requested }
{
    let low = u8::from(c.txempty)
        + 2 * u8::from(c.txnotfull)
        + 4 * u8::from(c.rxnotempty)
        + 8 * u8::from(c.rxfull);
    let high = 16 * u8::from(c.brk)
        + 32 * u8::from(c.overrun)
        + 64 * u8::from(requested)
        + 128 * u8::from(c.key);
    low + high
}

// The conditions that are enabled and hold.
pub fn enabled_and_holding(e: Conditions, c: Conditions) -> Conditions
    ensures { result ≡ both e c }
{
    Conditions {
        txempty: e.txempty & c.txempty,
        txnotfull: e.txnotfull & c.txnotfull,
        rxnotempty: e.rxnotempty & c.rxnotempty,
        rxfull: e.rxfull & c.rxfull,
        brk: e.brk & c.brk,
        overrun: e.overrun & c.overrun,
        key: e.key & c.key,
    }
}

// Whether one of them has come to hold: each as it was before a call and as it is after it.
pub fn request_begins(b: Conditions, a: Conditions) -> bool
    ensures { result ≡ begins b a }
{
    (a.txempty & !b.txempty)
        | (a.txnotfull & !b.txnotfull)
        | (a.rxnotempty & !b.rxnotempty)
        | (a.rxfull & !b.rxfull)
        | (a.brk & !b.brk)
        | (a.overrun & !b.overrun)
        | (a.key & !b.key)
}

// What is still to be told when the status byte d has come back unchanged.
// Kept beside what crate news does with its own bit: the two know nothing of each other.
pub fn acknowledged(e: Events, again: Events, d: u8) -> Events
    ensures { result ≡ acknowledged e again d }
{
    Events {
        brk: e.brk & !((d / 16 % 2 == 1) & !again.brk),
        overrun: e.overrun & !((d / 32 % 2 == 1) & !again.overrun),
        key: e.key & !((d / 128 % 2 == 1) & !again.key),
    }
}
