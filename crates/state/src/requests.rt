// Service requests and the status byte.
ghost use Rattle.std.specs.Prelude.{◌≡◌};
ghost use Rattle.state.specs.State.{notes_with};
ghost use Rattle.state.specs.Conditions.{conditions, enabled_by, asking, settled, settled_outcome, shows, serviced};
ghost use Rattle.state.specs.Conditions.{status_of, after_status, after_status_back, break_state, key_state};

use crate::{Notes, Outcome, State};
use registers::Registers;
use status::{Conditions, Events};

// The conditions that hold.
#[tactic(auto, unfolding(crate::specs::Conditions::conditions))]
fn conditions(s: State) -> Conditions
    ensures { result ≡ conditions s }
{
    Conditions {
        txempty: s.tx.len == 0,
        txnotfull: s.tx.len < s.tx.cap,
        rxnotempty: 0 < s.rx.len,
        rxfull: s.rx.cap <= s.rx.len,
        brk: s.notes.seen.brk,
        overrun: s.notes.seen.overrun,
        key: s.notes.seen.key,
    }
}

// The conditions that the registers enable.
#[tactic(auto, unfolding(crate::specs::Conditions::enabled_by))]
fn enabled(g: Registers) -> Conditions
    ensures { result ≡ enabled_by g }
{
    Conditions {
        txempty: registers::meanings::transmit_empty_enabled(g),
        txnotfull: registers::meanings::transmit_not_full_enabled(g),
        rxnotempty: registers::meanings::receive_not_empty_enabled(g),
        rxfull: registers::meanings::receive_full_enabled(g),
        brk: registers::meanings::break_enabled(g),
        overrun: registers::meanings::overrun_enabled(g),
        key: registers::meanings::key_enabled(g),
    }
}

// The conditions that are enabled and hold.
#[tactic(auto, unfolding(crate::specs::Conditions::asking))]
fn asking(s: State) -> Conditions
    ensures { result ≡ asking s }
{
    status::enabled_and_holding(enabled(s.regs), conditions(s))
}

// The state after a call, with the request that the call began.
#[tactic(auto, unfolding(crate::specs::Conditions::settled))]
fn settled(before: State, after: State) -> State
    ensures { result ≡ settled before after }
{
    let begins = status::request_begins(asking(before), asking(after));
    State {
        notes: Notes {
            request: after.notes.request | begins,
            ..after.notes
        },
        ..after
    }
}

// What a call on a state gives, with the request that it began: requests begin here and nowhere else.
pub fn settle(before: State, o: Outcome) -> Outcome
    ensures { result ≡ settled_outcome before o }
{
    Outcome {
        state: settled(before, o.state),
        ..o
    }
}

// Whether a request shows.
#[tactic(auto, unfolding(crate::specs::Conditions::shows))]
pub fn shows(s: State) -> bool
    ensures { result ≡ shows s }
{
    registers::meanings::requests_show(s.regs) & s.notes.request
}

// The frame with the service bit if a request shows, and as it was otherwise.
#[tactic(auto, unfolding(crate::specs::Conditions::serviced))]
pub fn serviced(s: State, f: u16) -> u16
    ensures { result ≡ serviced s f }
{
    if shows(s) { frame::with_service(f) } else { f }
}

// The status byte of the moment.
#[tactic(auto, unfolding(crate::specs::Conditions::status_of))]
pub fn status_of(s: State) -> u8
    ensures { result ≡ status_of s }
{
    status::status_byte(conditions(s), shows(s))
}

// The state with other notes.
pub fn with_notes(s: State, seen: Events, again: Events, request: bool) -> State
    ensures { result ≡ notes_with s seen again request }
{
    State {
        notes: Notes {
            seen,
            again,
            request,
        },
        ..s
    }
}

// The state after a status byte was sent.
#[tactic(auto, unfolding(crate::specs::Conditions::after_status))]
pub fn status_sent(s: State) -> State
    ensures { result ≡ after_status s }
{
    with_notes(s, s.notes.seen, Events::default(), false)
}

// The state after the status byte d came back unchanged.
#[tactic(auto, unfolding(crate::specs::Conditions::after_status_back))]
pub fn status_back(s: State, d: u8) -> State
    ensures { result ≡ after_status_back s d }
{
    let left = status::acknowledged(s.notes.seen, s.notes.again, d);
    with_notes(s, left, s.notes.again, s.notes.request)
}

// The state after a break.
#[tactic(auto, unfolding(crate::specs::Conditions::break_state))]
pub fn broken(s: State) -> State
    ensures { result ≡ break_state s }
{
    let mut t = s;
    t.notes.seen.brk = true;
    t.notes.again.brk = true;
    t
}

// The state after a press of the MSRQ key.
#[tactic(auto, unfolding(crate::specs::Conditions::key_state))]
pub fn pressed(s: State) -> State
    ensures { result ≡ key_state s }
{
    let mut t = s;
    t.notes.seen.key = true;
    t.notes.again.key = true;
    t
}
