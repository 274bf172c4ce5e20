//! Frames that a mailbox takes from the loop, and what it sends there.
#![tactic(auto)]

ghost use Rattle.std.specs.Prelude.{◌≡◌, ◌<◌};
ghost use Rattle.store.specs.Ring.{Within, Fit};
ghost use Rattle.talker.specs.Returning.{return_of};
ghost use Rattle.mailstate.specs.State.{no_hold};
ghost use Rattle.mailloop.specs.Messages.{busy, passed, response_after, command, released, identities, ready, identify, judged, Kept, Framed};

use answers::Answer;
use mailstate::{Hold, Outcome, State};
use polls::Response;
use role::Ready;
use talker::Return;

pub mod talk;

// Whether we are listener, the frame is data, and the way to the bus is full.
pub fn busy(s: State, f: u16) -> bool
    ensures { result ≡ busy s f }
{
    (s.talker.role.listener & frame::is_data(f)) & (s.tobus.ring.cap <= s.tobus.ring.len)
}

// Nothing is held back; not ready is said from now on, or not.
fn no_hold(enabled: bool) -> Hold
    ensures { result ≡ no_hold enabled }
{
    Hold {
        enabled,
        ..Hold::default()
    }
}

// How polls are answered after the command with the data byte d.
#[tactic(auto, unfolding(crate::specs::Messages::response_after))]
fn response_after(s: State, d: u8) -> Response
    ensures { result ≡ response_after s d }
{
    if ((d == 5) & s.talker.role.listener) | (d == 21) {
        return polls::none();
    }
    if (d / 16 == 8) & s.talker.role.listener {
        return polls::of_loop(d);
    }
    s.response
}

// A command goes on unchanged.
#[tactic(auto, unfolding(crate::specs::Messages::command, crate::specs::Messages::command_state))]
fn command(s: State, f: u16) -> Outcome
    ensures { result ≡ command s f }
{
    let d = frame::data_byte(f);
    let listens = s.talker.role.listener;
    let o = role::order_of(15, s.talker.role, d);
    let talker = talker::obeyed(s.talker, o);
    let hold = no_hold((d == 15) & listens);
    let response = response_after(s, d);
    let q = State {
        talker,
        hold,
        response,
        ..s
    };
    if role::is_clear(o) {
        let tobus = way::empty(s.tobus.ring.cap);
        return passed(State { tobus, ..q }, f);
    }
    passed(q, f)
}

// The frame f goes on, and the state is this one.
fn passed(s: State, f: u16) -> Outcome
    ensures { result ≡ passed s f }
{
    Outcome {
        state: s,
        answer: Answer::Frame(f),
    }
}

// Not ready for data has come round: the frame that was held back goes on.
#[tactic(auto, unfolding(crate::specs::Messages::released))]
fn released(s: State) -> Outcome
    ensures { result ≡ released s }
{
    let out = talk::serviced(s, s.hold.frame);
    let hold = no_hold(s.hold.enabled);
    passed(State { hold, ..s }, out)
}

// The two IDs are sent by a talker that has nothing under way; any other ready frame passes.
#[tactic(auto, unfolding(crate::specs::Messages::identities))]
fn identities(s: State, f: u16) -> Outcome
    ensures { result ≡ identities s f }
{
    let d = frame::data_byte(f);
    if (d == 98) & (s.talker.role.phase == role::ADDRESSED) {
        return talk::send_id(s, 0);
    }
    if (d == 99) & (s.talker.role.phase == role::ADDRESSED) {
        return talk::send_accessory(s);
    }
    passed(s, f)
}

// A ready frame.
#[tactic(auto, unfolding(crate::specs::Messages::ready, crate::specs::Messages::readied), using(crate::proofs::Addresses::address_next))]
fn readied(s: State, toloop: &[u16], f: u16) -> Outcome
    requires { Fit toloop.now s.toloop.ring }
    ensures { result ≡ ready s toloop.now f }
{
    let d = frame::data_byte(f);
    if (d == 66) & s.hold.held {
        return released(s);
    }
    let asked = role::ready_of(s.talker.role, d);
    match asked {
        Ready::Address => {
            let talker = talker::assigned(s.talker, d);
            passed(State { talker, ..s }, frame::make(5, d + 1))
        }
        Ready::Data => talk::send_waiting(s, toloop),
        Ready::Status => talk::send_status(s),
        Ready::Finish => {
            let talker = talker::finishing(s.talker);
            passed(State { talker, ..s }, f)
        }
        Ready::Pass => identities(s, f),
    }
}

// An identify frame is answered with the poll's bit and the service bit.
#[tactic(auto, unfolding(crate::specs::Messages::identify))]
fn identify(s: State, f: u16) -> Outcome
    requires { s.response.line < 8 }
    ensures { result ≡ identify s f }
{
    let d = polls::join(s.response, s.toloop.news.request, frame::data_byte(f));
    let out = talk::serviced(s, frame::make(frame::control(f), d));
    passed(s, out)
}

// The return of the frame under way.
// Kept: state and store are two arguments, here and below, since both stores are lent at every call.
#[tactic(auto, unfolding(crate::specs::Messages::judged))]
fn back(s: State, toloop: &[u16], f: u16) -> Outcome
    requires { Fit toloop.now s.toloop.ring }
    ensures { result ≡ judged s toloop.now (return_of s.talker f) }
{
    let found = talker::return_of(s.talker, f);
    match found {
        Return::Damaged => talk::ended(s, 65),
        Return::StatusBack => {
            let n = news::returned(s.toloop.news, frame::data_byte(s.talker.under.frame));
            let toloop = way::told(s.toloop, n);
            talk::ended(State { toloop, ..s }, 64)
        }
        Return::Finished => talk::ended(s, 64),
        Return::Next => talk::send_next(s, toloop),
    }
}

// A listener keeps the byte. The frame goes on, or is held back while not ready is said.
#[tactic(auto, unfolding(crate::specs::Messages::heard, way::specs::Way::left_in))]
fn keep(s: State, tobus: &mut [u16], f: u16) -> Outcome
    requires { Fit tobus.old s.tobus.ring }
    ensures { Kept s tobus.old f tobus.new result }
{
    let c = talk::cell_of(f);
    let w = way::leave(tobus, s.tobus, c);
    let out = talk::serviced(s, f);
    let q = State { tobus: w, ..s };
    let left = store::room(w.ring);
    if (s.hold.enabled & !s.hold.held) & (left == 1) {
        let hold = Hold {
            enabled: true,
            held: true,
            frame: f,
        };
        return passed(State { hold, ..q }, frame::make(5, 66));
    }
    passed(q, out)
}

// A frame that is not refused.
#[tactic(auto, unfolding(crate::specs::Messages::frame_taken, crate::specs::Messages::data_taken, crate::specs::Messages::frame_cells))]
pub fn frame_taken(s: State, tobus: &mut [u16], toloop: &[u16], f: u16) -> Outcome
    requires fit { Fit tobus.old s.tobus.ring }
    requires fit_2 { Fit toloop.now s.toloop.ring }
    requires line_bound { s.response.line < 8 }
    ensures { Framed s tobus.old toloop.now f tobus.new result }
{
    if frame::is_data(f) {
        if s.talker.role.phase >= role::SENDING_DATA {
            return back(s, toloop, f);
        }
        if s.talker.role.listener {
            return keep(s, tobus, f);
        }
        return passed(s, talk::serviced(s, f));
    }
    let control = frame::control(f);
    if control == 4 {
        return command(s, f);
    }
    if control == 5 {
        return readied(s, toloop, f);
    }
    identify(s, f)
}
