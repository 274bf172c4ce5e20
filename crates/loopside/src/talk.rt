// Sending on the loop: from the receive store, the status byte, and how sending ends.
ghost use Rattle.std.specs.Prelude.{◌≡◌};
ghost use Rattle.state.specs.Sizes.{RxFits};
ghost use Rattle.loopside.specs.Sends.{ended, rule_of, send_state, send_from, send_status};

use answers::Answer;
use reading::Rule;
use registers::Registers;
use state::{Counts, Outcome, State};

// The ready frame 5,d ends our sending.
// Kept beside its twin in mailloop: a trait over both states is longer than the lines that they share. 64 and 65 are the paper's frames
// that end sending, 65 where a frame came back damaged.
#[tactic(auto, unfolding(crate::specs::Sends::ended))]
pub fn ended(s: State, d: u8) -> Outcome
    ensures { result ≡ ended s d }
{
    Outcome {
        state: State {
            talker: talker::ended(s.talker),
            ..s
        },
        answer: Answer::Frame(frame::make(5, d)),
    }
}

// The rule of the moment.
#[tactic(auto, unfolding(crate::specs::Sends::rule_of))]
fn rule_of(g: Registers) -> Rule
    ensures { result ≡ rule_of g }
{
    Rule {
        on: registers::meanings::end_detected(g),
        c00: g.c00,
        c01: g.c01,
    }
}

// What is given is sent, or sending ends.
#[tactic(auto, unfolding(crate::specs::Sends::send_state))]
fn send_state(before: State, after: State, given: Option<u16>) -> Outcome
    ensures { result ≡ send_state before after given }
{
    match given {
        None => ended(after, 64),
        Some(f) => Outcome {
            state: State {
                talker: talker::talking(after.talker, role::SENDING_DATA, f),
                counts: Counts {
                    sent: std::num::wrapping_add_u32(after.counts.sent, 1),
                    ..after.counts
                },
                ..after
            },
            answer: Answer::Frame(state::requests::serviced(before, f)),
        },
    }
}

// A send from the receive store.
#[tactic(auto, unfolding(crate::specs::Sends::send_from, crate::specs::Sends::removed_state))]
pub fn send_from(s: State, rx: &[u16]) -> Outcome
    requires { RxFits s rx.now }
    ensures { result ≡ send_from s rx.now }
{
    let o = sending::send_one(rule_of(s.regs), rx, s.rx);
    send_state(s, line::resume(State { rx: o.ring, ..s }), o.given)
}

// The status byte is sent.
#[tactic(auto, unfolding(crate::specs::Sends::send_status))]
pub fn send_status(s: State) -> Outcome
    ensures { result ≡ send_status s }
{
    let f = frame::make(0, state::requests::status_of(s));
    Outcome {
        state: State {
            talker: talker::talking(s.talker, role::SENDING_STATUS, f),
            ..state::requests::status_sent(s)
        },
        answer: Answer::Frame(state::requests::serviced(s, f)),
    }
}
