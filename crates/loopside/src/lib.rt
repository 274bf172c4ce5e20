//! Frames taken from the loop, and what we send on it.
#![tactic(auto)]

ghost use Rattle.std.specs.Prelude.{◌≡◌, length};
ghost use Rattle.store.specs.Ring.{Within};
ghost use Rattle.state.specs.Sizes.{RxFits, TxFits};
ghost use Rattle.loopside.specs.LoopToLine.{adds, busy, Added};
ghost use Rattle.loopside.specs.Frames.{cleared, obeyed, command_settled, ready, returned, Passed, Framed};

use answers::Answer;
use registers::Registers;
use role::{Order, Ready};
use state::{Line, Notes, Outcome, State};
use talker::Return;

pub mod talk;

// How many bytes a data frame adds to the transmit store.
#[tactic(auto, unfolding(crate::specs::LoopToLine::adds))]
fn added(g: Registers, f: u16) -> usize
    ensures { result ≡ length (adds g f) }
{
    if frame::is_end(f) & registers::meanings::end_inserted(g) {
        3
    } else {
        1
    }
}

// Whether we are listener, the frame is data, and the transmit store lacks room for what it adds.
#[tactic(auto, unfolding(crate::specs::LoopToLine::busy))]
pub fn busy(s: State, f: u16) -> bool
    requires { Within s.tx }
    ensures { result ≡ busy s f }
{
    (s.talker.role.listener & frame::is_data(f)) & (store::room(s.tx) < added(s.regs, f))
}

// A listener stores the byte and, for an end byte, what ends a line.
// Kept: a state and the store that is lent with it stay two arguments, since each call of the bridge lends one store to be read and one to be written,
// in turn, so that no one type holds them.
fn leave(s: State, tx: &mut [u8], f: u16) -> State
    requires { TxFits s tx.old }
    ensures { Added s tx.old f tx.new result }
{
    let one = store::put(tx, s.tx, frame::data_byte(f))
        .after
        .unwrap_or(s.tx);
    if frame::is_end(f) & registers::meanings::end_inserted(s.regs) {
        let two = store::put(tx, one, s.regs.c02).after.unwrap_or(one);
        let three = store::put(tx, two, s.regs.c03).after.unwrap_or(two);
        return State { tx: three, ..s };
    }
    State { tx: one, ..s }
}

// The state after a device clear.
#[tactic(auto, unfolding(crate::specs::Frames::cleared))]
fn clear(s: State) -> State
    ensures { result ≡ cleared s }
{
    State {
        rx: store::emptied(s.rx.cap),
        tx: store::emptied(s.tx.cap),
        line: Line {
            holding: false,
            forbidden: false,
            ..s.line
        },
        notes: Notes::default(),
        ..s
    }
}

// The talker and the remote flags after an order.
#[tactic(auto, unfolding(crate::specs::Frames::obeyed))]
fn obey(s: State, o: Order) -> State
    ensures { result ≡ obeyed s o }
{
    State {
        talker: talker::obeyed(s.talker, o),
        remote: role::remote::obeyed(s.remote, o),
        ..s
    }
}

// A command goes on unchanged; a device clear leaves no request, and any other command may begin one.
#[tactic(auto, unfolding(crate::specs::Frames::command_settled, crate::specs::Frames::command, crate::specs::Frames::command_state))]
fn command(s: State, f: u16) -> Outcome
    ensures { result ≡ command_settled s f }
{
    let o = role::order_of(31, s.talker.role, frame::data_byte(f));
    let t = obey(s, o);
    if role::is_clear(o) {
        return Outcome {
            state: clear(t),
            answer: Answer::Frame(f),
        };
    }
    state::requests::settle(
        s,
        Outcome {
            state: t,
            answer: Answer::Frame(f),
        },
    )
}

// A ready frame.
#[tactic(auto, using(crate::proofs::Parts::address_next), unfolding(crate::specs::Frames::ready, crate::specs::Frames::readied))]
fn readied(s: State, rx: &[u16], f: u16) -> Outcome
    requires { RxFits s rx.now }
    ensures { result ≡ ready s rx.now f }
{
    let d = frame::data_byte(f);
    match role::ready_of(s.talker.role, d) {
        Ready::Address => Outcome {
            state: State {
                talker: talker::assigned(s.talker, d),
                ..s
            },
            answer: Answer::Frame(frame::make(5, d + 1)),
        },
        Ready::Data => talk::send_from(s, rx),
        Ready::Status => talk::send_status(s),
        Ready::Finish => Outcome {
            state: State {
                talker: talker::finishing(s.talker),
                ..s
            },
            answer: Answer::Frame(f),
        },
        Ready::Pass => Outcome {
            state: s,
            answer: Answer::Frame(f),
        },
    }
}

// The return of the frame under way.
#[tactic(auto, unfolding(crate::specs::Frames::returned, crate::specs::Frames::judged))]
fn back(s: State, rx: &[u16], f: u16) -> Outcome
    requires { RxFits s rx.now }
    ensures { result ≡ returned s rx.now f }
{
    match talker::return_of(s.talker, f) {
        Return::Damaged => talk::ended(s, 65),
        Return::StatusBack => {
            let told = state::requests::status_back(s, frame::data_byte(s.talker.under.frame));
            talk::ended(told, 64)
        }
        Return::Finished => talk::ended(s, 64),
        Return::Next => talk::send_from(s, rx),
    }
}

// A data frame that is no return passes, with the service bit if a request shows; a listener stores it.
#[tactic(auto, unfolding(crate::specs::Frames::data_passed))]
fn pass_data(s: State, tx: &mut [u8], f: u16) -> Outcome
    requires { TxFits s tx.old }
    ensures { Passed s tx.old f tx.new result }
{
    let state = if s.talker.role.listener {
        leave(s, tx, f)
    } else {
        s
    };
    Outcome {
        state,
        answer: Answer::Frame(state::requests::serviced(s, f)),
    }
}

// A frame that is not refused.
// Kept: the control bits are numbers, as the paper has them. What is done is written out beside the mailbox's, whose steps write another
// state; and each kind settles by itself, since one settle behind the choice took more instructions.
pub fn frame_taken(s: State, rx: &[u16], tx: &mut [u8], f: u16) -> Outcome
    requires rx_fits { RxFits s rx.now }
    requires tx_fits { TxFits s tx.old }
    ensures { Framed s rx.now tx.old f tx.new result }
{
    if frame::is_data(f) {
        if s.talker.role.phase >= role::SENDING_DATA {
            return state::requests::settle(s, back(s, rx, f));
        }
        return state::requests::settle(s, pass_data(s, tx, f));
    }
    let control = frame::control(f);
    if control == 4 {
        return command(s, f);
    }
    if control == 5 {
        return state::requests::settle(s, readied(s, rx, f));
    }
    state::requests::settle(
        s,
        Outcome {
            state: s,
            answer: Answer::Frame(state::requests::serviced(s, f)),
        },
    )
}
