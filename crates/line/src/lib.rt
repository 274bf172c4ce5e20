//! The line side: bytes and breaks in, holding off, and bytes out.
#![tactic(auto)]

ghost use Rattle.std.specs.Prelude.{◌≡◌, ◌≤◌};
ghost use Rattle.store.specs.Ring.{Within, room};
ghost use Rattle.state.specs.Sizes.{RxFits, TxFits};
ghost use Rattle.line.specs.HoldingOff.{is_go_or_stop, flowed, stored_with, lost_state, Taken, resumed, after_write, next_out, is_next, gone, out_answer};
ghost use Rattle.line.specs.Breaks.{Marked};

use answers::Answer;
use registers::Registers;
use state::{Line, Next, State};
use store::Ring;

// The state after a line byte, and the room that is left in the receive store.
#[derive(Clone, Copy)]
pub struct Took {
    pub state: State,
    pub room: usize,
}

// Whether a line byte is go or stop with the receiver protocol on.
#[tactic(auto, unfolding(crate::specs::HoldingOff::is_go_or_stop))]
fn is_go_or_stop(g: Registers, b: u8) -> bool
    ensures { result ≡ is_go_or_stop g b }
{
    registers::meanings::protocol_on(g) & ((b == g.c04) | (b == g.c05))
}

// Go permits our sending and stop forbids it.
// Kept: the state is set in place, here, in `stored` and in `resume`: a struct update reads and writes each field by itself, by which a line byte
// takes longer and a loop frame more stack.
#[tactic(auto, unfolding(crate::specs::HoldingOff::flowed))]
fn permitted(s: State, b: u8) -> State
    ensures { result ≡ flowed s b }
{
    let mut t = s;
    t.line.forbidden = b == s.regs.c05;
    t
}

// The state after a byte stored, with the ring and the room that it left.
#[tactic(auto, unfolding(crate::specs::HoldingOff::stored_with))]
fn stored(s: State, ring: Ring, left: usize) -> State
    requires { left ≡ room ring }
    ensures { result ≡ stored_with s ring }
{
    let mut t = s;
    t.rx = ring;
    t.counts.stored = std::num::wrapping_add_u32(s.counts.stored, 1);
    t.line.holding = s.line.holding
        | (registers::meanings::protocol_on(s.regs) & (left <= s.margin));
    t
}

// The state after a byte lost.
// Kept: the notes are set in place, as those of a break and of the key are, since a struct update would write out each part on three levels.
#[tactic(auto, unfolding(crate::specs::HoldingOff::lost_state))]
fn lost(s: State) -> State
    ensures { result ≡ lost_state s }
{
    let mut t = s;
    t.notes.seen.overrun = true;
    t.notes.again.overrun = true;
    t.counts.lost = std::num::wrapping_add_u32(s.counts.lost, 1);
    t
}

// A byte that comes in from the line: go and stop are never stored, any other byte is stored or lost. The room told is what the store answered.
// Kept: a state and the store that is lent with it stay two arguments, since each call of the bridge lends one store to be read and one to be written,
// in turn, so that no one type holds them.
pub fn taken(s: State, rx: &mut [u16], b: u8) -> Took
    requires { RxFits s rx.old }
    ensures { Taken s rx.old b rx.new result }
{
    if is_go_or_stop(s.regs, b) {
        return Took {
            state: permitted(s, b),
            room: store::room(s.rx),
        };
    }
    let o = store::put(rx, s.rx, u16::from(b));
    let state = match o.after {
        Some(ring) => stored(s, ring, o.room),
        None => lost(s),
    };
    Took {
        state,
        room: o.room,
    }
}

// A break taken: the newest cell held is marked, and where nothing is held nothing is written.
#[tactic(auto, unfolding(crate::specs::Breaks::break_cells))]
pub fn mark_break(s: State, rx: &mut [u16])
    requires { RxFits s rx.old }
    ensures { Marked s rx.old rx.new }
{
    if 0 < s.rx.len {
        let newest = store::look(rx, s.rx, s.rx.len - 1);
        cells::replace_newest(rx, s.rx, reading::marked(newest));
    }
}

// A send that leaves twice the margin free or more ends holding off.
#[tactic(auto, unfolding(crate::specs::HoldingOff::resumed))]
pub fn resume(s: State) -> State
    requires within { Within s.rx }
    requires margin_bound { s.margin ≤ 1024 }
    ensures { result ≡ resumed s }
{
    let mut t = s;
    t.line.holding = s.line.holding & !(2 * s.margin <= store::room(s.rx));
    t
}

// The state after a register write; writing R11 sets holding off afresh and lifts the other end's stop.
#[tactic(auto, unfolding(crate::specs::HoldingOff::after_write, crate::specs::HoldingOff::set_afresh))]
pub fn after_write(s: State, n: u32, g: Registers) -> State
    requires { Within s.rx }
    ensures { result ≡ after_write s n g }
{
    if n == 11 {
        return State {
            regs: g,
            line: Line {
                holding: registers::meanings::protocol_on(g) & (store::room(s.rx) <= s.margin),
                forbidden: false,
                ..s.line
            },
            ..s
        };
    }
    State { regs: g, ..s }
}

// Which line byte is next, if any; nothing changes.
pub fn next_out(s: State, tx: &[u8]) -> Option<Next>
    requires { TxFits s tx.now }
    ensures { result ≡ next_out s tx.now }
{
    let holding = s.line.holding;
    let stopped = s.line.stopped;
    if (holding & !stopped) | (stopped & !holding) {
        if holding {
            return Some(Next::Own(s.regs.c05));
        } else {
            return Some(Next::Own(s.regs.c04));
        }
    }
    if s.line.forbidden | (s.tx.len == 0) {
        return None;
    }
    Some(Next::Held(store::look(tx, s.tx, 0)))
}

// The answer for that byte.
#[tactic(auto, unfolding(crate::specs::HoldingOff::out_answer))]
pub fn out_answer(o: Option<Next>) -> Answer
    ensures { result ≡ out_answer o }
{
    match o {
        Some(Next::Own(b)) => Answer::Byte(b),
        Some(Next::Held(b)) => Answer::Byte(b),
        None => Answer::Nothing,
    }
}

// Whether this byte is the next one.
#[tactic(auto, unfolding(crate::specs::HoldingOff::is_next))]
pub fn is_next(o: Option<Next>, b: u8) -> bool
    ensures { result ≡ is_next o b }
{
    match o {
        Some(Next::Own(x)) => x == b,
        Some(Next::Held(x)) => x == b,
        None => false,
    }
}

// The state when that byte is gone.
#[tactic(auto, unfolding(crate::specs::HoldingOff::gone), using(crate::proofs::Parts::gone_some, crate::proofs::Parts::gone_held))]
pub fn gone(s: State, tx: &[u8], o: Option<Next>) -> State
    requires tx_fits { TxFits s tx.now }
    requires o_value { o ≡ next_out s tx.now }
    ensures { result ≡ gone s o }
{
    let mut t = s;
    match o {
        Some(Next::Own(_)) => {
            t.line.stopped = s.line.holding;
        }
        Some(Next::Held(_)) => {
            let left = store::drop_oldest(s.tx, 1);
            t.tx = left;
        }
        None => {}
    }
    t
}
