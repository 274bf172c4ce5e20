//! The bridge: a software HP-IL/RS-232 interface. The state goes in by value, and comes back where the call is not refused; both stores are
//! lent at every call, the receive store as cells, each a byte and the mark of a break that follows it.
#![tactic(auto)]

ghost use Rattle.std.specs.Prelude.{◌≡◌, [], ◌∷◌};
ghost use Rattle.answers.specs.Answers.{said_by, fault_in};
ghost use Rattle.answers.specs.Refusals.{first_refusal};
ghost use Rattle.state.specs.Conditions.{settled_outcome};
ghost use Rattle.bridge.specs.Calls.{Promised, unmade, world, did, told, looked, handed, misfit, done_with, held_line};
ghost use Rattle.bridge.specs.Calls.{on, create, reset, write, line_byte, line_break, key, ask_line_byte, take_line_byte, loop_frame};
ghost use Rattle.bridge.specs.Calls.{show, receive, transmit};

use answers::{Answer, Refusal};
use state::{Outcome, State};

// What a call gives that tells a room: its outcome, and the room of a store after it.
// Kept: a type of its own beside Took and Offered, which tell a room as well, since each stands for another step and here it has 16 bits.
#[derive(Clone, Copy)]
pub struct Told {
    pub outcome: Outcome,
    pub room: u16,
}

// Refuses a state that does not fit the lent stores.
// Kept beside its twin in mailbox, as `done` is: a trait over both states is longer than the lines that they share.
fn fitting(s: State, rx: &[u16], tx: &[u8]) -> Result<(), Refusal>
    ensures { fault_in result ≡ first_refusal (misfit (world s rx.now tx.now) ∷ []) }
{
    if state::fitting::state_fits(s, rx.len(), tx.len()) {
        Ok(())
    } else {
        Err(Refusal::Misfit)
    }
}

// What a call on a state gives that answers no more than done.
fn done(before: State, after: State) -> Outcome
    ensures { result ≡ settled_outcome before (done_with after) }
{
    state::requests::settle(
        before,
        Outcome {
            state: after,
            answer: Answer::Done,
        },
    )
}

// Makes a state for these stores, or refuses; neither store is written.
pub fn create(rx: &[u16], tx: &[u8], margin: usize) -> Result<Outcome, Refusal>
    ensures { Promised (create margin) (unmade margin rx.now tx.now)
        (did (unmade margin rx.now tx.now).state result rx.now tx.now) }
{
    if !state::fitting::sizes_obeyed(margin, rx.len(), tx.len()) {
        return Err(Refusal::Sizes);
    }
    Ok(Outcome {
        state: state::fitting::start(margin, rx.len(), tx.len()),
        answer: Answer::Done,
    })
}

// Gives what create gives for the same sizes and margin; neither store is written.
pub fn reset(s: State, rx: &[u16], tx: &[u8]) -> Result<Outcome, Refusal>
    ensures { Promised (on reset) (world s rx.now tx.now) (did s result rx.now tx.now) }
{
    fitting(s, rx, tx)?;
    let t = state::fitting::start(s.margin, rx.len(), tx.len());
    Ok(done(s, t))
}

// Whether the register is of the reading rule, R10, C00 or C01, and the receive store holds a cell; what is written does not count.
fn held_line(s: State, number: u32) -> bool
    ensures { result ≡ held_line s number }
{
    (0 < s.rx.len) & ((number == 10) | (number == 16) | (number == 17))
}

// Writes the register of this number; those of the reading rule only while nothing is held from the line.
pub fn write_register(
    s: State,
    rx: &[u16],
    tx: &[u8],
    number: u32,
    value: u32,
) -> Result<Outcome, Refusal>
    ensures { Promised (on (write number value)) (world s rx.now tx.now) (did s result rx.now tx.now) }
{
    fitting(s, rx, tx)?;
    registers::refused(s.regs, number, value)?;
    if held_line(s, number) {
        return Err(Refusal::HeldLine);
    }
    let g = registers::written(s.regs, number, value);
    let t = line::after_write(s, number, g);
    Ok(done(s, t))
}

// Takes a byte from the line, and tells the room of the receive store.
pub fn line_byte(s: State, rx: &mut [u16], tx: &[u8], b: u8) -> Result<Told, Refusal>
    ensures { Promised (on (line_byte b)) (world s rx.old tx.now) (told s result rx.new tx.now) }
{
    fitting(s, rx, tx)?;
    let t = line::taken(s, rx, b);
    // Kept: a store has at most 32,768 places, so the cast loses no bit, here and below.
    let left = t.room as u16;
    Ok(Told {
        outcome: done(s, t.state),
        room: left,
    })
}

// Takes a break on the line, and marks it behind the newest byte of the receive store.
pub fn take_break(s: State, rx: &mut [u16], tx: &[u8]) -> Result<Outcome, Refusal>
    ensures { Promised (on line_break) (world s rx.old tx.now) (did s result rx.new tx.now) }
{
    fitting(s, rx, tx)?;
    line::mark_break(s, rx);
    let t = state::requests::broken(s);
    Ok(done(s, t))
}

// Takes a press of the MSRQ key.
pub fn take_key(s: State, rx: &[u16], tx: &[u8]) -> Result<Outcome, Refusal>
    ensures { Promised (on key) (world s rx.now tx.now) (did s result rx.now tx.now) }
{
    fitting(s, rx, tx)?;
    let t = state::requests::pressed(s);
    Ok(done(s, t))
}

// Says which line byte is next, or none; nothing changes.
// Kept: an Answer and no Option, since every call of the bridge promises an answer, and C is told its number.
pub fn ask_line_byte(s: State, rx: &[u16], tx: &[u8]) -> Result<Answer, Refusal>
    ensures { Promised (on ask_line_byte) (world s rx.now tx.now)
        (looked (said_by result) (world s rx.now tx.now)) }
{
    fitting(s, rx, tx)?;
    let o = line::next_out(s, tx);
    Ok(line::out_answer(o))
}

// Takes the line byte that is named: if it is the next one it is gone, and any other is refused.
pub fn take_line_byte(s: State, rx: &[u16], tx: &[u8], b: u8) -> Result<Outcome, Refusal>
    ensures { Promised (on (take_line_byte b)) (world s rx.now tx.now) (did s result rx.now tx.now) }
{
    fitting(s, rx, tx)?;
    let o = line::next_out(s, tx);
    if !line::is_next(o, b) {
        return Err(Refusal::NotNext);
    }
    let t = line::gone(s, tx, o);
    Ok(done(s, t))
}

// Takes a frame from the loop, gives exactly one, and tells the room of the transmit store, whatever the frame is.
pub fn loop_frame(s: State, rx: &[u16], tx: &mut [u8], frame: u32) -> Result<Told, Refusal>
    ensures { Promised (on (loop_frame frame)) (world s rx.now tx.old) (told s result rx.now tx.new) }
{
    fitting(s, rx, tx)?;
    if frame > 2047 {
        return Err(Refusal::LargeFrame);
    }
    let f = frame as u16;
    if loopside::busy(s, f) {
        return Err(Refusal::Busy);
    }
    let o = loopside::frame_taken(s, rx, tx, f);
    let left = store::room(o.state.tx) as u16;
    Ok(Told {
        outcome: o,
        room: left,
    })
}

// Shows the longest unbroken run of cells from the oldest one in the receive store.
// Kept beside its twin below: the two stores hold items of two types, and what both calls share is in `store::show`.
pub fn show_receive<'a>(s: State, rx: &'a [u16], tx: &[u8]) -> &'a [u16]
    ensures { Promised (show receive) (world s rx.now tx.now) (handed result.now (world s rx.now tx.now)) }
{
    if !state::fitting::state_fits(s, rx.len(), tx.len()) {
        return &rx[0..0];
    }
    store::show(rx, s.rx)
}

// Shows the longest unbroken run of bytes from the oldest one in the transmit store.
pub fn show_transmit<'a>(s: State, rx: &[u16], tx: &'a [u8]) -> &'a [u8]
    ensures { Promised (show transmit) (world s rx.now tx.now) (handed result.now (world s rx.now tx.now)) }
{
    if !state::fitting::state_fits(s, rx.len(), tx.len()) {
        return &tx[0..0];
    }
    store::show(tx, s.tx)
}
