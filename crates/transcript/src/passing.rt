// The passing of registers, line bytes and frames to the bridge, each from its section of the input, and the asking for and taking of line bytes.
// The room that a call tells is not printed.
ghost use Rattle.std.specs.Prelude.{◌≡◌, ◌+◌, ◌*◌, ◌/◌, ◌≤◌, ◌++◌, length, false, IfSome, IfNone};
ghost use Rattle.bridge.specs.Calls.{on, line_byte, loop_frame, world, step, ask_answer};
ghost use Rattle.answers.specs.Answers.{byte, is_byte};
ghost use Rattle.transcript.specs.Text.{answer_text};
ghost use Rattle.transcript.specs.Transcript.{Sets, set_registers, line_bytes_in, frames_text, frames_world, line_out, asks};

use crate::text;
use crate::text::Page;
use answers::{Answer, Refusal};
use arrayvec::ArrayVec;
use state::State;

// The line bytes of a full store, our own go or stop, and the none.
pub const ASKS: usize = 66;

// Writes the register of each pair, its number and its value, until one is refused.
pub fn set_registers(s: State, rx: &[u16], tx: &[u8], pairs: &[u8]) -> Result<State, Refusal>
    ensures { Sets result (set_registers (length pairs.now / 2) pairs.now 0 (world s rx.now tx.now)) }
{
    let mut t = s;
    for &[number, value] in pairs.as_chunks::<2>().0 {
        t = bridge::write_register(t, rx, tx, u32::from(number), u32::from(value))?.state;
    }
    Ok(t)
}

// The state after a line byte comes in: a refusal leaves it as it was.
fn one_byte_in(s: State, rx: &mut [u16], tx: &[u8], b: u8) -> State
    ensures { world result rx.new tx.now ≡ (step (on (line_byte b)) (world s rx.old tx.now)).world }
{
    match bridge::line_byte(s, rx, tx, b) {
        Ok(told) => told.outcome.state,
        Err(_) => s,
    }
}

// Takes the line bytes in.
pub fn line_bytes_in(s: State, rx: &mut [u16], tx: &[u8], bytes: &[u8]) -> State
    ensures { world result rx.new tx.now ≡ line_bytes_in (length bytes.now) bytes.now 0 (world s rx.old tx.now) }
{
    let mut t = s;
    for &b in bytes {
        t = one_byte_in(t, rx, tx, b);
    }
    t
}

// Offers a frame, writes the line of its answer or refusal, and gives the state after it.
#[tactic(auto, unfolding(crate::specs::Text::answer_text))]
fn offer(s: State, rx: &[u16], tx: &mut [u8], frame: u32, page: &mut Page) -> State
    requires { length page.old.bytes + 12 ≤ 1200 }
    ensures world { world result rx.now tx.new ≡ (step (on (loop_frame frame)) (world s rx.now tx.old)).world }
    ensures text { page.new.bytes ≡ page.old.bytes ++ answer_text (step (on (loop_frame frame)) (world s rx.now tx.old)).said }
    ensures short { length page.new.bytes ≤ length page.old.bytes + 12 }
{
    match bridge::loop_frame(s, rx, tx, frame) {
        Ok(told) => {
            text::put_answer(page, told.outcome.answer);
            told.outcome.state
        }
        Err(refusal) => {
            text::put_refused(page, refusal);
            s
        }
    }
}

// Offers the frames, of two bytes each, and writes the line of each answer.
pub fn offer_frames(s: State, rx: &[u16], tx: &mut [u8], frames: &[u8], page: &mut Page) -> State
    requires { length page.old.bytes + 6 * length frames.now ≤ 1200 }
    ensures world { world result rx.now tx.new ≡ frames_world (length frames.now / 2) frames.now 0 (world s rx.now tx.old) }
    ensures text { page.new.bytes ≡ page.old.bytes ++ frames_text (length frames.now / 2) frames.now 0 (world s rx.now tx.old) }
    ensures short { length page.new.bytes ≤ length page.old.bytes + 6 * length frames.now }
{
    let mut t = s;
    for &frame in frames.as_chunks::<2>().0 {
        t = offer(t, rx, tx, u32::from(u16::from_be_bytes(frame)), page);
    }
    t
}

// The line byte that is next, where there is one.
#[tactic(auto, unfolding(answers::specs::Answers::said, answers::specs::Answers::is_byte))]
fn next_byte(s: State, rx: &[u16], tx: &[u8]) -> Option<u8>
    ensures some { IfSome result (λ b. byte b ≡ ask_answer (world s rx.now tx.now)) }
    ensures none { IfNone result (is_byte (ask_answer (world s rx.now tx.now)) ≡ false) }
{
    match bridge::ask_line_byte(s, rx, tx) {
        Ok(Answer::Byte(b)) => Some(b),
        _ => None,
    }
}

// The line bytes that are asked for and taken until there is none.
pub fn line_out(s: State, rx: &[u16], tx: &[u8]) -> ArrayVec<u8, ASKS>
    ensures { result.items ≡ line_out asks (world s rx.now tx.now) }
{
    let mut line = ArrayVec::new();
    let mut t = s;
    for _ in 0..ASKS {
        let Some(b) = next_byte(t, rx, tx) else {
            return line;
        };
        t = bridge::take_line_byte(t, rx, tx, b).unwrap().state;
        line.push(b);
    }
    line
}
