//! The bridge as C functions: a lent block that holds the state, a lent store of cells and one of bytes, and numbers. Each answers one number of
//! 64 bits.
#![tactic(auto)]

ghost use Rattle.std.specs.Prelude.{◌≡◌, length, OnOk, MatchResult};
ghost use Rattle.answers.specs.Answers.{said, refused, number_of};
ghost use Rattle.block.specs.Packed.{block_len, packed};
ghost use Rattle.bridge.specs.Calls.{create, show, receive, transmit, on, reset, write, line_byte, line_break, key};
ghost use Rattle.bridge.specs.Calls.{ask_line_byte, take_line_byte, loop_frame};
ghost use Rattle.answers.specs.Word.{word, word_with};
ghost use Rattle.raftershim.specs.CCalls.{lent, c_did, CPromised};

use answers::Refusal;
use state::Outcome;

// Writes the state over the block, and gives the number of the answer, which tells this room, 0 where none is told.
// The number is made first, by which the function takes less stack.
fn written(block: &mut [u8], o: Outcome, room: u16) -> u64
    requires { length block.old ≡ block_len }
    ensures { (result ≡ word_with (said o.answer) room) × (block.new ≡ packed o.state) }
{
    let number = answers::word_with::<Refusal>(Ok(o.answer), room);
    block::pack(block, o.state);
    number
}

// The same of a call that tells no room, unless it was refused: a refusal is its number alone.
// Kept beside its twin in cmailbox: the two pack states of two types.
fn finished(block: &mut [u8], o: Result<Outcome, Refusal>) -> u64
    requires { OnOk o (length block.old ≡ block_len) }
    ensures { MatchResult o
        (λ x. (result ≡ word_with (said x.answer) 0) × (block.new ≡ packed x.state))
        (λ r. (result ≡ word (refused (number_of r))) × (block.new ≡ block.old)) }
{
    match o {
        Ok(given) => written(block, given, 0),
        Err(r) => answers::word_of(Err(r)),
    }
}

// The length of the block that every other call takes.
#[unsafe(no_mangle)]
pub extern "C" fn raftershim_block_len() -> usize
    ensures { result ≡ block_len }
{
    block::block_len()
}

// Makes a state for these stores in the block.
#[unsafe(no_mangle)]
pub extern "C" fn raftershim_create(block: &mut [u8], rx: &[u16], tx: &[u8], margin: u32) -> u64
    ensures { CPromised (create margin)
        (lent block.old rx.now tx.now)
        (c_did result block.new rx.now tx.now) }
{
    if block.len() != block::LENGTH {
        return answers::word_of(Err(Refusal::Sizes));
    }
    let o = bridge::create(rx, tx, margin as usize);
    finished(block, o)
}

// Resets the state.
#[unsafe(no_mangle)]
pub extern "C" fn raftershim_reset(block: &mut [u8], rx: &[u16], tx: &[u8]) -> u64
    ensures { CPromised (on reset)
        (lent block.old rx.now tx.now)
        (c_did result block.new rx.now tx.now) }
{
    let s = block::meaning(block);
    let o = bridge::reset(s, rx, tx);
    finished(block, o)
}

// Writes a register.
#[unsafe(no_mangle)]
pub extern "C" fn raftershim_write_register(
    block: &mut [u8],
    rx: &[u16],
    tx: &[u8],
    number: u32,
    value: u32,
) -> u64
    ensures { CPromised (on (write number value))
        (lent block.old rx.now tx.now)
        (c_did result block.new rx.now tx.now) }
{
    let s = block::meaning(block);
    let o = bridge::write_register(s, rx, tx, number, value);
    finished(block, o)
}

// Takes a byte that comes in from the line, and tells the room of the receive store.
#[unsafe(no_mangle)]
pub extern "C" fn raftershim_line_byte(block: &mut [u8], rx: &mut [u16], tx: &[u8], byte: u8) -> u64
    ensures { CPromised (on (line_byte byte))
        (lent block.old rx.old tx.now)
        (c_did result block.new rx.new tx.now) }
{
    let s = block::meaning(block);
    match bridge::line_byte(s, rx, tx, byte) {
        Ok(taken) => written(block, taken.outcome, taken.room),
        Err(refusal) => answers::word_of(Err(refusal)),
    }
}

// Takes a break on the line, and marks it behind the newest byte of the receive store.
#[unsafe(no_mangle)]
pub extern "C" fn raftershim_break(block: &mut [u8], rx: &mut [u16], tx: &[u8]) -> u64
    ensures { CPromised (on line_break)
        (lent block.old rx.old tx.now)
        (c_did result block.new rx.new tx.now) }
{
    let s = block::meaning(block);
    let o = bridge::take_break(s, rx, tx);
    finished(block, o)
}

// Takes a press of the MSRQ key.
#[unsafe(no_mangle)]
pub extern "C" fn raftershim_key(block: &mut [u8], rx: &[u16], tx: &[u8]) -> u64
    ensures { CPromised (on key)
        (lent block.old rx.now tx.now)
        (c_did result block.new rx.now tx.now) }
{
    let s = block::meaning(block);
    let o = bridge::take_key(s, rx, tx);
    finished(block, o)
}

// Says which line byte is next, or none; nothing is written.
#[unsafe(no_mangle)]
pub extern "C" fn raftershim_ask_line_byte(block: &[u8], rx: &[u16], tx: &[u8]) -> u64
    ensures { CPromised (on ask_line_byte)
        (lent block.now rx.now tx.now)
        (c_did result block.now rx.now tx.now) }
{
    let s = block::meaning(block);
    let a = bridge::ask_line_byte(s, rx, tx);
    answers::word_of(a)
}

// Takes the line byte that is named: if it is the next one it is gone, and any other is refused.
#[unsafe(no_mangle)]
pub extern "C" fn raftershim_take_line_byte(
    block: &mut [u8],
    rx: &[u16],
    tx: &[u8],
    byte: u8,
) -> u64
    ensures { CPromised (on (take_line_byte byte))
        (lent block.old rx.now tx.now)
        (c_did result block.new rx.now tx.now) }
{
    let s = block::meaning(block);
    let o = bridge::take_line_byte(s, rx, tx, byte);
    finished(block, o)
}

// Takes a loop frame, gives one, and tells the room of the transmit store.
#[unsafe(no_mangle)]
pub extern "C" fn raftershim_loop_frame(
    block: &mut [u8],
    rx: &[u16],
    tx: &mut [u8],
    frame: u32,
) -> u64
    ensures { CPromised (on (loop_frame frame))
        (lent block.old rx.now tx.old)
        (c_did result block.new rx.now tx.new) }
{
    let s = block::meaning(block);
    match bridge::loop_frame(s, rx, tx, frame) {
        Ok(given) => written(block, given.outcome, given.room),
        Err(refusal) => answers::word_of(Err(refusal)),
    }
}

// Shows the receive store: where the longest unbroken run of cells from the oldest one starts, and how long it is.
#[unsafe(no_mangle)]
pub extern "C" fn raftershim_show_receive(block: &[u8], rx: &[u16], tx: &[u8]) -> u64
    ensures { CPromised (show receive)
        (lent block.now rx.now tx.now)
        (c_did result block.now rx.now tx.now) }
{
    let s = block::meaning(block);
    let part = bridge::show_receive(s, rx, tx);
    let len = part.len();
    if len == 0 {
        return 0;
    }
    boundary::place_word(s.rx.oldest, len)
}

// Shows the transmit store: where the longest unbroken run of bytes from the oldest one starts, and how long it is.
#[unsafe(no_mangle)]
pub extern "C" fn raftershim_show_transmit(block: &[u8], rx: &[u16], tx: &[u8]) -> u64
    ensures { CPromised (show transmit)
        (lent block.now rx.now tx.now)
        (c_did result block.now rx.now tx.now) }
{
    let s = block::meaning(block);
    let part = bridge::show_transmit(s, rx, tx);
    let len = part.len();
    if len == 0 {
        return 0;
    }
    boundary::place_word(s.tx.oldest, len)
}
