//! The mailbox as C functions: a lent block that holds the state, two lent stores of cells, and numbers. Each answers one number of 64 bits.
#![tactic(auto)]

ghost use Rattle.std.specs.Prelude.{◌≡◌, not, length, eqb, OnOk};
ghost use Rattle.boundary.specs.CCalls.{lent, c_did, place_of};
ghost use Rattle.answers.specs.Answers.{said};
ghost use Rattle.answers.specs.Word.{word};
ghost use Rattle.mailblock.specs.Packed.{block_len, packed};
ghost use Rattle.mailbox.specs.Calls.{create, show, on, reset, loop_frame, bus_command, bus_byte, bus_fetch, bus_clear, bus_lines};
ghost use Rattle.cmailbox.specs.Mailbox.{mailboxes, CPromised, Finished};

use answers::Refusal;
use mailstate::{Outcome, State};

// Writes the state over the block, and gives the answer's number, which is made first, by which the function takes less stack.
// Kept beside its twin in raftershim, as the next is: it packs another state, and tells no room.
fn written(block: &mut [u8], o: Outcome) -> u64
    requires { length block.old ≡ block_len }
    ensures { (result ≡ word (said o.answer)) × (block.new ≡ packed o.state) }
{
    let number = answers::word_of::<Refusal>(Ok(o.answer));
    mailblock::pack(block, o.state);
    number
}

// The same, unless the call was refused: a refusal is its number alone.
fn finished(block: &mut [u8], o: Result<Outcome, Refusal>) -> u64
    requires { OnOk o (length block.old ≡ block_len) }
    ensures { Finished block.old o result block.new }
{
    match o {
        Ok(done) => written(block, done),
        Err(r) => answers::word_of(Err(r)),
    }
}

// The length of the block that every other call takes.
#[unsafe(no_mangle)]
pub extern "C" fn raftershim_mailbox_block_len() -> usize
    ensures { result ≡ block_len }
{
    mailblock::block_len()
}

// Makes a state for these stores in the block, at this bus address.
#[unsafe(no_mangle)]
#[tactic(auto, using(crate::proofs::Finishing::made_met, crate::proofs::Finishing::unmade_met))]
pub extern "C" fn raftershim_mailbox_create(
    block: &mut [u8],
    tobus: &[u16],
    toloop: &[u16],
    address: u32,
) -> u64
    ensures { CPromised (create address)
        (lent block.old tobus.now toloop.now)
        (c_did result block.new tobus.now toloop.now) }
{
    if block.len() != mailblock::LENGTH {
        return answers::word_of(Err(Refusal::Sizes));
    }
    let o = mailbox::create(tobus, toloop, address);
    finished(block, o)
}

// Resets the state.
#[unsafe(no_mangle)]
#[tactic(auto, using(crate::proofs::Finishing::may_finish, crate::proofs::Finishing::finished_met))]
pub extern "C" fn raftershim_mailbox_reset(block: &mut [u8], tobus: &[u16], toloop: &[u16]) -> u64
    ensures { CPromised (on reset)
        (lent block.old tobus.now toloop.now)
        (c_did result block.new tobus.now toloop.now) }
{
    let s = mailblock::meaning(block);
    let o = mailbox::reset(s, tobus, toloop);
    finished(block, o)
}

// Takes a frame from the loop, and gives one.
// Kept: what the call gave is written from here and not by `finished`, as in raftershim, by which this deepest call takes less stack.
#[unsafe(no_mangle)]
pub extern "C" fn raftershim_mailbox_loop_frame(
    block: &mut [u8],
    tobus: &mut [u16],
    toloop: &[u16],
    frame: u32,
) -> u64
    ensures { CPromised (on (loop_frame frame))
        (lent block.old tobus.old toloop.now)
        (c_did result block.new tobus.new toloop.now) }
{
    let s = mailblock::meaning(block);
    match mailbox::loop_frame(s, tobus, toloop, frame) {
        Ok(given) => written(block, given),
        Err(refusal) => answers::word_of(Err(refusal)),
    }
}

// Takes a command from the bus.
#[unsafe(no_mangle)]
#[tactic(auto, using(crate::proofs::Finishing::may_finish, crate::proofs::Finishing::finished_met))]
pub extern "C" fn raftershim_mailbox_bus_command(
    block: &mut [u8],
    tobus: &[u16],
    toloop: &[u16],
    command: u32,
) -> u64
    ensures { CPromised (on (bus_command command))
        (lent block.old tobus.now toloop.now)
        (c_did result block.new tobus.now toloop.now) }
{
    let s = mailblock::meaning(block);
    let o = mailbox::bus_command(s, tobus, toloop, command);
    finished(block, o)
}

// Takes a data byte from the bus; its end is marked unless `end` is 0.
#[unsafe(no_mangle)]
#[tactic(auto, using(crate::proofs::Finishing::may_finish, crate::proofs::Finishing::finished_met))]
pub extern "C" fn raftershim_mailbox_bus_byte(
    block: &mut [u8],
    tobus: &[u16],
    toloop: &mut [u16],
    byte: u8,
    end: u32,
) -> u64
    ensures { CPromised (on (bus_byte byte (not (eqb end 0))))
        (lent block.old tobus.now toloop.old)
        (c_did result block.new tobus.now toloop.new) }
{
    let s = mailblock::meaning(block);
    let o = mailbox::bus_byte(s, tobus, toloop, byte, end != 0);
    finished(block, o)
}

// Gives the bus its next byte.
#[unsafe(no_mangle)]
#[tactic(auto, using(crate::proofs::Finishing::may_finish, crate::proofs::Finishing::finished_met))]
pub extern "C" fn raftershim_mailbox_bus_fetch(
    block: &mut [u8],
    tobus: &[u16],
    toloop: &[u16],
) -> u64
    ensures { CPromised (on bus_fetch)
        (lent block.old tobus.now toloop.now)
        (c_did result block.new tobus.now toloop.now) }
{
    let s = mailblock::meaning(block);
    let o = mailbox::bus_fetch(s, tobus, toloop);
    finished(block, o)
}

// Takes an interface clear of the bus.
#[unsafe(no_mangle)]
#[tactic(auto, using(crate::proofs::Finishing::may_finish, crate::proofs::Finishing::finished_met))]
pub extern "C" fn raftershim_mailbox_bus_clear(
    block: &mut [u8],
    tobus: &[u16],
    toloop: &[u16],
) -> u64
    ensures { CPromised (on bus_clear)
        (lent block.old tobus.now toloop.now)
        (c_did result block.new tobus.now toloop.now) }
{
    let s = mailblock::meaning(block);
    let o = mailbox::bus_clear(s, tobus, toloop);
    finished(block, o)
}

// Shows the bus lines; the block is not written.
#[unsafe(no_mangle)]
#[tactic(auto, using(crate::proofs::Lines::lines_met))]
pub extern "C" fn raftershim_mailbox_bus_lines(block: &[u8], tobus: &[u16], toloop: &[u16]) -> u64
    ensures { CPromised (on bus_lines)
        (lent block.now tobus.now toloop.now)
        (c_did result block.now tobus.now toloop.now) }
{
    let s = mailblock::meaning(block);
    match mailbox::bus_lines(s, tobus, toloop) {
        Ok(shown) => answers::word_of::<Refusal>(Ok(shown.answer)),
        Err(refusal) => answers::word_of(Err(refusal)),
    }
}

// Where the oldest cell of a side's store is.
// Kept: a side is C's number. Any other side shows nothing, so its start is never asked.
fn start_of(s: State, side: u32) -> usize
    ensures { result ≡ place_of mailboxes side s }
{
    if side == 0 {
        s.tobus.ring.oldest
    } else {
        s.toloop.ring.oldest
    }
}

// Shows a store: where the longest unbroken run of cells from the oldest one starts, and how long it is.
#[unsafe(no_mangle)]
pub extern "C" fn raftershim_mailbox_show<'a>(
    block: &[u8],
    tobus: &'a [u16],
    toloop: &'a [u16],
    side: u32,
) -> u64
    ensures { CPromised (show side)
        (lent block.now tobus.now toloop.now)
        (c_did result block.now tobus.now toloop.now) }
{
    let s = mailblock::meaning(block);
    let part = mailbox::show(s, tobus, toloop, side);
    let len = part.len();
    if len == 0 {
        return 0;
    }
    boundary::place_word(start_of(s, side), len)
}
