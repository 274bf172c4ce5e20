//! The packed block of a mailbox: every field of a state at a fixed place of a lent block of bytes, low byte first.
#![tactic(auto)]

ghost use Rattle.std.specs.Prelude.{◌≡◌, length};
ghost use Rattle.mailblock.specs.Packed.{block_len, packed};
ghost use Rattle.mailblock.specs.States.{no_state, meaning};

use mailstate::State;

mod packing;
mod reading;
mod testing;

// The length of a block.
pub const LENGTH: usize = 41;

// What the first byte of a block is.
pub const VERSION: u8 = 129;

// The length of a block, for callers that hold no constants of ours.
pub fn block_len() -> usize
    ensures { result ≡ block_len }
{
    LENGTH
}

// Writes the bytes of a state over a block.
// Kept beside its twin in block, as are the other parts here: no trait of ours can be of another crate's state, and closures
// for each part are no plainer. The tail is packed first, by which the call takes less stack.
pub fn pack(block: &mut [u8], s: State)
    requires { length block.old ≡ block_len }
    ensures { block.new ≡ packed s }
{
    let tail = packing::packed_tail(s);
    let head = packing::packed_head(s);
    codec::write_both(block, &head, &tail);
}

// What stands for the state of a block that is none.
fn no_state() -> State
    ensures { result ≡ no_state }
{
    mailstate::start(0, 0, 0)
}

// The state that a block means: a block that is no state means one that fits no stores.
// Kept: a slice and its length, and no array: a Result of a reference is laid out for 64 bits, and the module is compiled for chips of 32 too.
pub fn meaning(b: &[u8]) -> State
    ensures { result ≡ meaning b.now }
{
    if b.len() != LENGTH {
        return no_state();
    }
    if !testing::right(b) {
        return no_state();
    }
    reading::unpack(b)
}
