//! What every block of bytes is read and written by: numbers low byte first, rings, flags of 1 or 0, and two parts copied over a block.
#![tactic(auto)]

ghost use Rattle.std.specs.Prelude.{◌≡◌, ◌++◌, ◌+◌, ◌<◌, length};
ghost use Rattle.codec.specs.Codec.{two, four};
ghost use Rattle.codec.specs.Parts.{ring_at, ring_bytes, three_right};

use store::Ring;

// The size or place in two bytes of a block from i.
pub fn read(b: &[u8], i: usize) -> usize
    requires { i + 1 < length b.now }
    ensures { result ≡ two.get b.now i }
{
    usize::from(read16(b, i))
}

// The frame in two bytes of a block from i.
// Kept: one for each size, since `from_le_bytes` is each type's own and no trait's.
pub fn read16(b: &[u8], i: usize) -> u16
    requires { i + 1 < length b.now }
    ensures { result ≡ two.get b.now i }
{
    u16::from_le_bytes([b[i], b[i + 1]])
}

// The count in four bytes of a block from i.
pub fn read32(b: &[u8], i: usize) -> u32
    requires { i + 3 < length b.now }
    ensures { result ≡ four.get b.now i }
{
    u32::from_le_bytes([b[i], b[i + 1], b[i + 2], b[i + 3]])
}

// The ring in a block from i.
pub fn ring_at(b: &[u8], i: usize) -> Ring
    requires { i + 5 < length b.now }
    ensures { result ≡ ring_at b.now i }
{
    Ring {
        cap: read(b, i),
        oldest: read(b, i + 2),
        len: read(b, i + 4),
    }
}

// The bytes of a ring: the two low bytes of each of its numbers.
pub fn ring_bytes(r: Ring) -> [u8; 6]
    ensures { result ≡ ring_bytes r }
{
    let cap = r.cap.to_le_bytes();
    let oldest = r.oldest.to_le_bytes();
    let len = r.len.to_le_bytes();
    [cap[0], cap[1], oldest[0], oldest[1], len[0], len[1]]
}

// Whether three flags of a block from i are each 1 or 0, and what stands before them is right.
// Kept: no slice's iterator, which gives an Option of a reference: that is laid out for 64 bits, and the module is compiled for chips of 32 too.
pub fn three_right(b: &[u8], i: usize, before: bool) -> bool
    requires { i + 2 < length b.now }
    ensures { result ≡ three_right b.now i before }
{
    (b[i + 2] <= 1) & ((b[i + 1] <= 1) & ((b[i] <= 1) & before))
}

// Writes two parts over a block, one behind the other.
pub fn write_both(block: &mut [u8], head: &[u8], tail: &[u8])
    requires { length block.old ≡ length head.now + length tail.now }
    ensures { block.new ≡ head.now ++ tail.now }
{
    let n = head.len();
    block[..n].copy_from_slice(head);
    block[n..].copy_from_slice(tail);
}
