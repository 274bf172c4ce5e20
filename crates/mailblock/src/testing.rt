// Whether the bytes of a block are ones that a state is packed as.
ghost use Rattle.std.specs.Prelude.{◌≡◌, length};
ghost use Rattle.mailblock.specs.Packed.{block_len, layout};

use crate::VERSION;

// Whether the first byte of a block is the version, and every flag of it 1 or 0.
// Kept beside the twin in block: its numbers are the places of that block.
pub fn right(b: &[u8]) -> bool
    requires { length b.now ≡ block_len }
    ensures { result ≡ layout.right b.now 0 }
{
    let version = b[0] == VERSION;
    let listener = (b[19] <= 1) & version;
    let finishing = (b[20] <= 1) & listener;
    let first = codec::three_right(b, 26, finishing);
    let second = codec::three_right(b, 29, first);
    let third = codec::three_right(b, 32, second);
    let fourth = codec::three_right(b, 35, third);
    codec::three_right(b, 38, fourth)
}
