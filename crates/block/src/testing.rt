// Whether the bytes of a block are ones that a state is packed as.
ghost use Rattle.std.specs.Prelude.{◌≡◌, length};
ghost use Rattle.block.specs.Packed.{block_len, layout};

use crate::VERSION;

// Whether the first byte of a block is the version, and every flag of it 1 or 0.
// Kept beside the twin in mailblock: its numbers are the places of that block.
pub fn right(b: &[u8]) -> bool
    requires { length b.now ≡ block_len }
    ensures { result ≡ layout.right b.now 0 }
{
    let version = b[0] == VERSION;
    let listener = (b[29] <= 1) & version;
    let finishing = (b[32] <= 1) & listener;
    let line = codec::three_right(b, 44, finishing);
    let seen = codec::three_right(b, 47, line);
    let again = codec::three_right(b, 50, seen);
    codec::three_right(b, 53, again)
}
