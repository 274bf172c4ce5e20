//! What the C functions of every product share.
#![tactic(auto)]

ghost use Rattle.std.specs.Prelude.{◌≡◌, ◌<◌};
ghost use Rattle.boundary.specs.CCalls.{place_word};

// The number of a part that starts here and is this long.
pub fn place_word(start: usize, len: usize) -> u64
    requires { (start < 4294967296) × (len < 4294967296) }
    ensures { result ≡ place_word start len }
{
    (start as u64) << 32 | len as u64
}
