//! What is read of a stream into a lent buffer.
#![tactic(auto)]

ghost use Rattle.std.specs.Prelude.{◌<◌, ◌≤◌, length, take, IfOk};
ghost use Rattle.std.specs.Io.KnownBytes.{Consumes, IsAtEnd};

use std::io;
use std::io::Read;

// Fills the buffer from a stream, up to the buffer's end or the stream's, and says how many bytes were read: those stand first in the
// buffer and are gone from the stream, and where there are fewer than there is room the stream is at its end.
// Kept: it gives a count, so that the buffer stays the caller's.
pub fn read_full<R: Read>(stream: &mut R, buffer: &mut [u8]) -> io::Result<usize>
    ensures bound { IfOk result (λ n. n ≤ length buffer.new) }
    ensures bytes { IfOk result (λ n. Consumes (R.remaining stream.old) (R.remaining stream.new) (take n buffer.new)) }
    ensures whole { IfOk result (λ n. n < length buffer.new → IsAtEnd (R.remaining stream.new)) }
{
    // Kept: std's `read_exact` fails at an early end and does not say what it read, and `read_to_end` takes memory that grows.
    let mut at = 0;
    while at < buffer.len() {
        let n = stream.read(&mut buffer[at..])?;
        if n == 0 {
            return Ok(at);
        }
        at += n;
    }
    Ok(at)
}
