// The input: numbers of two bytes, high byte first, and the three sections.
ghost use Rattle.std.specs.Prelude.{◌≡◌, ◌+◌, ◌≤◌, ◌<◌, ◌^◌, length, IfSome};
ghost use Rattle.transcript.specs.Input.{high, count_at, sections_of, Whole};

use crate::Sections;

// The number in two bytes of the input, high byte first.
fn high_at(x: &[u8], i: usize) -> u16
    requires { i + 2 ≤ length x.now }
    ensures { result ≡ high x.now i }
{
    u16::from_be_bytes([x[i], x[i + 1]])
}

// The count that stands at a place of the input; none where the input ends before it, or where it is above 64.
#[tactic(auto, unfolding(crate::specs::Input::count_at))]
fn count_at(x: &[u8], i: usize) -> Option<usize>
    requires { i + 2 < 2 ^ 64 }
    ensures exact { result ≡ count_at x.now i }
    ensures bound { IfSome result (λ n. n ≤ 64) }
{
    if x.len() < i + 2 {
        return None;
    }
    let n = usize::from(high_at(x, i));
    if n > 64 {
        return None;
    }
    Some(n)
}

// The sections of the input; none where it is malformed.
#[tactic(auto, unfolding(crate::specs::Input::sections_of, crate::specs::Input::second_of, crate::specs::Input::third_of, crate::specs::Input::end_of))]
pub fn sections_of(x: &[u8]) -> Option<Sections>
    ensures exact { result ≡ sections_of x.now }
    ensures whole { IfSome result (Whole x.now) }
{
    let regs = count_at(x, 0)?;
    let bytes = count_at(x, 2 + 2 * regs)?;
    let frames = count_at(x, 4 + 2 * regs + bytes)?;
    if x.len() != 6 + 2 * regs + bytes + 2 * frames {
        return None;
    }
    Some(Sections {
        regs,
        bytes,
        frames,
    })
}
