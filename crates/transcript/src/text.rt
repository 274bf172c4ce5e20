// What is written: numbers, refusals, frames and line bytes.
ghost use Rattle.std.specs.Prelude.{◌≡◌, ◌+◌, ◌*◌, ◌≤◌, ◌<◌, ◌++◌, length};
ghost use Rattle.frame.specs.Frame.{control_of, data_of};
ghost use Rattle.answers.specs.Answers.{said, number_of};
ghost use Rattle.transcript.specs.Text.{decimal, refused_text, frame_text, answer_text, bytes_text};

use answers::{Answer, Refusal};
use arrayvec::ArrayString;
use itoa::Buffer;

// What a run prints.
pub type Page = ArrayString<1200>;

// Writes a number below 1,000 in decimal.
// Kept: the room that each write needs is asked for, here and below, since a full page would cut the text off.
#[tactic(auto, using(crate::proofs::Printing::short_number, crate::proofs::Printing::three_digits))]
pub fn put_number(page: &mut Page, n: u16)
    requires { (n < 1000) × (length page.old.bytes + 3 ≤ 1200) }
    ensures text { page.new.bytes ≡ page.old.bytes ++ decimal n }
    ensures short { length page.new.bytes ≤ length page.old.bytes + 3 }
{
    let mut digits = Buffer::new();
    page.push_str(digits.format(n));
}

// Writes a refusal.
#[tactic(auto, unfolding(crate::specs::Text::refused_text))]
pub fn put_refused(page: &mut Page, r: Refusal)
    requires { length page.old.bytes + 12 ≤ 1200 }
    ensures text { page.new.bytes ≡ page.old.bytes ++ refused_text (number_of r) }
    ensures short { length page.new.bytes ≤ length page.old.bytes + 12 }
{
    page.push_str("refused ");
    put_number(page, u16::from(u8::from(r)));
    page.push_str("\n");
}

// Writes a frame.
#[tactic(auto, unfolding(crate::specs::Text::frame_text))]
fn put_frame(page: &mut Page, f: u16)
    requires { length page.old.bytes + 12 ≤ 1200 }
    ensures text { page.new.bytes ≡ page.old.bytes ++ frame_text (control_of f) (data_of f) }
    ensures short { length page.new.bytes ≤ length page.old.bytes + 12 }
{
    put_number(page, u16::from(frame::control(f)));
    page.push_str(",");
    put_number(page, u16::from(frame::data_byte(f)));
    page.push_str("\n");
}

// Writes line bytes, each after a space.
#[tactic(auto, using(crate::proofs::Printing::bytes_step, crate::proofs::Printing::bytes_none), unfolding(crate::specs::Text::bytes_text))]
pub fn put_bytes(page: &mut Page, bytes: &[u8])
    requires { length page.old.bytes + 4 * length bytes.now ≤ 1200 }
    ensures text { page.new.bytes ≡ page.old.bytes ++ bytes_text bytes.now }
    ensures short { length page.new.bytes ≤ length page.old.bytes + 4 * length bytes.now }
{
    for &b in bytes {
        page.push_str(" ");
        put_number(page, u16::from(b));
    }
}

// Writes the line of the answer to a frame.
#[tactic(auto, unfolding(crate::specs::Text::answer_text, answers::specs::Answers::said))]
pub fn put_answer(page: &mut Page, a: Answer)
    requires { length page.old.bytes + 12 ≤ 1200 }
    ensures text { page.new.bytes ≡ page.old.bytes ++ answer_text (said a) }
    ensures short { length page.new.bytes ≤ length page.old.bytes + 12 }
{
    match a {
        Answer::Frame(f) => put_frame(page, f),
        Answer::Done | Answer::Nothing | Answer::Byte(_) | Answer::Cell(_) | Answer::Lines(_) => {}
    }
}
