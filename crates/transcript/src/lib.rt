//! The work of the program `onepass`, on slices: from its input to what it prints.
#![tactic(auto)]

ghost use Rattle.std.specs.Prelude.{◌≡◌, ◌+◌, ◌≤◌, ◌++◌, [], length};
ghost use Rattle.bridge.specs.Calls.{world};
ghost use Rattle.transcript.specs.Input.{Whole};
ghost use Rattle.transcript.specs.Transcript.{Sets, registers_set, store, line_text, rest_text, run_text, printed};

use answers::Refusal;
use state::State;

mod input;
mod passing;
mod text;

pub use text::Page;

// How many items each section of the input has.
#[derive(Clone, Copy)]
pub struct Sections {
    pub regs: usize,
    pub bytes: usize,
    pub frames: usize,
}

// Writes the line of the line bytes.
#[tactic(auto, unfolding(crate::specs::Transcript::line_text))]
fn put_last(s: State, rx: &[u16], tx: &[u8], page: &mut Page)
    requires { length page.old.bytes + 273 ≤ 1200 }
    ensures { page.new.bytes ≡ page.old.bytes ++ line_text (world s rx.now tx.now) }
{
    let line = passing::line_out(s, rx, tx);
    page.push_str("line ");
    text::put_number(page, line.len() as u16);
    text::put_bytes(page, line.as_slice());
    page.push_str("\n");
}

// Takes the line bytes in, offers the frames, and asks for line bytes and takes them.
#[tactic(auto, unfolding(crate::specs::Transcript::rest_text))]
fn put_rest(x: &[u8], p: Sections, s: State, rx: &mut [u16], tx: &mut [u8], page: &mut Page)
    requires whole { Whole x.now p }
    requires room { length page.old.bytes + 1100 ≤ 1200 }
    ensures { page.new.bytes ≡ page.old.bytes ++ rest_text x.now p (world s rx.old tx.old) }
{
    let bytes_at = 4 + 2 * p.regs;
    let frames_at = 6 + 2 * p.regs + p.bytes;
    let t = passing::line_bytes_in(s, rx, tx, &x[bytes_at..bytes_at + p.bytes]);
    let u = passing::offer_frames(t, rx, tx, &x[frames_at..frames_at + 2 * p.frames], page);
    put_last(u, rx, tx, page);
}

// The state that create gives with margin 8 and the registers of the input leave, or the refusal of one.
fn set_up(x: &[u8], p: Sections, rx: &[u16], tx: &[u8]) -> Result<State, Refusal>
    requires whole { Whole x.now p }
    requires stores { (length rx.now ≡ 64) × (length tx.now ≡ 64) }
    ensures { Sets result (registers_set x.now p rx.now tx.now) }
{
    let made = bridge::create(rx, tx, 8)?;
    passing::set_registers(made.state, rx, tx, &x[2..2 + 2 * p.regs])
}

// Sets the registers, and goes on where none is refused.
fn put_run(x: &[u8], p: Sections, page: &mut Page)
    requires whole { Whole x.now p }
    requires empty { page.old.bytes ≡ [] }
    ensures { page.new.bytes ≡ run_text x.now p store store }
{
    let mut rx = [0u16; 64];
    let mut tx = [0u8; 64];
    page.push_str("onepass 1\n");
    match set_up(x, p, &rx, &tx) {
        Ok(s) => put_rest(x, p, s, &mut rx, &mut tx, page),
        Err(refusal) => text::put_refused(page, refusal),
    }
}

// What the program prints for an input.
#[tactic(auto, unfolding(crate::specs::Transcript::printed))]
pub fn run(input: &[u8]) -> Page
    ensures { result.bytes ≡ printed input.now }
{
    let mut page = Page::new();
    let Some(p) = input::sections_of(input) else {
        text::put_refused(&mut page, Refusal::Malformed);
        return page;
    };
    put_run(input, p, &mut page);
    page
}
