// What a mailbox sends on the loop: what waits for it, its status byte and its two IDs.
ghost use Rattle.std.specs.Prelude.{◌≡◌};
ghost use Rattle.store.specs.Ring.{Fit};
ghost use Rattle.mailloop.specs.Sends.{frame_of, serviced, ended, sends, send_waiting, id_byte, send_id, send_accessory, send_status, send_next};
ghost use Rattle.mailloop.specs.Messages.{cell_of};

use answers::Answer;
use mailstate::{Outcome, State};

// The device ID, which ends with a carriage return and a line feed.
const DEVICE_ID: [u8; 10] = *b"HP82169A\r\n";

// The cell of a data frame, its end marked.
pub fn cell_of(f: u16) -> u16
    ensures { result ≡ cell_of f }
{
    let d = u16::from(frame::data_byte(f));
    if frame::is_end(f) { d + 256 } else { d }
}

// The frame of a cell: an end byte where it is marked.
// Kept: here the mark is an end, and in crate reading it is a break.
fn frame_of(c: u16) -> u16
    ensures { result ≡ frame_of c }
{
    let d = frame::data_byte(c);
    if c / 256 % 2 == 1 {
        frame::make(2, d)
    } else {
        frame::make(0, d)
    }
}

// The frame with the service bit set where service was requested before the call.
#[tactic(auto, unfolding(crate::specs::Sends::serviced))]
pub fn serviced(s: State, f: u16) -> u16
    ensures { result ≡ serviced s f }
{
    if s.toloop.news.request {
        frame::with_service(f)
    } else {
        f
    }
}

// The ready frame 5,d ends our sending.
// Kept: the bridge's loop side has the same over its own state, since a trait over both states, with its laws, would be longer than the
// three lines that they share. So it is with serviced and send_status.
#[tactic(auto, unfolding(crate::specs::Sends::ended))]
pub fn ended(s: State, d: u8) -> Outcome
    ensures { result ≡ ended s d }
{
    let talker = talker::ended(s.talker);
    Outcome {
        state: State { talker, ..s },
        answer: Answer::Frame(frame::make(5, d)),
    }
}

// The frame f of this source goes out.
#[tactic(auto, unfolding(crate::specs::Sends::sends))]
fn sends(before: State, after: State, f: u16, source: u8) -> Outcome
    ensures { result ≡ sends before after f source }
{
    let out = serviced(before, f);
    let talker = talker::talking(after.talker, role::SENDING_DATA, f);
    Outcome {
        state: State {
            talker,
            source,
            ..after
        },
        answer: Answer::Frame(out),
    }
}

// The oldest cell that waits for the loop goes out, or sending ends.
#[tactic(auto, unfolding(crate::specs::Sends::send_waiting))]
pub fn send_waiting(s: State, toloop: &[u16]) -> Outcome
    requires { Fit toloop.now s.toloop.ring }
    ensures { result ≡ send_waiting s toloop.now }
{
    if s.toloop.ring.len == 0 {
        return ended(s, 64);
    }
    let c = store::look(toloop, s.toloop.ring, 0);
    let f = frame_of(c);
    let toloop = way::fetched(s.toloop);
    sends(s, State { toloop, ..s }, f, 0)
}

// The byte of the device ID after n of them, and behind its end the line feed again.
#[tactic(auto, unfolding(crate::specs::Sends::id_byte))]
fn id_byte(n: u8) -> u8
    ensures { result ≡ id_byte n }
{
    // Kept: no `get`, whose Option of a reference is laid out for 64 bits, while the module is compiled for chips of 32 too.
    if n < 10 {
        DEVICE_ID[usize::from(n)]
    } else {
        b'\n'
    }
}

// The device ID goes on after n of its bytes, or sending ends.
#[tactic(auto, unfolding(crate::specs::Sends::send_id))]
pub fn send_id(s: State, n: u8) -> Outcome
    ensures { result ≡ send_id s n }
{
    if n >= 10 {
        return ended(s, 64);
    }
    let f = frame::make(0, id_byte(n));
    sends(s, s, f, n + 1)
}

// The accessory ID goes out.
#[tactic(auto, unfolding(crate::specs::Sends::send_accessory))]
pub fn send_accessory(s: State) -> Outcome
    ensures { result ≡ send_accessory s }
{
    sends(s, s, frame::make(0, 67), 10)
}

// The status byte goes out.
#[tactic(auto, unfolding(crate::specs::Sends::send_status))]
pub fn send_status(s: State) -> Outcome
    ensures { result ≡ send_status s }
{
    let f = frame::make(0, news::byte_of(s.toloop.news));
    let out = serviced(s, f);
    let n = news::sent(s.toloop.news);
    let toloop = way::told(s.toloop, n);
    let talker = talker::talking(s.talker, role::SENDING_STATUS, f);
    Outcome {
        state: State {
            toloop,
            talker,
            ..s
        },
        answer: Answer::Frame(out),
    }
}

// The next frame of an active talker.
#[tactic(auto, unfolding(crate::specs::Sends::send_next))]
pub fn send_next(s: State, toloop: &[u16]) -> Outcome
    requires { Fit toloop.now s.toloop.ring }
    ensures { result ≡ send_next s toloop.now }
{
    if s.source == 0 {
        return send_waiting(s, toloop);
    }
    send_id(s, s.source)
}
