//! The mailbox: a software HP-IL/HP-IB interface. The state goes in by value, and comes back where the call is not refused; both stores of
//! cells are lent at every call.
#![tactic(auto, unfolding(
// A call, and its refusals.
crate::specs::Calls::step, crate::specs::Calls::checks, crate::specs::Calls::checks_on, crate::specs::Calls::refused_or,
// What it does where it is not refused.
crate::specs::Calls::not_refused, crate::specs::Calls::outcome, crate::specs::Calls::shown,
// What it leaves in both stores.
crate::specs::Calls::tobus_after, crate::specs::Calls::toloop_after,
// What the bus does.
crate::specs::BusSide::bus_command, crate::specs::BusSide::bus_clear, crate::specs::BusSide::bus_byte, crate::specs::BusSide::bus_cells,
// What the bus is given.
crate::specs::BusSide::bus_fetch, crate::specs::BusSide::given, crate::specs::BusSide::data_given,
// Its status byte, and its lines.
crate::specs::BusSide::status_given, crate::specs::BusSide::bus_lines), using(
// What sizes that are obeyed give, and what a state that fits gives.
mailstate::proofs::Fits::address_obeyed_lem, mailstate::proofs::Fits::tobus_fits, mailstate::proofs::Fits::toloop_fits,
// Both polls are answered on one of eight lines.
mailstate::proofs::Fits::loop_line, mailstate::proofs::Fits::bus_line))]

ghost use Rattle.std.specs.Prelude.{◌≡◌, ◌<◌};
ghost use Rattle.store.specs.Ring.{Fit};
ghost use Rattle.mailbox.specs.BusSide as bus-side;
ghost use Rattle.mailbox.specs.Calls.{Promised, unmade, world, did, handed, Judged};
ghost use Rattle.mailbox.specs.Calls.{on, create, reset, loop_frame, bus_command, bus_byte, bus_fetch, bus_clear, bus_lines, show};

use answers::{Answer, Refusal};
use bus::{Bus, Fetch};
use mailstate::{Outcome, State};

// Refused unless the state fits these stores.
fn fitting(s: State, tobus: &[u16], toloop: &[u16]) -> Result<(), Refusal>
    ensures { Judged s tobus.now toloop.now result }
{
    if mailstate::state_fits(s, tobus.len(), toloop.len()) {
        Ok(())
    } else {
        Err(Refusal::Misfit)
    }
}

// The cell of a byte, its end marked.
fn cell_with(b: u8, mark: bool) -> u16
    ensures { result ≡ bus-side.cell_with b mark }
{
    let byte = u16::from(b);
    if mark { byte + 256 } else { byte }
}

// The state, and nothing to give.
fn done(s: State) -> Outcome
    ensures { result ≡ bus-side.done_with s }
{
    Outcome {
        state: s,
        answer: Answer::Done,
    }
}

// Whether we are listener on the bus, and the way to the loop is full.
fn busy(s: State) -> bool
    ensures { result ≡ bus-side.bus_busy s }
{
    s.bus.role.listener & (s.toloop.ring.cap <= s.toloop.ring.len)
}

// A command.
fn commanded(s: State, c: u8) -> Outcome
    ensures { result ≡ bus-side.bus_command s c }
{
    let bus = bus::commanded(s.bus, c);
    if bus::clears(s.bus, c) {
        let toloop = way::empty(s.toloop.ring.cap);
        return done(State { toloop, bus, ..s });
    }
    done(State { bus, ..s })
}

// An interface clear.
fn cleared(s: State) -> Outcome
    ensures { result ≡ bus-side.bus_clear s }
{
    let bus = bus::interface_cleared(s.bus);
    done(State { bus, ..s })
}

// A listener keeps the byte, and nobody else does.
fn left(s: State, toloop: &mut [u16], b: u8, mark: bool) -> Outcome
    requires { Fit toloop.old s.toloop.ring }
    ensures { bus-side.Taken s toloop.old b mark toloop.new result }
{
    if s.bus.role.listener {
        let c = cell_with(b, mark);
        let w = way::leave(toloop, s.toloop, c);
        return done(State { toloop: w, ..s });
    }
    done(s)
}

// The oldest cell that waits for the bus, or none.
// Kept: state and store are two arguments, here and below, since both stores are lent at every call.
fn data_given(s: State, tobus: &[u16]) -> Outcome
    requires { Fit tobus.now s.tobus.ring }
    ensures { result ≡ bus-side.data_given s tobus.now }
{
    if s.tobus.ring.len == 0 {
        return Outcome {
            state: s,
            answer: Answer::Nothing,
        };
    }
    let c = store::look(tobus, s.tobus.ring, 0);
    let tobus = way::fetched(s.tobus);
    Outcome {
        state: State { tobus, ..s },
        answer: Answer::Cell(c % 512),
    }
}

// The status byte, by which all of it is told.
fn status_given(s: State) -> Outcome
    ensures { result ≡ bus-side.status_given s }
{
    let d = news::byte_of(s.tobus.news);
    let n = news::none();
    let tobus = way::told(s.tobus, n);
    let bus = Bus {
        read: true,
        ..s.bus
    };
    Outcome {
        state: State { tobus, bus, ..s },
        answer: Answer::Cell(u16::from(d)),
    }
}

// What the bus is given when it asks for a byte.
fn given(s: State, tobus: &[u16]) -> Outcome
    requires { Fit tobus.now s.tobus.ring }
    ensures { result ≡ bus-side.bus_fetch s tobus.now }
{
    let asked = bus::fetch_of(s.bus);
    match asked {
        Fetch::Silent => Outcome {
            state: s,
            answer: Answer::Nothing,
        },
        Fetch::Status => status_given(s),
        Fetch::Data => data_given(s, tobus),
    }
}

// The lines of the bus.
fn lines(s: State) -> Outcome
    requires { s.bus.line < 8 }
    ensures { result ≡ bus-side.bus_lines s }
{
    let bits = bus::poll_bits(s.bus, s.tobus.news.request);
    let shown = cell_with(bits, s.tobus.news.request);
    Outcome {
        state: s,
        answer: Answer::Lines(shown),
    }
}

// Makes a state for these stores at this bus address, or refuses; neither store is written.
pub fn create(tobus: &[u16], toloop: &[u16], address: u32) -> Result<Outcome, Refusal>
    ensures { Promised (create address) (unmade tobus.now toloop.now)
        (did (unmade tobus.now toloop.now).state result tobus.now toloop.now) }
{
    if !mailstate::sizes_obeyed(address, tobus.len(), toloop.len()) {
        return Err(Refusal::Sizes);
    }
    // Kept: an address that is obeyed is at most 30, so the cast loses no bit.
    let a = address as u8;
    let s = mailstate::start(a, tobus.len(), toloop.len());
    Ok(done(s))
}

// Gives what create gives for the same sizes and bus address; neither store is written.
pub fn reset(s: State, tobus: &[u16], toloop: &[u16]) -> Result<Outcome, Refusal>
    ensures { Promised (on reset) (world s tobus.now toloop.now) (did s result tobus.now toloop.now) }
{
    fitting(s, tobus, toloop)?;
    let t = mailstate::start(s.bus.role.address, tobus.len(), toloop.len());
    Ok(done(t))
}

// Takes a frame from the loop, and gives exactly one.
pub fn loop_frame(
    s: State,
    tobus: &mut [u16],
    toloop: &[u16],
    frame: u32,
) -> Result<Outcome, Refusal>
    ensures { Promised (on (loop_frame frame)) (world s tobus.old toloop.now) (did s result tobus.new toloop.now) }
{
    fitting(s, tobus, toloop)?;
    if frame > 2047 {
        return Err(Refusal::LargeFrame);
    }
    // Kept: the test above leaves eleven bits, so the cast loses none.
    let f = frame as u16;
    if mailloop::busy(s, f) {
        return Err(Refusal::Busy);
    }
    Ok(mailloop::frame_taken(s, tobus, toloop, f))
}

// Takes a command from the bus.
pub fn bus_command(s: State, tobus: &[u16], toloop: &[u16], c: u32) -> Result<Outcome, Refusal>
    ensures { Promised (on (bus_command c)) (world s tobus.now toloop.now) (did s result tobus.now toloop.now) }
{
    fitting(s, tobus, toloop)?;
    if c > 127 {
        return Err(Refusal::LargeCommand);
    }
    // Kept: the test above leaves seven bits, so the cast loses none.
    Ok(commanded(s, c as u8))
}

// Takes a data byte from the bus, with its end mark or without. Nobody keeps it where we are not listener, and the answer is done all the same.
pub fn bus_byte(
    s: State,
    tobus: &[u16],
    toloop: &mut [u16],
    b: u8,
    mark: bool,
) -> Result<Outcome, Refusal>
    ensures { Promised (on (bus_byte b mark)) (world s tobus.now toloop.old) (did s result tobus.now toloop.new) }
{
    fitting(s, tobus, toloop)?;
    if busy(s) {
        return Err(Refusal::Busy);
    }
    Ok(left(s, toloop, b, mark))
}

// Gives the bus its next byte.
pub fn bus_fetch(s: State, tobus: &[u16], toloop: &[u16]) -> Result<Outcome, Refusal>
    ensures { Promised (on bus_fetch) (world s tobus.now toloop.now) (did s result tobus.now toloop.now) }
{
    fitting(s, tobus, toloop)?;
    Ok(given(s, tobus))
}

// Takes an interface clear of the bus.
pub fn bus_clear(s: State, tobus: &[u16], toloop: &[u16]) -> Result<Outcome, Refusal>
    ensures { Promised (on bus_clear) (world s tobus.now toloop.now) (did s result tobus.now toloop.now) }
{
    fitting(s, tobus, toloop)?;
    Ok(cleared(s))
}

// Shows the bus lines; nothing changes.
pub fn bus_lines(s: State, tobus: &[u16], toloop: &[u16]) -> Result<Outcome, Refusal>
    ensures { Promised (on bus_lines) (world s tobus.now toloop.now) (did s result tobus.now toloop.now) }
{
    fitting(s, tobus, toloop)?;
    Ok(lines(s))
}

// Shows the longest unbroken run of cells from the oldest one: side 0 of the way to the bus, side 1 of the way to the loop.
// Kept: the side is a number and no enum, since C gives the number, and any other number shows nothing.
pub fn show<'a>(s: State, tobus: &'a [u16], toloop: &'a [u16], side: u32) -> &'a [u16]
    ensures { Promised (show side) (world s tobus.now toloop.now)
        (handed result.now (world s tobus.now toloop.now)) }
{
    if !mailstate::state_fits(s, tobus.len(), toloop.len()) {
        return &tobus[0..0];
    }
    if side == 0 {
        return store::show(tobus, s.tobus.ring);
    }
    if side == 1 {
        return store::show(toloop, s.toloop.ring);
    }
    &tobus[0..0]
}
