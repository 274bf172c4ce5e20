//! A device on the HP-IB bus: its role, the serial poll and how it is set to answer a parallel poll. What it hands over is not known here.
#![tactic(auto)]

ghost use Rattle.std.specs.Prelude.{◌≡◌, ◌<◌};
ghost use Rattle.bus.specs.Bus.{start_bus, response_after, serial_after, commanded, interface_cleared, clears, fetch_of, poll_bits, fit_test};

use polls::Response;
use role::{ADDRESSED, IDLE, Order, Role};

// role: the bus address, talker or not, listener or not. serial: in serial poll mode. read: the status byte was handed over since the last
// command. configuring: the next secondary command sets the response. polled: a parallel poll is answered, on this line of the eight.
// Kept: the line stands beside polled and is no Option, since a packed state keeps it while polled is false, and a line above 7 is refused there too.
#[derive(Clone, Copy)]
pub struct Bus {
    pub role: Role,
    pub serial: bool,
    pub read: bool,
    pub configuring: bool,
    pub polled: bool,
    pub line: u8,
}

// What the bus is given when it asks for a byte.
// Kept: silence is what the bus is given too, so it is a case and no None.
#[derive(Clone, Copy)]
pub enum Fetch {
    Silent,
    Status,
    Data,
}

// The device after create and reset, at this bus address.
pub fn start(address: u8) -> Bus
    ensures { result ≡ start_bus address }
{
    Bus {
        role: Role {
            address,
            phase: IDLE,
            listener: false,
        },
        serial: false,
        read: false,
        configuring: false,
        polled: false,
        line: 0,
    }
}

// The response after the command c.
#[tactic(auto, unfolding(crate::specs::Bus::response_after))]
fn response_after(b: Bus, c: u8) -> Response
    ensures { result ≡ response_after b c }
{
    if b.configuring & (c / 16 == 6) {
        return polls::of_bus(c);
    }
    if b.configuring | (c == 21) {
        return polls::none();
    }
    Response {
        on: b.polled,
        line: b.line,
        sense: true,
    }
}

// Whether it is in serial poll mode after the command c.
#[tactic(auto, unfolding(crate::specs::Bus::serial_after))]
fn serial_after(serial: bool, c: u8) -> bool
    ensures { result ≡ serial_after serial c }
{
    if c == 24 {
        true
    } else if c == 25 {
        false
    } else {
        serial
    }
}

// The device after the command c.
#[tactic(auto, unfolding(crate::specs::Bus::commanded))]
pub fn commanded(b: Bus, c: u8) -> Bus
    ensures { result ≡ commanded b c }
{
    let o = role::order_of(31, b.role, c);
    let p = response_after(b, c);
    Bus {
        role: role::obeyed(b.role, o),
        serial: serial_after(b.serial, c),
        read: false,
        configuring: (c == 5) & b.role.listener,
        polled: p.on,
        line: p.line,
    }
}

// The device after an interface clear.
#[tactic(auto, unfolding(crate::specs::Bus::interface_cleared))]
pub fn interface_cleared(b: Bus) -> Bus
    ensures { result ≡ interface_cleared b }
{
    let p = response_after(b, 0);
    Bus {
        role: role::obeyed(b.role, Order::Deselect),
        serial: false,
        read: false,
        configuring: false,
        polled: p.on,
        line: p.line,
    }
}

// Whether the command c clears what the device was left by the bus.
#[tactic(auto, unfolding(crate::specs::Bus::clears))]
pub fn clears(b: Bus, c: u8) -> bool
    ensures { result ≡ clears b c }
{
    role::is_clear(role::order_of(31, b.role, c))
}

// The bits that answer a parallel poll while service is requested, or while it is not.
#[tactic(auto, unfolding(crate::specs::Bus::poll_bits))]
pub fn poll_bits(b: Bus, requested: bool) -> u8
    requires { b.line < 8 }
    ensures { result ≡ poll_bits b requested }
{
    let p = Response {
        on: b.polled,
        line: b.line,
        sense: true,
    };
    polls::answer(p, requested)
}

// What the bus is given when it asks for a byte now.
#[tactic(auto, unfolding(crate::specs::Bus::fetch_of))]
pub fn fetch_of(b: Bus) -> Fetch
    ensures { result ≡ fetch_of b }
{
    if b.role.phase == IDLE {
        return Fetch::Silent;
    }
    if b.serial & b.read {
        return Fetch::Silent;
    }
    if b.serial {
        return Fetch::Status;
    }
    Fetch::Data
}

// Whether every field is in its range and the device is not talker and listener at once.
#[tactic(auto, unfolding(crate::specs::Bus::fit_test))]
pub fn bus_fits(b: Bus) -> bool
    ensures { result ≡ fit_test b }
{
    role::role_fits(b.role) & (b.role.address <= 30) & (b.role.phase <= ADDRESSED) & (b.line < 8)
}
