//! What commands and ready frames do to a device's role on the loop; stores and registers are not known here.
#![tactic(auto)]

ghost use Rattle.std.specs.Prelude.{◌≡◌};
ghost use Rattle.role.specs.Role.{start_role, with_phase};
ghost use Rattle.role.specs.Orders.{own_address, listen_order, talk_order, other_order, order_of, is_clear};
ghost use Rattle.role.specs.Commands.{merely_addressed, changed_role, obeyed_role};
ghost use Rattle.role.specs.ReadyFrames.{ready_of, assigned_role};
ghost use Rattle.role.specs.RoleFit.{fit_test};

pub mod remote;

// The address of a device that has none.
pub const UNASSIGNED: u8 = 31;

// The phases of the talker: no talker, addressed, active with data and active with its status byte.
pub const IDLE: u8 = 0;

pub const ADDRESSED: u8 = 1;

pub const SENDING_DATA: u8 = 2;

pub const SENDING_STATUS: u8 = 3;

// address: 0 to 30 as assigned, or UNASSIGNED. phase: one of the four above.
// Kept: both are numbers, no enum and no Option: a packed state may have any byte here, packs as it was read, and is refused if it does not fit.
#[derive(Clone, Copy)]
pub struct Role {
    pub address: u8,
    pub phase: u8,
    pub listener: bool,
}

// What a command asks of a device.
// Kept: Nothing is an order too and no None, since every command makes an active talker merely addressed.
#[derive(Clone, Copy, PartialEq, Eq)]
pub enum Order {
    Unlisten,
    Listen,
    Untalk,
    Talk,
    Clear,
    Deselect,
    Enable,
    Disable,
    Local,
    Unassign,
    Nothing,
}

// What a ready frame asks of a device.
// Kept: Pass is what every device does with the frame, so it is a case and no None; what follows needs stores, which are not known here.
#[derive(Clone, Copy)]
pub enum Ready {
    Pass,
    Address,
    Data,
    Status,
    Finish,
}

// The role after create and reset.
pub fn start() -> Role
    ensures { result ≡ start_role }
{
    Role {
        address: UNASSIGNED,
        phase: IDLE,
        listener: false,
    }
}

// The role with another talker phase.
pub fn with_phase(r: Role, phase: u8) -> Role
    ensures { result ≡ with_phase r phase }
{
    Role { phase, ..r }
}

// The address that the device answers to: its home address while it is unassigned.
#[tactic(auto, unfolding(crate::specs::Orders::own_address))]
pub fn own_address(home: u8, r: Role) -> u8
    ensures { result ≡ own_address home r }
{
    if r.address == UNASSIGNED {
        home
    } else {
        r.address
    }
}

// The order in 32+n at address a; 31 is tested first, since it is nobody's address.
#[tactic(auto, unfolding(crate::specs::Orders::listen_order))]
fn listen_order(a: u8, n: u8) -> Order
    ensures { result ≡ listen_order a n }
{
    if n == 31 {
        Order::Unlisten
    } else if n == a {
        Order::Listen
    } else {
        Order::Nothing
    }
}

// The order in 64+n at address a.
#[tactic(auto, unfolding(crate::specs::Orders::talk_order))]
fn talk_order(a: u8, n: u8) -> Order
    ensures { result ≡ talk_order a n }
{
    if (n == a) & !(n == 31) {
        Order::Talk
    } else {
        Order::Untalk
    }
}

// The order in a command that has no address.
// Kept: commands and ready frames are numbers, here and below, as the paper lists them.
#[tactic(auto, unfolding(crate::specs::Orders::other_order))]
fn other_order(listener: bool, d: u8) -> Order
    ensures { result ≡ other_order listener d }
{
    if (d == 20) | ((d == 4) & listener) {
        Order::Clear
    } else if d == 144 {
        Order::Deselect
    } else if d == 146 {
        Order::Enable
    } else if d == 147 {
        Order::Disable
    } else if (d == 1) & listener {
        Order::Local
    } else if d == 154 {
        Order::Unassign
    } else {
        Order::Nothing
    }
}

// The order that a command's data byte is to a device in this role.
#[tactic(auto, unfolding(crate::specs::Orders::order_of))]
pub fn order_of(home: u8, r: Role, d: u8) -> Order
    ensures { result ≡ order_of home r d }
{
    let a = own_address(home, r);
    let n = d % 32;
    let base = d - n;
    if base == 32 {
        listen_order(a, n)
    } else if base == 64 {
        talk_order(a, n)
    } else {
        other_order(r.listener, d)
    }
}

// Whether an order is a device clear.
pub fn is_clear(o: Order) -> bool
    ensures { result ≡ is_clear o }
{
    o == Order::Clear
}

// The role with an active talker made addressed, as every command does first.
#[tactic(auto, unfolding(crate::specs::Commands::merely_addressed))]
pub fn merely_addressed(r: Role) -> Role
    ensures { result ≡ merely_addressed r }
{
    if SENDING_DATA <= r.phase {
        with_phase(r, ADDRESSED)
    } else {
        r
    }
}

// The role after an order, where an active talker is addressed already.
#[tactic(auto, unfolding(crate::specs::Commands::changed_role))]
fn changed(r: Role, o: Order) -> Role
    ensures { result ≡ changed_role r o }
{
    match o {
        Order::Unlisten => Role {
            listener: false,
            ..r
        },
        Order::Listen => Role {
            listener: true,
            ..with_phase(r, IDLE)
        },
        Order::Untalk => with_phase(r, IDLE),
        Order::Talk => Role {
            listener: false,
            ..with_phase(r, ADDRESSED)
        },
        Order::Deselect => Role {
            listener: false,
            ..with_phase(r, IDLE)
        },
        Order::Unassign => Role {
            address: UNASSIGNED,
            ..r
        },
        Order::Clear | Order::Enable | Order::Disable | Order::Local | Order::Nothing => r,
    }
}

// The role after an order: first an active talker becomes addressed, whatever the order.
#[tactic(auto, unfolding(crate::specs::Commands::obeyed_role))]
pub fn obeyed(r: Role, o: Order) -> Role
    ensures { result ≡ obeyed_role r o }
{
    changed(merely_addressed(r), o)
}

// What a ready frame with data byte d asks of a device in this role.
#[tactic(auto, unfolding(crate::specs::ReadyFrames::ready_of))]
pub fn ready_of(r: Role, d: u8) -> Ready
    ensures { result ≡ ready_of r d }
{
    let n = d % 32;
    let base = d - n;
    if (base == 128) & (n <= 30) & (r.address == UNASSIGNED) {
        Ready::Address
    } else if (d == 96) & (r.phase == ADDRESSED) {
        Ready::Data
    } else if (d == 97) & (r.phase == ADDRESSED) {
        Ready::Status
    } else if (d == 66) & (r.phase == SENDING_DATA) {
        Ready::Finish
    } else {
        Ready::Pass
    }
}

// The role with the address that the ready byte d = 128+n gives.
pub fn assigned(r: Role, d: u8) -> Role
    ensures { result ≡ assigned_role r d }
{
    Role {
        address: d % 32,
        ..r
    }
}

// Whether every field is in its range and the device is not talker and listener at once.
pub fn role_fits(r: Role) -> bool
    ensures { result ≡ fit_test r }
{
    (r.address <= UNASSIGNED) & (r.phase <= SENDING_STATUS) & !((ADDRESSED <= r.phase) & r.listener)
}
