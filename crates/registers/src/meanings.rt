// What the carried bits of the registers mean, by the manual's appendix D.
// Kept: a function for each bit, since each has its name in the appendix, and a shared one with the bit's number would only hide the weight that is read.
ghost use Rattle.std.specs.Prelude.{◌≡◌};
ghost use Rattle.registers.specs.Meanings.{requests_show, overrun_enabled, break_enabled, key_enabled, end_detected, end_inserted, protocol_on};
ghost use Rattle.registers.specs.Meanings.{transmit_empty_enabled, transmit_not_full_enabled, receive_not_empty_enabled, receive_full_enabled};

use crate::Registers;

// Service requests show.
pub fn requests_show(g: Registers) -> bool
    ensures { result ≡ requests_show g }
{
    g.r00 / 8 % 2 == 1
}

// Overrun begins a request.
pub fn overrun_enabled(g: Registers) -> bool
    ensures { result ≡ overrun_enabled g }
{
    g.r00 / 1 % 2 == 1
}

// Transmit empty begins a request.
pub fn transmit_empty_enabled(g: Registers) -> bool
    ensures { result ≡ transmit_empty_enabled g }
{
    g.r01 / 1 % 2 == 1
}

// Transmit not full begins a request.
pub fn transmit_not_full_enabled(g: Registers) -> bool
    ensures { result ≡ transmit_not_full_enabled g }
{
    g.r01 / 2 % 2 == 1
}

// Receive not empty begins a request.
pub fn receive_not_empty_enabled(g: Registers) -> bool
    ensures { result ≡ receive_not_empty_enabled g }
{
    g.r01 / 4 % 2 == 1
}

// Receive full begins a request.
pub fn receive_full_enabled(g: Registers) -> bool
    ensures { result ≡ receive_full_enabled g }
{
    g.r01 / 8 % 2 == 1
}

// A break begins a request.
pub fn break_enabled(g: Registers) -> bool
    ensures { result ≡ break_enabled g }
{
    g.r02 / 1 % 2 == 1
}

// A press of the MSRQ key begins a request.
pub fn key_enabled(g: Registers) -> bool
    ensures { result ≡ key_enabled g }
{
    g.r02 / 4 % 2 == 1
}

// C00 and C01 end a line on the way to the loop, and are deleted.
pub fn end_detected(g: Registers) -> bool
    ensures { result ≡ end_detected g }
{
    g.r10 / 8 % 2 == 1
}

// C02 and C03 are inserted behind an end byte on the way to the line.
pub fn end_inserted(g: Registers) -> bool
    ensures { result ≡ end_inserted g }
{
    g.r10 / 4 % 2 == 1
}

// The receiver protocol is on: go and stop hold the line off.
pub fn protocol_on(g: Registers) -> bool
    ensures { result ≡ protocol_on g }
{
    g.r11 / 8 % 2 == 1
}
