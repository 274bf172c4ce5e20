//! The registers that the bridge carries, kept apart from the rest of its state: their table, and writing one by number.
#![tactic(auto)]

ghost use Rattle.std.specs.Prelude.{ℕ, ◌≡◌, ◌%◌, cond, Some};
ghost use Rattle.answers.specs.Answers.{fault_in};
ghost use Rattle.answers.specs.Refusals.{first_refusal};
ghost use Rattle.registers.specs.Table.{carried_of, carries, start_registers};
ghost use Rattle.registers.specs.Bits.{too_large, bit_not_carried, in_range};
ghost use Rattle.registers.specs.Writing.{write_checks, written};
ghost use Rattle.registers.specs.RegistersFit.{registers_fit};

use answers::Refusal;

pub mod meanings;

// r00 to r11 are control registers of four bits, c00 to c05 characters.
#[derive(Clone, Copy)]
pub struct Registers {
    pub r00: u8,
    pub r01: u8,
    pub r02: u8,
    pub r10: u8,
    pub r11: u8,
    pub c00: u8,
    pub c01: u8,
    pub c02: u8,
    pub c03: u8,
    pub c04: u8,
    pub c05: u8,
}

// What a register carries: these bits of four, written as their sum, or a whole character.
#[derive(Clone, Copy)]
pub enum Contents {
    Bits(u8),
    Character,
}

// The registers after create and reset.
// Kept: a function and no Default, here and in the other crates, since the start is promised by name, and most have sizes or numbers.
#[tactic(auto, unfolding(crate::specs::Table::table, crate::specs::Table::row_in, crate::specs::Table::start_of, crate::specs::Table::start_registers))]
pub fn start() -> Registers
    ensures { result ≡ start_registers }
{
    Registers {
        r00: 0,
        r01: 0,
        r02: 0,
        r10: 0,
        r11: 8,
        c00: 13,
        c01: 10,
        c02: 13,
        c03: 10,
        c04: 17,
        c05: 19,
    }
}

// What the register of this number carries; none where there is no such register, or the bridge doesn't carry it.
// Kept: a register is its number and no enum, since C and the app can give any number, and one that is not carried is refused.
#[tactic(auto, unfolding(crate::specs::Table::table, crate::specs::Table::row_in, crate::specs::Table::carried_of, crate::specs::Table::carries),
// A number from 16 to 21 is that of a character, and one without a row carries nothing.
using(crate::proofs::Wording::character_carried, crate::proofs::Wording::nothing_carried))]
pub fn carried(n: u32) -> Option<Contents>
    ensures { result ≡ carries (carried_of n) }
{
    match n {
        0 => Some(Contents::Bits(9)), // R00: bits 3 and 0
        1 => Some(Contents::Bits(15)), // R01: all four
        2 => Some(Contents::Bits(5)), // R02: bits 2 and 0
        10 => Some(Contents::Bits(12)), // R10: bits 3 and 2
        11 => Some(Contents::Bits(8)), // R11: bit 3
        16..=21 => Some(Contents::Character),
        _ => None,
    }
}

// Whether a value is above what a register that carries this can hold.
#[tactic(auto, unfolding(crate::specs::Bits::too_large), using(crate::proofs::Wording::character_is, crate::proofs::Wording::bits_are))]
fn too_large(k: Contents, v: u32) -> bool
    ensures { (n : ℕ) → Some k ≡ carries n → result ≡ too_large n v }
{
    match k {
        Contents::Character => v > 255,
        Contents::Bits(_) => v > 15,
    }
}

// Whether a control value has a bit that is not among those carried.
// Kept: bit by bit, as the paper says which bits are carried.
#[tactic(auto, unfolding(crate::specs::Bits::bit_not_carried), using(crate::proofs::Wording::character_is))]
fn bit_not_carried(k: Contents, v: u32) -> bool
    ensures { (n : ℕ) → Some k ≡ carries n → result ≡ bit_not_carried n v }
{
    match k {
        Contents::Character => false,
        Contents::Bits(b) => {
            ((v / 1 % 2 == 1) & !(b / 1 % 2 == 1))
                | ((v / 2 % 2 == 1) & !(b / 2 % 2 == 1))
                | ((v / 4 % 2 == 1) & !(b / 4 % 2 == 1))
                | ((v / 8 % 2 == 1) & !(b / 8 % 2 == 1))
        }
    }
}

// Whether the register of this number can hold the value.
#[tactic(auto, unfolding(crate::specs::Bits::in_range), using(crate::proofs::Wording::none_is, crate::proofs::Wording::nothing_held))]
fn in_range(n: u32, x: u8) -> bool
    ensures { result ≡ in_range (carried_of n) x }
{
    let v = u32::from(x);
    match carried(n) {
        Some(k) => !too_large(k, v) & !bit_not_carried(k, v),
        None => x == 0,
    }
}

// The new value for the register that is written, the old one for every other.
// Kept: each field by itself, as the definition of a write has it.
fn put(own: bool, v: u8, old: u8) -> u8
    ensures { result ≡ cond own v old }
{
    if own { v } else { old }
}

// The registers with this one written; no write that is accepted has a value above 255.
#[tactic(auto, unfolding(crate::specs::Writing::written))]
pub fn written(g: Registers, n: u32, v: u32) -> Registers
    ensures { result ≡ written g n (v % 256) }
{
    let b = (v % 256) as u8;
    Registers {
        r00: put(n == 0, b, g.r00),
        r01: put(n == 1, b, g.r01),
        r02: put(n == 2, b, g.r02),
        r10: put(n == 10, b, g.r10),
        r11: put(n == 11, b, g.r11),
        c00: put(n == 16, b, g.c00),
        c01: put(n == 17, b, g.c01),
        c02: put(n == 18, b, g.c02),
        c03: put(n == 19, b, g.c03),
        c04: put(n == 20, b, g.c04),
        c05: put(n == 21, b, g.c05),
    }
}

// The refusal of a write, where it is refused.
pub fn refused(g: Registers, n: u32, v: u32) -> Result<(), Refusal>
    ensures { fault_in result ≡ first_refusal (write_checks g n v) }
{
    let Some(k) = carried(n) else {
        return Err(Refusal::NotCarried);
    };
    if too_large(k, v) {
        return Err(Refusal::LargeValue);
    }
    if bit_not_carried(k, v) {
        return Err(Refusal::BitNotCarried);
    }
    let after = written(g, n, v);
    if after.c04 == after.c05 {
        return Err(Refusal::GoIsStop);
    }
    Ok(())
}

// Whether control registers have carried bits only, and go and stop differ.
#[tactic(auto, using(crate::proofs::Flat::flat))]
pub fn registers_fit(g: Registers) -> bool
    ensures { result ≡ registers_fit g }
{
    in_range(0, g.r00)
        & in_range(1, g.r01)
        & in_range(2, g.r02)
        & in_range(10, g.r10)
        & in_range(11, g.r11)
        & !(g.c04 == g.c05)
}
