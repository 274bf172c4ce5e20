//! The reading rule (line to loop): what the oldest bytes held decide, and the breaks among them.
#![tactic(auto)]

ghost use Rattle.std.specs.Prelude.{◌≡◌};
ghost use Rattle.reading.specs.Received.{item_of, marked_cell, received};
ghost use Rattle.reading.specs.Steps.{decision};
ghost use Rattle.reading.specs.Firsts.{firsts};

// The rule of the moment: R10 bit 3, C00, C01.
#[derive(Clone, Copy)]
pub struct Rule {
    pub on: bool,
    pub c00: u8,
    pub c01: u8,
}

// A byte held, and whether a break follows it.
#[derive(Clone, Copy)]
pub struct Item {
    pub byte: u8,
    pub broken: bool,
}

// What the oldest bytes decide: Removed takes two bytes and sends nothing, End three, Data one, Wait none.
// Kept: to wait is one of the paper's decisions, so it is a case and no None.
#[derive(Clone, Copy, PartialEq, Eq)]
pub enum Decision {
    Removed,
    End,
    Data,
    Wait,
}

// What a cell stands for: its low eight bits are the byte, bit 8 says that a break follows, and the bits above do not count.
// Kept: a function and no From, since a u16 is also a frame or a number, and the name says which is meant.
pub fn item_of(cell: u16) -> Item
    ensures { result ≡ item_of cell }
{
    Item {
        byte: (cell & 255) as u8,
        broken: cell & 256 != 0,
    }
}

// The cell with the mark of a break behind its byte, and nothing above it.
pub fn marked(cell: u16) -> u16
    ensures { result ≡ marked_cell cell }
{
    (cell & 255) + 256
}

// The decision where the n oldest bytes are a, b, c: only the first n count, and more than three are as three.
// Kept: three items and a count, no slice and no Options: the cells of a ring go round, and Options would be tested one by one at each step.
pub fn decide(rule: Rule, n: usize, a: Item, b: Item, c: Item) -> Decision
    ensures { result ≡ decision rule (received (firsts n a b c)) }
{
    if n == 0 {
        return Decision::Wait;
    }
    // No indicator is looked for, or none that it is part of can come: a break follows it.
    if !rule.on | a.broken {
        return Decision::Data;
    }
    // Step 1.
    if (2 <= n) & (a.byte == rule.c00) & (b.byte == rule.c01) {
        return Decision::Removed;
    }
    if (n == 1) & (a.byte == rule.c00) {
        return Decision::Wait;
    }
    // Step 2.
    let begins = (b.byte == rule.c00) & !b.broken;
    if (3 <= n) & begins & (c.byte == rule.c01) {
        return Decision::End;
    }
    // Step 3.
    if (n == 1) | (n == 2) & begins {
        return Decision::Wait;
    }
    // Step 4.
    Decision::Data
}
