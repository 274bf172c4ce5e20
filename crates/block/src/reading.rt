// The state that a block is read as.
ghost use Rattle.std.specs.Prelude.{◌≡◌, length};
ghost use Rattle.block.specs.Packed.{block_len, state_at, unpacked};

use registers::Registers;
use role::Role;
use role::remote::Remote;
use state::{Counts, Line, Notes, State};
use status::Events;
use talker::{Talker, Under};

// The registers in a block.
fn registers_at(b: &[u8]) -> Registers
    requires { length b.now ≡ block_len }
    ensures { result ≡ (state_at b.now).regs }
{
    Registers {
        r00: b[33],
        r01: b[34],
        r02: b[35],
        r10: b[36],
        r11: b[37],
        c00: b[38],
        c01: b[39],
        c02: b[40],
        c03: b[41],
        c04: b[42],
        c05: b[43],
    }
}

// The talker in a block: its role and the frame under way.
// Kept beside the twin in mailblock: its numbers are the places of that block. A flag is read by its lowest bit, here and below, as the
// definition reads it.
fn talker_at(b: &[u8]) -> Talker
    requires { length b.now ≡ block_len }
    ensures { result ≡ (state_at b.now).talker }
{
    Talker {
        role: Role {
            address: b[27],
            phase: b[28],
            listener: b[29] % 2 == 1,
        },
        under: Under {
            frame: codec::read16(b, 30),
            finishing: b[32] % 2 == 1,
        },
    }
}

// The remote flags in a block.
fn remote_at(b: &[u8]) -> Remote
    requires { length b.now ≡ block_len }
    ensures { result ≡ (state_at b.now).remote }
{
    Remote {
        enabled: b[54] % 2 == 1,
        remote: b[55] % 2 == 1,
    }
}

// The state of the line in a block.
fn line_at(b: &[u8]) -> Line
    requires { length b.now ≡ block_len }
    ensures { result ≡ (state_at b.now).line }
{
    Line {
        holding: b[44] % 2 == 1,
        forbidden: b[45] % 2 == 1,
        stopped: b[46] % 2 == 1,
    }
}

// The notes in a block.
fn notes_at(b: &[u8]) -> Notes
    requires { length b.now ≡ block_len }
    ensures { result ≡ (state_at b.now).notes }
{
    Notes {
        seen: Events {
            brk: b[47] % 2 == 1,
            overrun: b[48] % 2 == 1,
            key: b[49] % 2 == 1,
        },
        again: Events {
            brk: b[50] % 2 == 1,
            overrun: b[51] % 2 == 1,
            key: b[52] % 2 == 1,
        },
        request: b[53] % 2 == 1,
    }
}

// The counts in a block.
fn counts_at(b: &[u8]) -> Counts
    requires { length b.now ≡ block_len }
    ensures { result ≡ (state_at b.now).counts }
{
    Counts {
        stored: codec::read32(b, 15),
        lost: codec::read32(b, 19),
        sent: codec::read32(b, 23),
    }
}

// The state that the bytes of a block are read as.
pub fn unpack(b: &[u8]) -> State
    requires { length b.now ≡ block_len }
    ensures { result ≡ unpacked b.now }
{
    let margin = codec::read(b, 1);
    let regs = registers_at(b);
    let talker = talker_at(b);
    let remote = remote_at(b);
    let rx = codec::ring_at(b, 3);
    let tx = codec::ring_at(b, 9);
    let line = line_at(b);
    let notes = notes_at(b);
    let counts = counts_at(b);
    State {
        margin,
        regs,
        talker,
        remote,
        rx,
        tx,
        line,
        notes,
        counts,
    }
}
