// The state that a block is read as.
ghost use Rattle.std.specs.Prelude.{◌≡◌, ◌+◌, ◌<◌, length};
ghost use Rattle.mailblock.specs.Packed.{block_len, way_at, state_at, unpacked};

use bus::Bus;
use mailstate::{Hold, State};
use news::News;
use polls::Response;
use role::Role;
use talker::{Talker, Under};
use way::Way;

// A way in a block, its ring from i and its news from j.
fn way_at(b: &[u8], i: usize, j: usize) -> Way
    requires { (i + 5 < length b.now) × (j + 2 < length b.now) }
    ensures { result ≡ way_at b.now i j }
{
    Way {
        ring: codec::ring_at(b, i),
        news: News {
            request: b[j] % 2 == 1,
            available: b[j + 1] % 2 == 1,
            again: b[j + 2] % 2 == 1,
        },
    }
}

// The talker on the loop in a block: its role and the frame under way.
// Kept beside the twin in block: its numbers are the places of that block. A flag is read by its lowest bit, here and above, as the
// definition reads it.
fn talker_at(b: &[u8]) -> Talker
    requires { length b.now ≡ block_len }
    ensures { result ≡ (state_at b.now).talker }
{
    Talker {
        role: Role {
            address: b[17],
            phase: b[18],
            listener: b[19] % 2 == 1,
        },
        under: Under {
            frame: codec::read16(b, 13),
            finishing: b[20] % 2 == 1,
        },
    }
}

// What is held back, in a block.
fn hold_at(b: &[u8]) -> Hold
    requires { length b.now ≡ block_len }
    ensures { result ≡ (state_at b.now).hold }
{
    Hold {
        enabled: b[33] % 2 == 1,
        held: b[34] % 2 == 1,
        frame: codec::read16(b, 15),
    }
}

// The response to a poll of the loop, in a block.
fn response_at(b: &[u8]) -> Response
    requires { length b.now ≡ block_len }
    ensures { result ≡ (state_at b.now).response }
{
    Response {
        on: b[35] % 2 == 1,
        line: b[22],
        sense: b[36] % 2 == 1,
    }
}

// The device on the bus, in a block.
fn bus_at(b: &[u8]) -> Bus
    requires { length b.now ≡ block_len }
    ensures { result ≡ (state_at b.now).bus }
{
    Bus {
        role: Role {
            address: b[23],
            phase: b[24],
            listener: b[26] % 2 == 1,
        },
        serial: b[37] % 2 == 1,
        read: b[38] % 2 == 1,
        configuring: b[39] % 2 == 1,
        polled: b[40] % 2 == 1,
        line: b[25],
    }
}

// The state that the bytes of a block are read as.
pub fn unpack(b: &[u8]) -> State
    requires { length b.now ≡ block_len }
    ensures { result ≡ unpacked b.now }
{
    let tobus = way_at(b, 1, 27);
    let toloop = way_at(b, 7, 30);
    let loopside = talker_at(b);
    let source = b[21];
    let hold = hold_at(b);
    let response = response_at(b);
    let busside = bus_at(b);
    State {
        tobus,
        toloop,
        talker: loopside,
        source,
        hold,
        response,
        bus: busside,
    }
}
