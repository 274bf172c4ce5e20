// The bytes of a state, in two parts.
ghost use Rattle.std.specs.Prelude.{◌≡◌};
ghost use Rattle.mailblock.specs.Packed.{packed_head, packed_tail};

use crate::VERSION;
use mailstate::State;

// The bytes of the version, the rings and the two frames.
// Kept beside the twin in block: each row is a place of the packed block. All bytes stand in one list, so that those which stand together
// are packed at once.
pub fn packed_head(s: State) -> [u8; 17]
    ensures { result ≡ packed_head s }
{
    let tobus = codec::ring_bytes(s.tobus.ring);
    let toloop = codec::ring_bytes(s.toloop.ring);
    let frame = s.talker.under.frame.to_le_bytes();
    let held = s.hold.frame.to_le_bytes();
    [
        VERSION, tobus[0], tobus[1], tobus[2], tobus[3], tobus[4], tobus[5], toloop[0], toloop[1],
        toloop[2], toloop[3], toloop[4], toloop[5], frame[0], frame[1], held[0], held[1],
    ]
}

// The bytes of the talker, the bus and all flags.
pub fn packed_tail(s: State) -> [u8; 24]
    ensures { result ≡ packed_tail s }
{
    [
        s.talker.role.address,
        s.talker.role.phase,
        u8::from(s.talker.role.listener),
        u8::from(s.talker.under.finishing),
        s.source,
        s.response.line,
        s.bus.role.address,
        s.bus.role.phase,
        s.bus.line,
        u8::from(s.bus.role.listener),
        u8::from(s.tobus.news.request),
        u8::from(s.tobus.news.available),
        u8::from(s.tobus.news.again),
        u8::from(s.toloop.news.request),
        u8::from(s.toloop.news.available),
        u8::from(s.toloop.news.again),
        u8::from(s.hold.enabled),
        u8::from(s.hold.held),
        u8::from(s.response.on),
        u8::from(s.response.sense),
        u8::from(s.bus.serial),
        u8::from(s.bus.read),
        u8::from(s.bus.configuring),
        u8::from(s.bus.polled),
    ]
}
