// The bytes of a state, in two parts.
ghost use Rattle.std.specs.Prelude.{◌≡◌};
ghost use Rattle.block.specs.Packed.{packed_head, packed_tail};

use crate::VERSION;
use state::State;

// The bytes of the version, the margin, the rings and the counts.
// Kept beside the twin in mailblock: each row is a place of the packed block. All bytes stand in one list, so that those which stand together
// are packed at once.
pub fn packed_head(s: State) -> [u8; 27]
    ensures { result ≡ packed_head s }
{
    let margin = s.margin.to_le_bytes();
    let rx = codec::ring_bytes(s.rx);
    let tx = codec::ring_bytes(s.tx);
    let stored = s.counts.stored.to_le_bytes();
    let lost = s.counts.lost.to_le_bytes();
    let sent = s.counts.sent.to_le_bytes();
    [
        VERSION, margin[0], margin[1], rx[0], rx[1], rx[2], rx[3], rx[4], rx[5], tx[0], tx[1],
        tx[2], tx[3], tx[4], tx[5], stored[0], stored[1], stored[2], stored[3], lost[0], lost[1],
        lost[2], lost[3], sent[0], sent[1], sent[2], sent[3],
    ]
}

// The bytes of the talker, the registers, the line, the notes and the remote flags.
pub fn packed_tail(s: State) -> [u8; 29]
    ensures { result ≡ packed_tail s }
{
    let frame = s.talker.under.frame.to_le_bytes();
    [
        s.talker.role.address,
        s.talker.role.phase,
        u8::from(s.talker.role.listener),
        frame[0],
        frame[1],
        u8::from(s.talker.under.finishing),
        s.regs.r00,
        s.regs.r01,
        s.regs.r02,
        s.regs.r10,
        s.regs.r11,
        s.regs.c00,
        s.regs.c01,
        s.regs.c02,
        s.regs.c03,
        s.regs.c04,
        s.regs.c05,
        u8::from(s.line.holding),
        u8::from(s.line.forbidden),
        u8::from(s.line.stopped),
        u8::from(s.notes.seen.brk),
        u8::from(s.notes.seen.overrun),
        u8::from(s.notes.seen.key),
        u8::from(s.notes.again.brk),
        u8::from(s.notes.again.overrun),
        u8::from(s.notes.again.key),
        u8::from(s.notes.request),
        u8::from(s.remote.enabled),
        u8::from(s.remote.remote),
    ]
}
