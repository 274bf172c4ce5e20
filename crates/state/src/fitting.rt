// Sizes, the start, and whether a state fits.
ghost use Rattle.std.specs.Prelude.{◌≡◌};
ghost use Rattle.state.specs.State.{no_events};
ghost use Rattle.state.specs.Sizes.{sizes_obeyed, start_state, fits};

use crate::{Counts, Line, Notes, State};
use status::Events;

// Whether the margin and the lengths obey the sizes.
#[tactic(auto, unfolding(crate::specs::Sizes::sizes_obeyed))]
pub fn sizes_obeyed(m: usize, rx: usize, tx: usize) -> bool
    ensures { result ≡ sizes_obeyed m rx tx }
{
    if m > 1024 {
        return false;
    }
    let least = 2 * m + 2;
    (1 <= m) & (least <= rx) & (rx <= 32768) & (3 <= tx) & (tx <= 32768)
}

// Nothing happened.
pub fn no_events() -> Events
    ensures { result ≡ no_events }
{
    Events::default()
}

// The state after create and reset.
#[tactic(auto, unfolding(crate::specs::Sizes::start_state))]
pub fn start(m: usize, rx: usize, tx: usize) -> State
    ensures { result ≡ start_state m rx tx }
{
    State {
        margin: m,
        regs: registers::start(),
        talker: talker::start(),
        remote: role::remote::start(),
        rx: store::emptied(rx),
        tx: store::emptied(tx),
        line: Line::default(),
        notes: Notes::default(),
        counts: Counts::default(),
    }
}

// Whether a state fits stores of these lengths.
pub fn state_fits(s: State, rx: usize, tx: usize) -> bool
    ensures { result ≡ fits s rx tx }
{
    store::ring_fits(rx, s.rx)
        & store::ring_fits(tx, s.tx)
        & sizes_obeyed(s.margin, rx, tx)
        & registers::registers_fit(s.regs)
        & talker::talker_fits(s.talker)
}
