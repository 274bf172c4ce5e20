//! The state of a mailbox by value, its start, and whether it fits two lent stores of cells.
#![tactic(auto)]

ghost use Rattle.std.specs.Prelude.{◌≡◌};
ghost use Rattle.mailstate.specs.Sizes.{sizes_obeyed, start_state, fits};

use bus::Bus;
use polls::Response;
use talker::Talker;
use way::Way;

// Not ready for data: whether a listener says so, whether it holds a frame back meanwhile, and which.
// Kept: held and frame are no Option, since a packed state keeps the frame while nothing is held, and a frame above 1023 is refused there too.
#[derive(Clone, Copy, Default)]
pub struct Hold {
    pub enabled: bool,
    pub held: bool,
    pub frame: u16,
}

// tobus: what the loop leaves for the bus. toloop: what the bus leaves for the loop. source: where the frames of an active talker come
// from, 0 for the way to the loop, and n from 1 to 10 for the device ID after its n first bytes.
// Kept: source is no enum, since the packed state has a byte for it, and calls must refuse a number above 10 as a misfit, with 2.
#[derive(Clone, Copy)]
pub struct State {
    pub tobus: Way,
    pub toloop: Way,
    pub talker: Talker,
    pub source: u8,
    pub hold: Hold,
    pub response: Response,
    pub bus: Bus,
}

// What a call on such a state answers, and the state after it.
pub type Outcome = answers::Outcome<State>;

// Whether create takes stores of these lengths and this bus address.
#[tactic(auto, unfolding(crate::specs::Sizes::sizes_obeyed))]
pub fn sizes_obeyed(address: u32, tobus: usize, toloop: usize) -> bool
    ensures { result ≡ sizes_obeyed address tobus toloop }
{
    (address <= 30) & ((1 <= tobus) & (tobus <= 32768)) & ((1 <= toloop) & (toloop <= 32768))
}

// The state after create and reset.
#[tactic(auto, unfolding(crate::specs::Sizes::start_state))]
pub fn start(address: u8, tobus: usize, toloop: usize) -> State
    ensures { result ≡ start_state address tobus toloop }
{
    State {
        tobus: way::empty(tobus),
        toloop: way::empty(toloop),
        talker: talker::start(),
        source: 0,
        hold: Hold::default(),
        response: polls::none(),
        bus: bus::start(address),
    }
}

// Whether a state fits stores of these lengths.
#[tactic(auto, unfolding(crate::specs::Sizes::fits))]
pub fn state_fits(s: State, tobus: usize, toloop: usize) -> bool
    ensures { result ≡ fits s tobus toloop }
{
    let ways = way::way_fits(tobus, s.tobus) & way::way_fits(toloop, s.toloop);
    let loopside = talker::talker_fits(s.talker)
        & (s.source <= 10)
        & (s.hold.frame < 1024)
        & polls::response_fits(s.response);
    ways & loopside & bus::bus_fits(s.bus)
}
