//! What a store of cells does besides: its newest cell is written again. The store is the ring of crate store.
#![tactic(auto)]

ghost use Rattle.std.specs.Prelude.{◌<◌};
ghost use Rattle.store.specs.Ring.{Fit};
ghost use Rattle.cells.specs.Newest.{Replaced};

use store::Ring;

// Writes c over the newest cell; no other cell is written.
pub fn replace_newest<T: Copy>(s: &mut [T], r: Ring, c: T)
    requires fit { Fit s.old r }
    requires len_nonzero { 0 < r.len }
    ensures { Replaced s.old r c s.new }
{
    s[store::place_of(r, r.len - 1)] = c;
}
