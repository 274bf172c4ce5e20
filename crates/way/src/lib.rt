//! One way of a mailbox: the cells that were left and not yet fetched, and what the side that fetches them is told of it.
#![tactic(auto)]

ghost use Rattle.std.specs.Prelude.{◌≡◌, ◌≤◌};
ghost use Rattle.store.specs.Ring.{Within, Fit};
ghost use Rattle.way.specs.Way.{empty_way, fetched, told, fit_test, Left};

use news::News;
use store::Ring;

// The ring on the way's store, and the status byte of the side that fetches.
#[derive(Clone, Copy)]
pub struct Way {
    pub ring: Ring,
    pub news: News,
}

// A way with a store of this many cells, in which nothing waits.
#[tactic(auto, unfolding(crate::specs::Way::empty_way))]
pub fn empty(cap: usize) -> Way
    ensures { result ≡ empty_way cap }
{
    Way {
        ring: store::emptied(cap),
        news: news::none(),
    }
}

// Leaves the cell c; the first that waits is news. A full store stays as it was.
// Kept: the way is set in place, here and in the next: one that is made of its parts is also copied by its parts, by which a loop frame takes
// more stack.
#[tactic(auto, using(crate::proofs::Parts::left_met))]
pub fn leave(s: &mut [u16], w: Way, c: u16) -> Way
    requires { Fit s.old w.ring }
    ensures { Left s.old w c s.new result }
{
    let mut q = w;
    q.ring = store::put(s, w.ring, c).after.unwrap_or(w.ring);
    if w.ring.len == 0 {
        q.news = news::came();
    }
    q
}

// The way without its oldest cell; where none is left nothing is told any more.
#[tactic(auto, unfolding(crate::specs::Way::fetched))]
pub fn fetched(w: Way) -> Way
    requires within { Within w.ring }
    requires le_len { 1 ≤ w.ring.len }
    ensures { result ≡ fetched w }
{
    let mut q = w;
    q.ring = store::drop_oldest(w.ring, 1);
    if w.ring.len == 1 {
        q.news = news::none();
    }
    q
}

// The way with other news.
pub fn told(w: Way, news: News) -> Way
    ensures { result ≡ told w news }
{
    Way { news, ..w }
}

// Whether the way's ring fits a store of this many cells.
pub fn way_fits(cap: usize, w: Way) -> bool
    ensures { result ≡ fit_test cap w }
{
    store::ring_fits(cap, w.ring)
}
