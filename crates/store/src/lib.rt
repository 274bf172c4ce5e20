//! A store: a ring of bytes on a lent slice, or of items of any other type that is copied. The bookkeeping is a struct by value, which knows the
//! slice's length.
#![tactic(auto)]

ghost use Rattle.std.specs.Prelude.{◌≡◌, ◌+◌, ◌≤◌, ◌<◌, get_or};
ghost use Rattle.store.specs.Ring.{Within, Fit, fit_test, wrap, held, empty_ring, room};
ghost use Rattle.store.specs.Promises.{Offering, Put, Dropped, Spanned, Shown};

// The capacity, the place of the oldest item, and how many are held.
// Kept: that oldest and len are within cap is asked by each call and is no invariant of the type, since a caller can hand in any ring, and a call
// of a product must refuse it.
#[derive(Clone, Copy)]
pub struct Ring {
    pub cap: usize,
    pub oldest: usize,
    pub len: usize,
}

// The answer to an item offered: the ring after it, none where nothing went in, and the room that is left.
#[derive(Clone, Copy)]
pub struct Offered {
    pub after: Option<Ring>,
    pub room: usize,
}

// The places from start up to, and without, end.
// Kept: no range of std's, and below no minimum of it, since a store names and calls nothing that could divide.
#[derive(Clone, Copy)]
pub struct Stretch {
    pub start: usize,
    pub end: usize,
}

// The place p, gone round by a comparison where it is past the last.
#[tactic(auto, using(crate::proofs::Laws::wrap_low, crate::proofs::Laws::wrap_high))]
fn place(cap: usize, p: usize) -> usize
    requires { p < cap + cap }
    ensures { (result ≡ wrap cap p) × (result < cap) }
{
    if p >= cap { p - cap } else { p }
}

// Whether a ring fits a slice of this length: what a caller asks of a ring that was handed in.
#[tactic(auto, unfolding(crate::specs::Ring::fit_test))]
pub fn ring_fits(cap: usize, r: Ring) -> bool
    ensures { result ≡ fit_test cap r }
{
    (r.cap == cap) & (r.oldest < cap) & (r.len <= cap) & (cap <= 32768)
}

// A ring of this capacity that holds nothing and stores its first item at place 0.
pub fn emptied(cap: usize) -> Ring
    ensures { result ≡ empty_ring cap }
{
    Ring {
        cap,
        oldest: 0,
        len: 0,
    }
}

// How many items more a store takes.
pub fn room(r: Ring) -> usize
    requires { Within r }
    ensures { result ≡ room r }
{
    r.cap - r.len
}

// The place of the k-th oldest item, from 0, and that of the next one where k are held.
pub fn place_of(r: Ring, k: usize) -> usize
    requires within { Within r }
    requires k_le_len { k ≤ r.len }
    ensures { (result ≡ wrap r.cap (r.oldest + k)) × (result < r.cap) }
{
    place(r.cap, r.oldest + k)
}

// What an item offered finds: the ring after it, none where the store is full, and the room that is left.
pub fn offer(r: Ring) -> Offered
    requires { Within r }
    ensures { Offering r result }
{
    if r.len >= r.cap {
        return Offered {
            after: None,
            room: 0,
        };
    }
    let after = Ring {
        len: r.len + 1,
        ..r
    };
    Offered {
        after: Some(after),
        room: room(after),
    }
}

// The ring without the n oldest items, which stay written where they are.
#[tactic(auto, using(crate::proofs::Laws::drop_met))]
pub fn drop_oldest(r: Ring, n: usize) -> Ring
    requires within { Within r }
    requires n_le_len { n ≤ r.len }
    ensures { Dropped r n result }
{
    Ring {
        oldest: place(r.cap, r.oldest + n),
        len: r.len - n,
        ..r
    }
}

// The longest unbroken run of places from that of the oldest item.
pub fn unbroken(r: Ring) -> Stretch
    requires { Within r }
    ensures { Spanned r result }
{
    if r.len <= r.cap - r.oldest {
        Stretch {
            start: r.oldest,
            end: r.oldest + r.len,
        }
    } else {
        Stretch {
            start: r.oldest,
            end: r.cap,
        }
    }
}

// Stores b behind the newest item; a full store stays as it was.
// Kept: functions and no methods, on a slice and a ring, as the pages of promises and the contracts of other crates name them.
pub fn put<T: Copy>(s: &mut [T], r: Ring, b: T) -> Offered
    requires { Fit s.old r }
    ensures { Put s.old r b s.new result }
{
    let o = offer(r);
    if let Some(_) = o.after {
        s[place_of(r, r.len)] = b;
    }
    o
}

// The k-th oldest item, from 0.
#[tactic(auto, using(crate::proofs::Laws::held_item))]
pub fn look<T: Copy>(s: &[T], r: Ring, k: usize) -> T
    requires fit { Fit s.now r }
    requires k_lt_len { k < r.len }
    ensures { (d : T) → result ≡ get_or (held s.now r) k d }
{
    s[place_of(r, k)]
}

// The longest unbroken run of items from the oldest one.
pub fn show<T>(s: &[T], r: Ring) -> &[T]
    requires { Fit s.now r }
    ensures { Shown s.now r result.now }
{
    let p = unbroken(r);
    &s[p.start..p.end]
}
