//! One send from a store of cells by the reading rule. It knows of the store only what the store promises.
#![tactic(auto)]

ghost use Rattle.std.specs.Prelude.{◌≡◌, ◌≤◌, get_or};
ghost use Rattle.store.specs.Ring.{Fit, held};
ghost use Rattle.reading.specs.Received.{item_of, received_in};
ghost use Rattle.reading.specs.Steps.{decision};
ghost use Rattle.sending.specs.Sending.{Skips, Goes, Sends};

use reading::{Decision, Item, Rule};
use store::Ring;

// What a send gives, a frame with its service bit off or none, and the ring after it.
#[derive(Clone, Copy)]
pub struct Sending {
    pub given: Option<u16>,
    pub ring: Ring,
}

// Kept: the slice and its ring are two arguments, with `Fit` in each contract. A type of both and its proofs are longer than the clauses it saves.

// What the k-th oldest cell stands for, and 0 where fewer are held.
#[tactic(auto, using(crate::proofs::Chain::past))]
fn oldest(s: &[u16], r: Ring, k: usize) -> Item
    requires { Fit s.now r }
    ensures { result ≡ item_of (get_or (held s.now r) k 0) }
{
    let cell = if k < r.len { store::look(s, r, k) } else { 0 };
    reading::item_of(cell)
}

// What the bytes held decide.
#[tactic(auto, using(crate::proofs::Chain::decided_met))]
fn decided(rule: Rule, s: &[u16], r: Ring) -> Decision
    requires { Fit s.now r }
    ensures { result ≡ decision rule (received_in (held s.now r)) }
{
    let a = oldest(s, r, 0);
    let b = oldest(s, r, 1);
    let c = oldest(s, r, 2);
    reading::decide(rule, r.len, a, b, c)
}

// Step 1 as often as it holds.
#[tactic(auto, using(crate::proofs::Chain::pair_enough, crate::proofs::Chain::left_again))]
fn skipped(rule: Rule, s: &[u16], r: Ring) -> Ring
    requires { Fit s.now r }
    ensures { Skips rule s.now r result }
{
    let mut q = r;
    while decided(rule, s, q) == Decision::Removed {
        q = store::drop_oldest(q, 2);
    }
    q
}

// The frame with these control bits that takes the n oldest bytes.
#[tactic(auto, using(crate::proofs::Chain::one_frame_met))]
fn one_frame(s: &[u16], q: Ring, control: u8, n: usize) -> Sending
    requires fit { Fit s.now q }
    requires n_le_len { n ≤ q.len }
    ensures { Goes s.now q control n result }
{
    let frame = frame::make(control, oldest(s, q, 0).byte);
    Sending {
        given: Some(frame),
        ring: store::drop_oldest(q, n),
    }
}

// One send: what it gives and what it leaves.
pub fn send_one(rule: Rule, s: &[u16], r: Ring) -> Sending
    requires { Fit s.now r }
    ensures { Sends rule s.now r result }
{
    let q = skipped(rule, s, r);
    match decided(rule, s, q) {
        Decision::End => one_frame(s, q, 2, 3),
        Decision::Data => one_frame(s, q, 0, 1),
        Decision::Wait | Decision::Removed => Sending {
            given: None,
            ring: q,
        },
    }
}
