//! A device's talker: its role on the loop and the frame that it has under way. Stores, registers and what is sent are not known here.
#![tactic(auto)]

ghost use Rattle.std.specs.Prelude.{◌≡◌};
ghost use Rattle.talker.specs.Talker.{start_talker};
ghost use Rattle.talker.specs.Obeying.{obeyed_talker};
ghost use Rattle.talker.specs.Readied.{assigned_talker, finishing_talker};
ghost use Rattle.talker.specs.UnderWay.{talking, ended_talker};
ghost use Rattle.talker.specs.Returning.{return_of};
ghost use Rattle.talker.specs.TalkerFit.{fit_test};

use role::{ADDRESSED, Order, Role, SENDING_DATA, SENDING_STATUS};

// The frame under way, which calls keep without its service bit, and whether sending ends after it.
// Kept: the frame is a number and no Option, since a packed state keeps it while nothing is under way, and it must come back as it was.
#[derive(Clone, Copy, Default)]
pub struct Under {
    pub frame: u16,
    pub finishing: bool,
}

// The role, and the frame under way of an active talker.
#[derive(Clone, Copy)]
pub struct Talker {
    pub role: Role,
    pub under: Under,
}

// What a data frame is that comes back to an active talker: damage, the status byte, the last frame of all, or one that more may follow.
#[derive(Clone, Copy)]
pub enum Return {
    Damaged,
    StatusBack,
    Finished,
    Next,
}

// The talker after create and reset.
pub fn start() -> Talker
    ensures { result ≡ start_talker }
{
    Talker {
        role: role::start(),
        under: Under::default(),
    }
}

// The talker after an order; an active one forgets the frame under way.
#[tactic(auto, unfolding(crate::specs::Obeying::obeyed_talker, crate::specs::Obeying::forgotten))]
pub fn obeyed(t: Talker, o: Order) -> Talker
    ensures { result ≡ obeyed_talker t o }
{
    let under = if t.role.phase >= SENDING_DATA {
        Under::default()
    } else {
        t.under
    };
    Talker {
        role: role::obeyed(t.role, o),
        under,
    }
}

// The talker with the address that the ready byte d = 128+n gives.
pub fn assigned(t: Talker, d: u8) -> Talker
    ensures { result ≡ assigned_talker t d }
{
    Talker {
        role: role::assigned(t.role, d),
        ..t
    }
}

// Sending ends after the frame under way.
pub fn finishing(t: Talker) -> Talker
    ensures { result ≡ finishing_talker t }
{
    Talker {
        under: Under {
            finishing: true,
            ..t.under
        },
        ..t
    }
}

// The talker in another phase, with this frame under way.
#[tactic(auto, unfolding(crate::specs::UnderWay::talking))]
pub fn talking(t: Talker, phase: u8, f: u16) -> Talker
    ensures { result ≡ talking t phase f }
{
    Talker {
        role: role::with_phase(t.role, phase),
        under: Under {
            frame: f,
            finishing: false,
        },
    }
}

// Sending has ended: addressed, and no frame under way.
pub fn ended(t: Talker) -> Talker
    ensures { result ≡ ended_talker t }
{
    talking(t, ADDRESSED, 0)
}

// What the data frame f is that comes back.
#[tactic(auto, unfolding(crate::specs::Returning::return_of))]
pub fn return_of(t: Talker, f: u16) -> Return
    ensures { result ≡ return_of t f }
{
    if !frame::same_apart(f, t.under.frame) {
        return Return::Damaged;
    }
    if t.role.phase == SENDING_STATUS {
        return Return::StatusBack;
    }
    if t.under.finishing {
        return Return::Finished;
    }
    Return::Next
}

// Whether the role fits, and the frame under way is a data frame.
#[tactic(auto, unfolding(crate::specs::TalkerFit::fit_test))]
pub fn talker_fits(t: Talker) -> bool
    ensures { result ≡ fit_test t }
{
    role::role_fits(t.role) & (t.under.frame < 1024)
}
