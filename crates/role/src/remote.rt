// The remote flags, which not every device on a loop has.
ghost use Rattle.std.specs.Prelude.{◌≡◌};
ghost use Rattle.role.specs.Remote.{start_remote, obeyed_remote};

use crate::Order;

// Whether a listen address makes remote, and whether the device is remote.
#[derive(Clone, Copy, Default)]
pub struct Remote {
    pub enabled: bool,
    pub remote: bool,
}

// The flags after create and reset.
pub fn start() -> Remote
    ensures { result ≡ start_remote }
{
    Remote::default()
}

// The flags after an order.
#[tactic(auto, unfolding(crate::specs::Remote::obeyed_remote))]
pub fn obeyed(m: Remote, o: Order) -> Remote
    ensures { result ≡ obeyed_remote m o }
{
    match o {
        Order::Listen => Remote {
            remote: m.remote | m.enabled,
            ..m
        },
        Order::Enable => Remote { enabled: true, ..m },
        Order::Disable => Remote::default(),
        Order::Local => Remote { remote: false, ..m },
        _ => m,
    }
}
