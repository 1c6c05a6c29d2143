ghost use Rattle.std.specs.Prelude.{◌≡◌};
ghost use Rattle.pb_core_flat.specs.Meets.{is_moving};
ghost use Rattle.pb_shape.specs.Places.{peer_of};
ghost use Rattle.pb_project_piece.specs.Ones.{end_guard};

use pb_affine::{Base, Guard};
use pb_core_language::CoreEnd;
use pb_local::Peer;

/// The guard that holds of the rank at an end alone. Takes no memory.
pub fn guard_at(end: CoreEnd) -> Guard
    ensures { result ≡ end_guard end }
{
    Guard {
        role: end.role,
        low: Some(end.at),
        high: Some(end.at),
        from: None,
        to: None,
    }
}

/// The rank at an end, as a peer. Takes no memory.
pub fn peer_of(end: CoreEnd) -> Peer
    ensures { result ≡ peer_of end }
{
    Peer {
        role: end.role,
        at: end.at,
    }
}

/// Whether the end moves with a foreach's variable.
pub(crate) fn is_moving(end: CoreEnd) -> bool
    ensures { result ≡ is_moving end }
{
    match end.at.base {
        Base::Fixed => false,
        Base::Param => false,
        Base::Var => true,
    }
}
