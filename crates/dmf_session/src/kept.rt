ghost use Rattle.dmf_history.specs.Timeline.{back, forward};
ghost use Rattle.dmf_session.specs.Kept.{KeepsPresent};
ghost use Rattle.dmf_solver.specs.KeptNetwork.{KeepsNetwork};
ghost use Rattle.dmf_state.specs.Edit.{applied, Fits};

use dmf_history::History;
use dmf_solver::ResidualNetwork;
use dmf_state::{Direction, Edit, State};
use std::alloc::Global;

/// The kept network, one state back. `None` if the history does not tell the edit, or if the network cannot follow it.
pub(crate) fn kept_before<H: History>(
    alloc: Global,
    kept: Option<ResidualNetwork>,
    history: &H,
) -> Option<ResidualNetwork>
    requires { KeepsPresent (H.timeline history.now) kept }
    ensures { KeepsPresent (back (H.timeline history.now) 1) result }
{
    kept?.follow(
        alloc,
        history.present(),
        history.last_edit()?,
        Direction::Back,
    )
}

/// The kept network, one state forward. `None` if the history does not give the edit, or if the network cannot follow it.
pub(crate) fn kept_after<H: History>(
    alloc: Global,
    kept: Option<ResidualNetwork>,
    history: &H,
) -> Option<ResidualNetwork>
    requires { KeepsPresent (H.timeline history.now) kept }
    ensures { KeepsPresent (forward (H.timeline history.now) 1) result }
{
    kept?.follow(
        alloc,
        history.present(),
        history.next_edit()?,
        Direction::Forward,
    )
}

/// The kept network after the edit.
pub(crate) fn kept_with(
    alloc: Global,
    kept: Option<ResidualNetwork>,
    present: &State,
    edit: &Edit,
) -> Option<ResidualNetwork>
    requires kept { KeepsNetwork present.now kept }
    requires fits { Fits edit.now present.now }
    ensures { KeepsNetwork (applied edit.now present.now) result }
{
    kept?.follow(alloc, present, edit, Direction::Forward)
}
