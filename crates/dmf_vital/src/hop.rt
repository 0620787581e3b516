ghost use Rattle.std.specs.Prelude.{◌≡◌, ◌≤◌};
ghost use Rattle.dmf_vital.specs.Hop.{from_of, to_of, room_of, turned};

use dmf_state::Arc;

/// A residual step over an arc: along it, or against it.
#[derive(Clone, Copy)]
pub struct Hop {
    /// The arc's number.
    pub arc: u32,
    /// Whether the step leads from head to tail.
    pub against: bool,
}

/// The node from which a step over the arc leads.
pub fn from_of(against: bool, arc: Arc) -> u32
    ensures { result ≡ from_of against arc }
{
    if against { arc.head } else { arc.tail }
}

/// The node to which a step over the arc leads.
pub fn to_of(against: bool, arc: Arc) -> u32
    ensures { result ≡ to_of against arc }
{
    if against { arc.tail } else { arc.head }
}

/// The residual capacity of a step over an arc with this flow.
pub fn room_of(against: bool, arc: Arc, flow: u64) -> u64
    requires { flow ≤ arc.cap }
    ensures { result ≡ room_of against arc flow }
{
    if against { flow } else { arc.cap - flow }
}

/// The direction over the arc of the step that a search goes over: from behind it goes over steps the other way.
pub fn turned(back: bool, against: bool) -> bool
    ensures { result ≡ turned back against }
{
    if back { !against } else { against }
}
