//! What C reads of a session. No call changes the session.
ghost use Rattle.std.specs.Prelude.{◌≡◌, pos, length};
ghost use Rattle.dmf_state.specs.Flow.{flow_value};
ghost use Rattle.dmf_history.specs.Timeline.{future_of};
ghost use Rattle.dmf_c.specs.Codes.{OfPresent};

use crate::handle::Handle;

/// The value of the present flow.
#[unsafe(no_mangle)]
pub extern "C" fn dmf_session_value(session: &mut Handle) -> u64
    ensures value { OfPresent session.old.timeline (λ s. pos result ≡ flow_value s.network s.flows) }
    ensures unchanged { session.new.timeline ≡ session.old.timeline }
{
    session.plan().present().value()
}

/// The number of states before the present one.
#[unsafe(no_mangle)]
pub extern "C" fn dmf_session_past(session: &mut Handle) -> u32
    ensures count { result ≡ session.old.timeline.place }
    ensures unchanged { session.new.timeline ≡ session.old.timeline }
{
    session.plan().past()
}

/// The number of states past the present one.
#[unsafe(no_mangle)]
pub extern "C" fn dmf_session_future(session: &mut Handle) -> u32
    ensures count { result ≡ future_of session.old.timeline }
    ensures unchanged { session.new.timeline ≡ session.old.timeline }
{
    session.plan().future()
}

/// The number of arcs, closed ones too.
#[unsafe(no_mangle)]
pub extern "C" fn dmf_session_arcs(session: &mut Handle) -> usize
    ensures count { OfPresent session.old.timeline (λ s. result ≡ length s.network.arcs) }
    ensures unchanged { session.new.timeline ≡ session.old.timeline }
{
    session.plan().present().arcs().len()
}

/// The number of nodes.
#[unsafe(no_mangle)]
pub extern "C" fn dmf_session_nodes(session: &mut Handle) -> u32
    ensures count { OfPresent session.old.timeline (λ s. result ≡ s.network.nodes) }
    ensures unchanged { session.new.timeline ≡ session.old.timeline }
{
    session.plan().present().nodes()
}

/// The source.
#[unsafe(no_mangle)]
pub extern "C" fn dmf_session_source(session: &mut Handle) -> u32
    ensures node { OfPresent session.old.timeline (λ s. result ≡ s.network.source) }
    ensures unchanged { session.new.timeline ≡ session.old.timeline }
{
    session.plan().present().source()
}

/// The sink.
#[unsafe(no_mangle)]
pub extern "C" fn dmf_session_sink(session: &mut Handle) -> u32
    ensures node { OfPresent session.old.timeline (λ s. result ≡ s.network.sink) }
    ensures unchanged { session.new.timeline ≡ session.old.timeline }
{
    session.plan().present().sink()
}
