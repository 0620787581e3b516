//! Laws about texts, each the contract of a function with an empty body.
ghost use Rattle.dmf_text.specs.Laws.{AcceptedIsState};

/// The law that a problem text without a fault stands for a state.
pub fn accepted_is_state()
    ensures { AcceptedIsState }
{}
