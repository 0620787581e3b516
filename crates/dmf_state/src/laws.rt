ghost use Rattle.dmf_state.specs.Laws.{HasOneBefore, GivesBack};

/// The law that an edit can be reverted in one way only: if it makes the same state of two states that it fits, these two are
/// the same.
pub fn edit_has_one_state_before()
    ensures { HasOneBefore }
{}

/// The law that reverting after applying gives back the state, flows included.
pub fn reverting_gives_back()
    ensures { GivesBack }
{}
