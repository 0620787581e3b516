//! Labels through the ways out of marked nodes.
ghost use Rattle.std.specs.Prelude.{◌≡◌};
ghost use Rattle.dmf_path.specs.ClosedSide.{HasWaysOut, IsPassage};
ghost use Rattle.dmf_path.specs.Through.{passage_by};
ghost use Rattle.dmf_path.specs.Pair.{steps_of};

use crate::phase::relabel_through;
use crate::search::Search;
use crate::through::WaysOut;

/// What is known of the paths from the start to the goal, where the ways out of marked nodes are known.
#[derive(Clone, Copy, Drop)]
pub enum Passage {
    /// A path of so many links leaves the marked nodes once.
    Once(u32),
    /// No path is left.
    Closed,
    /// Nothing: an end is too far away.
    Unknown,
}

impl Search {
    /// Labels the nodes for the next path from the ways out of marked nodes, by a look at few links. If no path is left, changes marks, so
    /// that they are those of a closed side. Takes no memory.
    pub fn label_through(&mut self, ways: &WaysOut, marks: &mut [bool]) -> Passage
        requires { HasWaysOut self.old.nodes (steps_of self.old.pairs) self.old.start self.old.goal ways.now marks.old }
        ensures same { self.new ≡ self.old }
        ensures passage { IsPassage (steps_of self.old.pairs) self.old.start self.old.goal marks.old marks.new result }
    {
        self.is_fresh = false;
        let phase = &mut self.phase;
        phase.ball.keep_for(phase.trail.goal);
        phase.trail.settle(&mut phase.links);
        let passes = relabel_through(
            &phase.links,
            &mut phase.levels,
            &mut phase.ball,
            &mut phase.trail,
            ways,
            marks,
        );
        passage_of(passes, phase.levels.near.label(phase.trail.start))
    }
}

/// What is known where labels pass, with this label of the start; or do not pass; or were given up.
fn passage_of(passes: Option<bool>, long: u32) -> Passage
    ensures { result ≡ passage_by passes long }
{
    match passes {
        Some(true) => Passage::Once(long),
        Some(false) => Passage::Closed,
        None => Passage::Unknown,
    }
}
