//! Labels that are set aside, and taken up again.
ghost use Rattle.std.specs.Prelude.{◌≡◌};
ghost use Rattle.dmf_path.specs.Residual.{ResidualLinks};
ghost use Rattle.dmf_path.specs.Searching.{AreAside, AreUsable};

use crate::course::KeptEnd;
use crate::levels::Levels;
use std::mem::{replace, swap};

/// The nodes between which a search looks for paths.
#[derive(Clone, Copy)]
pub struct Ends {
    /// Where the paths begin.
    pub start: u32,
    /// Where they end.
    pub goal: u32,
}

/// Labels with their current links, and the ends between which they were used the last time.
#[derive(Drop)]
pub struct Aside {
    /// The labels.
    pub levels: Levels,
    /// The ends.
    pub ends: Ends,
}

impl Ends {
    /// Which of these ends the next ones have too.
    pub fn kept_by(self, next: Ends) -> KeptEnd {
        if self.start == next.start {
            return KeptEnd::Start;
        }
        if self.goal == next.goal {
            return KeptEnd::Goal;
        }
        KeptEnd::Neither
    }

    /// Whether both have the same start or the same goal.
    pub fn share_one(self, other: Ends) -> bool {
        self.start == other.start || self.goal == other.goal
    }
}

/// Exchanges the labels in use for the first ones set aside, if they were used between ends that share none with the next ones. Answers
/// the ends between which the labels that are in use then were used.
pub fn take_up(asides: &mut [Aside], levels: &mut Levels, used: Ends, next: Ends) -> Ends
    ensures { (r : ResidualLinks) → AreUsable levels.old r used.goal → AreAside asides.old r → AreUsable levels.new r result.goal × AreAside asides.new r }
{
    if asides.is_empty() || used.share_one(next) {
        return used;
    }
    let aside = &mut asides[0];
    swap(&mut aside.levels, levels);
    replace(&mut aside.ends, used)
}
