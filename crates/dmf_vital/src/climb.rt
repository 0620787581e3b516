use crate::along::Carried;
use crate::chains::Chains;
use crate::cursor::{begin_at, next_hop, no_steps};
use crate::grown::{
    CUT, Grown, Growth, end_of, find, grown_at, has_room, is_over_exit, is_sound, note_at, start_of,
};
use crate::hop::{Hop, turned};
use crate::search::Steps;
use std::alloc::AllocError;

/// Finds a path over this step, by which both ends have met. Its steps are those of the growth's `way`. Returns the exit that it leads to the
/// head of; 0 if there is none.
pub fn find_way(
    steps: &Steps,
    along: &Chains,
    against: &Chains,
    hop: Hop,
    growth: &mut Growth,
) -> Result<u32, AllocError> {
    if !has_room(steps, hop) {
        return Ok(0);
    }
    growth.way.clear();
    let root = climb(steps, along, against, start_of(steps, hop), false, growth)?;
    if root == 0 {
        return Ok(0);
    }
    for k in (0..growth.trail.len()).rev() {
        let by = grown_at(growth, growth.trail[k]);
        growth.way.push(by.hop)?;
    }
    growth.way.push(hop)?;
    let last = climb(steps, along, against, end_of(steps, hop), true, growth)?;
    for k in 0..growth.trail.len() {
        let by = grown_at(growth, growth.trail[k]);
        growth.way.push(by.hop)?;
    }
    for _ in growth.before.len()..growth.way.len() {
        growth.before.push(Carried { index: 0, flow: 0 })?;
    }
    Ok(grown_at(growth, last).exit)
}

/// Goes from node `v` to a root of its end, over steps with room to nodes of smaller places. A node from which none leads on is cut off.
/// Returns the root; 0 if the node is cut off itself.
fn climb(
    steps: &Steps,
    along: &Chains,
    against: &Chains,
    v: u32,
    back: bool,
    growth: &mut Growth,
) -> Result<u32, AllocError> {
    growth.trail.clear();
    if !is_sound(growth, v, back) {
        return Ok(0);
    }
    let mut u = v;
    for _ in 0..u64::MAX {
        let by = grown_at(growth, u);
        growth.climbed = growth.climbed.wrapping_add(1);
        if by.hop.arc == 0 {
            if is_live(steps, by.exit) {
                return Ok(u);
            }
        } else if leads_on(steps, by, back, growth) {
            growth.trail.push(u)?;
            u = nearer(steps, by.hop, back);
            continue;
        } else if hang(steps, along, against, u, back, growth) {
            continue;
        }
        note_at(growth, u, Grown { place: CUT, ..by });
        growth.cut.push(u)?;
        match growth.trail.pop() {
            Some(w) => u = w,
            None => return Ok(0),
        }
    }
    Ok(0)
}

/// Whether a root still has flow to be moved: the one ahead, or one whose exit carries some.
fn is_live(steps: &Steps, exit: u32) -> bool {
    let hop = Hop {
        arc: exit,
        against: true,
    };
    exit == 0 || has_room(steps, hop)
}

/// The node to which the step of a found node joins it.
fn nearer(steps: &Steps, hop: Hop, back: bool) -> u32 {
    if back {
        end_of(steps, hop)
    } else {
        start_of(steps, hop)
    }
}

/// Whether the step of a found node has room, and joins it to a sound one with a smaller place.
fn leads_on(steps: &Steps, by: Grown, back: bool, growth: &Growth) -> bool {
    let v = nearer(steps, by.hop, back);
    has_room(steps, by.hop) && is_sound(growth, v, back) && grown_at(growth, v).place < by.place
}

/// Looks for another such step of node `u`, each of its steps once. Returns whether there is one.
fn hang(
    steps: &Steps,
    along: &Chains,
    against: &Chains,
    u: u32,
    back: bool,
    growth: &mut Growth,
) -> bool {
    let mut by = grown_at(growth, u);
    if !by.begun {
        by.begun = true;
        by.left = begin_at(along, against, (u as usize).wrapping_sub(1));
    }
    for _ in 0..u64::MAX {
        let hop = next_hop(&mut by.left, along, against);
        if hop.arc == 0 || growth.spare == 0 {
            by.left = no_steps();
            note_at(growth, u, by);
            return false;
        }
        growth.spare -= 1;
        growth.climbed = growth.climbed.wrapping_add(1);
        by.hop = Hop {
            arc: hop.arc,
            against: turned(!back, hop.against),
        };
        if leads_on(steps, by, back, growth) && !is_over_exit(steps, hop) {
            note_at(growth, u, by);
            return true;
        }
    }
    false
}

/// Hangs the nodes that were cut off below sound ones. A node for which none is found is free again.
pub fn mend(
    steps: &Steps,
    along: &Chains,
    against: &Chains,
    growth: &mut Growth,
) -> Result<(), AllocError> {
    let looks = growth.reach.looks.wrapping_add(growth.reach_behind.looks) / 2;
    let begun = growth.climbed;
    if growth.mended < looks {
        let end = begun.wrapping_add(looks - growth.mended);
        for k in 0..usize::MAX {
            if k >= growth.cut.len() {
                break;
            }
            hang_anew(steps, along, against, growth.cut[k], end, growth)?;
        }
    }
    growth.mended = growth
        .mended
        .wrapping_add(growth.climbed.wrapping_sub(begun));
    growth.cut.clear();
    Ok(())
}

/// Hangs node `u`, which was cut off, below a sound one. It then comes last in the order of its end, and its steps are looked at again. Stops
/// looking once climbs have looked at `end` steps in all.
fn hang_anew(
    steps: &Steps,
    along: &Chains,
    against: &Chains,
    u: u32,
    end: u64,
    growth: &mut Growth,
) -> Result<(), AllocError> {
    let mut by = grown_at(growth, u);
    let back = by.mark == growth.mark.wrapping_add(1);
    if by.place != CUT || !back && by.mark != growth.mark {
        return Ok(());
    }
    let mut left = begin_at(along, against, (u as usize).wrapping_sub(1));
    for _ in 0..u64::MAX {
        let hop = next_hop(&mut left, along, against);
        if hop.arc == 0 || growth.climbed >= end {
            break;
        }
        growth.climbed = growth.climbed.wrapping_add(1);
        let step = Hop {
            arc: hop.arc,
            against: turned(!back, hop.against),
        };
        if has_room(steps, step) && !is_over_exit(steps, step) {
            let v = nearer(steps, step, back);
            if climb(steps, along, against, v, back, growth)? != 0 {
                return find(growth, u, back, step, 0);
            }
        }
    }
    by.mark = 0;
    note_at(growth, u, by);
    Ok(())
}
