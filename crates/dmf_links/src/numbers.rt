//! For each link the index of its pair.
ghost use Rattle.std.specs.Prelude.{◌≡◌, ℕ, ◌+◌, ◌^◌, ◌<◌, ◌≤◌, true, List, length, replicate, slice_index, IfOk, IfSome};
ghost use Rattle.dmf_links.specs.Links.{ArePlaces, Links};
ghost use Rattle.dmf_links.specs.LinkTable.{links_of};
ghost use Rattle.dmf_links.specs.Numbers.{AreNumbers, AreNumberedAlong, AreOthersNumbered, MayBeNumbered, no_number};

use crate::places::Places;
use crate::stack::put_two;
use crate::table::LinkTable;
use std::alloc::{AllocError, Global};
use std::rc::Rc;

/// The number of a link that has none yet.
const NO_NUMBER: u32 = u32::MAX;

/// For each link the index of its pair. Takes memory for a number a link.
///
/// The links along come first. A walk that gave each pair's both links its index at once would take four times as long where arcs stand
/// in no order: each turn would wait for a place that the turn has to look up.
pub fn number_links(
    alloc: Global,
    table: &LinkTable,
    places: &Places,
) -> Result<Vec<u32>, AllocError>
    requires { ArePlaces (links_of table.now) places.now }
    ensures { IfOk result (λ numbers. AreNumbers (links_of table.now) places.now numbers.items) }
{
    let mut numbers = vec![in alloc; NO_NUMBER; table.heads.len()]?;
    number_along(table, places, &mut numbers);
    number_against(table, places, &mut numbers);
    Ok(numbers)
}

/// Gives the link along each pair the pair's index, where no link has a number.
fn number_along(table: &LinkTable, places: &Places, numbers: &mut [u32])
    requires places { ArePlaces (links_of table.now) places.now }
    requires none { numbers.old ≡ replicate (length table.now.heads.items) no_number }
    ensures { AreNumberedAlong (links_of table.now) places.now (length places.now) numbers.new }
{
    for k in 0..places.len() {
        if let Some(place) = places.place_of(k) {
            numbers[place as usize] = k as u32;
        }
    }
}

/// Gives each link that has no number that of its opposite.
fn number_against(table: &LinkTable, places: &Places, numbers: &mut [u32])
    requires places { ArePlaces (links_of table.now) places.now }
    requires along { AreNumberedAlong (links_of table.now) places.now (length places.now) numbers.old }
    ensures { AreNumbers (links_of table.now) places.now numbers.new }
{
    for place in 0..numbers.len() {
        if numbers[place] == NO_NUMBER {
            numbers[place] = numbers[table.partners[place] as usize];
        }
    }
}

/// These numbers, if there are some: searches share them from then on. Takes no memory.
pub fn share_known(numbers: &Option<Rc<Vec<u32>>>) -> Option<Rc<Vec<u32>>>
    ensures { (l : Links) (places : List ℕ) → MayBeNumbered l places numbers.now → MayBeNumbered l places result }
{
    let Some(known) = numbers else {
        return None;
    };
    let Ok(shared) = known.clone() else {
        return None;
    };
    Some(shared)
}

/// Numbers the links of the last pair, which was put on, if the others are numbered and no other search has the numbers. Takes no memory.
pub fn number_last(
    table: &LinkTable,
    places: &Places,
    numbers: Option<Rc<Vec<u32>>>,
) -> Option<Rc<Vec<u32>>>
    requires places { ArePlaces (links_of table.now) places.now }
    requires others { AreOthersNumbered (links_of table.now) places.now numbers }
    ensures { MayBeNumbered (links_of table.now) places.now result }
{
    let mut known = numbers?;
    let count = places.len();
    if count == 0 {
        return None;
    }
    if let Some(place) = places.place_of(count - 1) {
        let last = count as u32 - 1;
        let opposite = table.opposite(place);
        put_two(Rc::get_mut(&mut known)?, place, last, opposite, last);
    }
    Some(known)
}
