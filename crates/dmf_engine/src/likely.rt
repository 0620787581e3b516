ghost use Rattle.std.specs.Prelude.{◌≡◌, length, IfOk, IfSome};

use crate::direction::PushDirection;
use crate::engine::Engine;
use crate::levels::find_level_cuts;
use crate::links::PackedLinks;
use crate::phases::{Phases, PhasesEnd};
use crate::trees::Trees;
use dmf_state::{Arc, NoMemory};
use std::alloc::Global;

/// What the engine finds.
#[derive(Drop)]
pub struct Likely {
    /// Some flow of the network, likely a greatest one: one number for each arc, in their order.
    pub flows: Vec<u64>,
    /// For each node, from index 1 on, whether it is on the source's side of a cut, likely a minimum one.
    pub marks: Vec<bool>,
}

/// Some flow of the network and a cut, likely greatest and least. Of the three stages, the last may take, for n nodes and m arcs, twice
/// 32 (n + 1)(n + m) looks and pushes, and not less than twice 20,000 (n + m); the others take less. If its first half spends that, the
/// flow is not greatest; if its second half does, the answer is `None`.
///
/// The same arguments give the same answer. No contract says that it is a flow or a cut: judge them, as `State::with_flows` and
/// `is_saturated_cut` do. Takes 32 bytes an arc, for two links, and some 57 a node; at last 8 an arc, for the flow, in place of those of the
/// nodes. Fails only if memory is refused.
pub fn likely_greatest(
    alloc: Global,
    nodes: u32,
    source: u32,
    sink: u32,
    arcs: &[Arc],
) -> Result<Option<Likely>, NoMemory>
    ensures { IfOk result (λ answer. IfSome answer (λ likely. length likely.flows.items ≡ length arcs.now)) }
{
    let mut links = PackedLinks::new(alloc, nodes, arcs)?;
    let forward = PushDirection::forward(source, sink);
    if let Some(marks) = cut_by_paths(alloc, nodes, forward, &mut links)? {
        let flows = flows_of(alloc, links, arcs)?;
        return Ok(Some(Likely { flows, marks }));
    }
    let cuts = find_level_cuts(alloc, &links, nodes, forward)?;
    let mut engine = Engine::new(alloc, links, nodes, cuts.direction(source, sink))?;
    let count = arcs.len() as u64;
    engine.budget = usual_budget(nodes, count);
    engine.push_to_goal(u64::from(nodes).wrapping_mul(6).wrapping_add(count));
    let marks = engine.cut(alloc)?;
    engine.budget = usual_budget(nodes, count);
    if !engine.give_back(alloc)? {
        return Ok(None);
    }
    let flows = flows_of(alloc, engine.into_links(), arcs)?;
    Ok(Some(Likely { flows, marks }))
}

/// Sends flow over paths while that pays: shortest ones in phases, then those on which two trees meet. If no path is left, answers for each
/// node whether it is on the source's side of a cut.
fn cut_by_paths(
    alloc: Global,
    nodes: u32,
    forward: PushDirection,
    links: &mut PackedLinks,
) -> Result<Option<Vec<bool>>, NoMemory> {
    let mut phases = Phases::new(alloc, nodes, forward)?;
    let end = phases.send_all(links);
    if end.is_greatest {
        return Ok(Some(phases.cut(alloc)?));
    }
    cut_by_trees(alloc, nodes, forward, links, end)
}

/// Sends flow over the paths on which two trees meet, if that is likely to pay after these phases.
fn cut_by_trees(
    alloc: Global,
    nodes: u32,
    forward: PushDirection,
    links: &mut PackedLinks,
    end: PhasesEnd,
) -> Result<Option<Vec<bool>>, NoMemory> {
    if !do_trees_pay(alloc, nodes, forward, links, end)? {
        return Ok(None);
    }
    let mut trees = Trees::new(alloc, nodes, forward)?;
    let round = (links.all.len() as u64).wrapping_add(u64::from(nodes));
    if !trees.send_all(links, round.saturating_mul(ROUNDS)) {
        return Ok(None);
    }
    Ok(Some(trees.cut(alloc)?))
}

/// How many times the trees may look at each node and link.
const ROUNDS: u64 = 3;

/// Whether trees are likely to pay: many paths were found, and not more and more of them, or the ends are near and little can be left.
fn do_trees_pay(
    alloc: Global,
    nodes: u32,
    forward: PushDirection,
    links: &PackedLinks,
    end: PhasesEnd,
) -> Result<bool, NoMemory> {
    if end.found_many {
        return Ok(!end.found_more);
    }
    if !end.was_near {
        return Ok(false);
    }
    let cuts = find_level_cuts(alloc, links, nodes, forward)?;
    Ok(cuts.least() <= u64::from(nodes) / 100)
}

/// The flow on each arc.
fn flows_of(alloc: Global, links: PackedLinks, arcs: &[Arc]) -> Result<Vec<u64>, NoMemory>
    ensures { IfOk result (λ flows. length flows.items ≡ length arcs.now) }
{
    let mut links = links;
    let mut flows = vec![in alloc; 0u64; arcs.len()]?;
    links.put_flows(arcs, &mut flows);
    Ok(flows)
}

/// How many looks and pushes half of the last stage may take.
fn usual_budget(nodes: u32, arcs: u64) -> u64 {
    let size = u64::from(nodes).saturating_add(arcs);
    let times = u64::from(nodes).saturating_add(1).saturating_mul(32);
    size.saturating_mul(times.max(20_000))
}
