//! What is left without each arc, without each node or without each pair of arcs, from bytes to bytes.
ghost use Rattle.dmf_valuing.specs.Laws.{ArcsHaveOneText, NodesHaveOneText, SecondsHaveOneText, WorstArcsHaveOneText, WorstNodesHaveOneText, WorstPairsHaveOneText};
ghost use Rattle.dmf_valuing.specs.PartRows.{ArePartRows, PartsLackRoom};
ghost use Rattle.dmf_valuing.specs.Rows.{AreArcRows, AreNodeRows, AreWorstArcRows, AreWorstNodeRows, AreWorstPairRows};
ghost use Rattle.dmf_valuing.specs.VitalRun.{RunsSecond, RunsVital, RunsVitalIn};

use crate::finding::find_rows;
use crate::laws::{
    arcs_have_one_text, nodes_have_one_text, seconds_have_one_text, worst_arcs_have_one_text,
    worst_nodes_have_one_text, worst_pairs_have_one_text,
};
use crate::parts::Parts;
use crate::rows::write_vital;
use dmf_solver::Watch;
use dmf_solving::solve_any;
use dmf_streams::{EngineFault, Status, flush, read_state};
use dmf_text::{Sink, Source};
use dmf_vital::ValuingWatch;
use std::alloc::Global;

/// Reads a problem, and finds its greatest value and what is left of it without each arc. Writes the value as `c value V`, then for each
/// arc in order, idle ones too, `v J WITHOUT`, and flushes. WITHOUT is the value of a greatest flow of the network in which arc number J
/// is closed. Reports to the watch what [`solve_from`](dmf_solving::solve_from) reports, and then how many arcs are valued.
///
/// Fails as [`run_solve`](dmf_solving::run_solve) does, and as if memory were refused if the watch ends it.
pub fn run_vital<P: Source, W: Sink, V: Watch + ValuingWatch>(
    alloc: Global,
    problem: &mut P,
    out: &mut W,
    watch: &mut V,
) -> Result<Status, EngineFault>
    ensures run { RunsVital AreArcRows (P.left problem.old) (P.left problem.new) (W.written out.old) (W.written out.new) result }
    ensures one_text { ArcsHaveOneText }
{
    arcs_have_one_text();
    run_valuing(alloc, Parts::Arcs, problem, out, watch)
}

/// Does what [`run_vital`] does, with `v J WITHOUT WITH` for each arc. WITH is the value of a greatest flow of the network with a second arc
/// beside arc number J.
///
/// Fails with [`EngineFault::NoRoom`], too, before it writes anything, if the network cannot take the second arcs: only if four more arcs of
/// the capacity of each arc pass the limits of a network.
pub fn run_vital_second<P: Source, W: Sink, V: Watch + ValuingWatch>(
    alloc: Global,
    problem: &mut P,
    out: &mut W,
    watch: &mut V,
) -> Result<Status, EngineFault>
    ensures run { RunsSecond (P.left problem.old) (P.left problem.new) (W.written out.old) (W.written out.new) result }
    ensures one_text { SecondsHaveOneText }
{
    seconds_have_one_text();
    run_valuing(alloc, Parts::Seconds, problem, out, watch)
}

/// Does what [`run_vital`] does, for each node but the source and the sink in place of each arc. WITHOUT is the value of a greatest flow of
/// the network in which each arc at node J is closed.
pub fn run_vital_nodes<P: Source, W: Sink, V: Watch + ValuingWatch>(
    alloc: Global,
    problem: &mut P,
    out: &mut W,
    watch: &mut V,
) -> Result<Status, EngineFault>
    ensures run { RunsVital AreNodeRows (P.left problem.old) (P.left problem.new) (W.written out.old) (W.written out.new) result }
    ensures one_text { NodesHaveOneText }
{
    nodes_have_one_text();
    run_valuing(alloc, Parts::Nodes, problem, out, watch)
}

/// Does what [`run_vital`] does, but lists only the `most` arcs that cost most to lose: the greatest loss first and, of equal ones, the
/// smaller number first.
pub fn run_vital_worst<P: Source, W: Sink, V: Watch + ValuingWatch>(
    alloc: Global,
    most: u32,
    problem: &mut P,
    out: &mut W,
    watch: &mut V,
) -> Result<Status, EngineFault>
    ensures run { RunsVital (AreWorstArcRows most) (P.left problem.old) (P.left problem.new) (W.written out.old) (W.written out.new) result }
    ensures one_text { WorstArcsHaveOneText }
{
    worst_arcs_have_one_text();
    run_valuing(alloc, Parts::WorstArcs(most), problem, out, watch)
}

/// Does what [`run_vital_worst`] does, for nodes, as [`run_vital_nodes`] values them.
pub fn run_vital_worst_nodes<P: Source, W: Sink, V: Watch + ValuingWatch>(
    alloc: Global,
    most: u32,
    problem: &mut P,
    out: &mut W,
    watch: &mut V,
) -> Result<Status, EngineFault>
    ensures run { RunsVital (AreWorstNodeRows most) (P.left problem.old) (P.left problem.new) (W.written out.old) (W.written out.new) result }
    ensures one_text { WorstNodesHaveOneText }
{
    worst_nodes_have_one_text();
    run_valuing(alloc, Parts::WorstNodes(most), problem, out, watch)
}

/// Does what [`run_vital_worst`] does, for pairs of arcs: `v I J WITHOUT`, where I is the smaller number. Of equal losses that of the smaller
/// I comes first, and of equal I that of the smaller J. WITHOUT is the value of a greatest flow of the network in which both arcs are
/// closed.
pub fn run_vital_worst_pairs<P: Source, W: Sink, V: Watch + ValuingWatch>(
    alloc: Global,
    most: u32,
    problem: &mut P,
    out: &mut W,
    watch: &mut V,
) -> Result<Status, EngineFault>
    ensures run { RunsVital (AreWorstPairRows most) (P.left problem.old) (P.left problem.new) (W.written out.old) (W.written out.new) result }
    ensures one_text { WorstPairsHaveOneText }
{
    worst_pairs_have_one_text();
    run_valuing(alloc, Parts::WorstPairs(most), problem, out, watch)
}

/// Reads a problem, and writes its greatest value and the rows of these parts.
#[inline(never)]
fn run_valuing<P: Source, W: Sink, V: Watch + ValuingWatch>(
    alloc: Global,
    parts: Parts,
    problem: &mut P,
    out: &mut W,
    watch: &mut V,
) -> Result<Status, EngineFault>
    ensures { RunsVitalIn (PartsLackRoom parts) (ArePartRows parts) (P.left problem.old) (P.left problem.new) (W.written out.old) (W.written out.new) result }
{
    let state = read_state(alloc, problem)?;
    let solved = solve_any(alloc, state, false, watch)?;
    let rows = find_rows(alloc, parts, &solved.state, watch)?;
    write_vital(solved.state.value(), &rows, out)?;
    flush(out)?;
    Ok(Status::Well)
}
