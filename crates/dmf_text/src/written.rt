//! Writing problem, solution and cut texts.
ghost use Rattle.std.specs.Prelude.{◌≡◌, ◌≤◌, ◌<◌, ◌∷◌, [], Ok, not, if◌then◌else◌, codes, decimal, length, map};
ghost use Rattle.std.specs.List.{zip};
ghost use Rattle.dmf_state.specs.NetworkState.{IsState};
ghost use Rattle.dmf_text.specs.LineField.{field_bytes, most_line_bytes};
ghost use Rattle.dmf_text.specs.Problem.{problem_of};
ghost use Rattle.dmf_text.specs.Writing.{Writes};
ghost use Rattle.dmf_text.specs.Written.{written_line, arcs_text, flows_text, nodes_text, problem_text, solution_text, cut_text, open_network, idle_state};

use crate::line_buffer::LineField::{Number, Text};
use crate::line_buffer::{LineField, line_of};
use crate::writer::{Sink, WriteFault, put_all};
use dmf_state::{Arc, Side, SideIds, State};

/// Writes the problem of a state's network: the problem line, the node lines, and a line for each open arc in order. Puts each line at
/// once. Takes no memory, and does not flush.
///
/// Read again, the text gives the network of the open arcs, without flow.
pub fn write_problem<W: Sink>(state: &State, out: &mut W) -> Result<(), WriteFault>
    ensures written { Writes (W.written out.old) (W.written out.new) result (problem_text state.now.network) }
    ensures stands { problem_of (problem_text state.now.network) ≡ Ok (idle_state (open_network state.now.network)) }
{
    put_problem(state, out)
}

/// Writes the solution of a state: the value of its flow, and then the flow on each open arc in order, also where it is 0. Puts each
/// line at once. Takes no memory, and does not flush.
pub fn write_solution<W: Sink>(state: &State, out: &mut W) -> Result<(), WriteFault>
    ensures written { Writes (W.written out.old) (W.written out.new) result (solution_text state.now) }
{
    put_line(&[Text(b"s"), Number(state.value())], out)?;
    put_flow_lines(state, out)
}

/// Writes a cut: its capacity, and then the nodes of its side, ascending. Puts each line at once. Takes no memory, and does not flush.
pub fn write_cut<W: Sink>(side: &Side, out: &mut W) -> Result<(), WriteFault>
    ensures written { Writes (W.written out.old) (W.written out.new) result (cut_text side.now) }
{
    put_line(&[Text(b"c"), Text(b"cut"), Number(side.capacity())], out)?;
    put_nodes(side.ids(), out)
}

fn put_problem<W: Sink>(state: &State, out: &mut W) -> Result<(), WriteFault>
    ensures written { Writes (W.written out.old) (W.written out.new) result (problem_text state.now.network) }
    ensures state { IsState state.now }
{
    let (nodes, arcs) = (u64::from(state.nodes()), u64::from(state.open_count()));
    put_line(
        &[Text(b"p"), Text(b"max"), Number(nodes), Number(arcs)],
        out,
    )?;
    put_terminal(state.source(), b"s", out)?;
    put_terminal(state.sink(), b"t", out)?;
    put_arcs(state.arcs(), out)
}

// Writes the node line of a terminal.
fn put_terminal<W: Sink>(node: u32, letter: &[u8], out: &mut W) -> Result<(), WriteFault>
    requires { length letter.now ≤ 1 }
    ensures { Writes (W.written out.old) (W.written out.new) result (written_line (codes "n" ∷ decimal node ∷ letter.now ∷ [])) }
{
    put_line(&[Text(b"n"), Number(u64::from(node)), Text(letter)], out)
}

fn put_arcs<W: Sink>(arcs: &[Arc], out: &mut W) -> Result<(), WriteFault>
    ensures { Writes (W.written out.old) (W.written out.new) result (arcs_text arcs.now) }
{
    for arc in arcs {
        put_arc(b"a", arc, arc.cap, out)?;
    }
    Ok(())
}

// Writes the line of each open arc with its flow.
fn put_flow_lines<W: Sink>(state: &State, out: &mut W) -> Result<(), WriteFault>
    ensures { Writes (W.written out.old) (W.written out.new) result (flows_text (zip state.now.network.arcs state.now.flows)) }
{
    let arcs = state.arcs();
    for i in 0..arcs.len() {
        put_arc(b"f", &arcs[i], state.flow(i as u32 + 1), out)?;
    }
    Ok(())
}

// Writes an arc's line, unless it is closed.
fn put_arc<W: Sink>(letter: &[u8], arc: &Arc, has: u64, out: &mut W) -> Result<(), WriteFault>
    requires { length letter.now ≤ 1 }
    ensures { Writes (W.written out.old) (W.written out.new) result
        (if not arc.now.closed then written_line (letter.now ∷ decimal arc.now.tail ∷ decimal arc.now.head ∷ decimal has ∷ []) else []) }
{
    if arc.closed {
        return Ok(());
    }
    let (tail, head) = (u64::from(arc.tail), u64::from(arc.head));
    put_line(
        &[Text(letter), Number(tail), Number(head), Number(has)],
        out,
    )
}

// Writes a line for each node of a side.
fn put_nodes<W: Sink>(ids: SideIds, out: &mut W) -> Result<(), WriteFault>
    ensures { Writes (W.written out.old) (W.written out.new) result (nodes_text ids.entry) }
{
    for id in ids {
        put_line(&[Text(b"c"), Text(b"side"), Number(u64::from(id))], out)?;
    }
    Ok(())
}

// Writes the line of these fields.
#[inline(always)]
fn put_line<W: Sink>(fields: &[LineField<'_>], out: &mut W) -> Result<(), WriteFault>
    requires { most_line_bytes fields.now < 80 }
    ensures { Writes (W.written out.old) (W.written out.new) result (written_line (map field_bytes fields.now)) }
{
    put_all(out, line_of(fields).as_bytes())
}
