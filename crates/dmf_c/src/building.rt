//! A network of arrays.
ghost use Rattle.std.specs.Prelude.{◌≡◌, length};
ghost use Rattle.dmf_c.specs.Building.{built};
ghost use Rattle.dmf_c.specs.Built.{net_fault_code, TellsBuilt};

use dmf_state::{NetFault, State};

/// Why an arc of the arrays is refused: the number of the reason, and the arc's index.
#[derive(Clone, Copy, Drop)]
pub struct BadArc {
    pub code: u32,
    pub index: usize,
}

/// Appends these arcs to the state.
pub fn build_network(
    mut state: State,
    tails: &[u32],
    heads: &[u32],
    capacities: &[u64],
) -> Result<State, BadArc>
    requires heads { length heads.now ≡ length tails.now }
    requires capacities { length capacities.now ≡ length tails.now }
    ensures { TellsBuilt result (built 0 state tails.now heads.now capacities.now) }
{
    for i in 0..tails.len() {
        let (tail, head) = (u64::from(tails[i]), u64::from(heads[i]));
        if let Err(fault) = state.push_arc(tail, head, capacities[i]) {
            return Err(BadArc {
                code: fault_code(fault),
                index: i,
            });
        }
    }
    Ok(state)
}

pub fn fault_code(fault: NetFault) -> u32
    ensures { result ≡ net_fault_code fault }
{
    match fault {
        NetFault::NoMemory => 1,
        NetFault::NoSuchNode => 2,
        NetFault::TooManyArcs => 5,
        NetFault::SumTooLarge => 6,
    }
}
