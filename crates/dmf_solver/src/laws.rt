ghost use Rattle.dmf_solver.specs.Laws.{HasSmallestSide, HasOneSmallestSide, HasGreatestFlow, IsGreatestOrSurpassed, SolvedIsGreatest};
ghost use Rattle.dmf_solver.specs.Laws.{HasOneOutcome, HasOutcome, MaxFlowMinCut, GreatestIsOptimal};

/// The law that a change has one outcome: any two states that it makes of one state are the same.
pub fn change_has_one_outcome()
    ensures { HasOneOutcome }
{}

/// The law that a change which is not refused has an outcome, which is a state. So a solve ends on every state.
pub fn change_has_outcome()
    ensures { HasOutcome }
{}

/// Max-flow min-cut: every network has a maximum flow, and the value of each maximum flow is the capacity of a minimum cut.
pub fn max_flow_min_cut()
    ensures flow { HasGreatestFlow }
    ensures cut { MaxFlowMinCut }
{}

/// The law that a greatest flow has as its value the capacity of a minimum cut, and so that of the smallest side.
pub fn greatest_is_optimal()
    ensures { GreatestIsOptimal }
{
    max_flow_min_cut();
}

/// The law that a network has one smallest side: any two lists of nodes with a capacity that are one are the same.
pub fn network_has_one_smallest_side()
    ensures { HasOneSmallestSide }
{}

/// The law that a network has a smallest side.
pub fn network_has_smallest_side()
    ensures { HasSmallestSide }
{}

/// The law that a flow is greatest, or some flow has a larger value.
pub fn flow_is_greatest_or_surpassed()
    ensures { IsGreatestOrSurpassed }
{}

/// The law that solving a state makes a maximum flow.
pub fn solved_is_greatest()
    ensures { SolvedIsGreatest }
{}
