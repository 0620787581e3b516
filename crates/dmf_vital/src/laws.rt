ghost use Rattle.dmf_vital.specs.Laws.{HasGreatestValue, HasOneGreatestValue, ArcHasLoss, NodeHasLoss, HasOneLoss};
ghost use Rattle.dmf_vital.specs.Laws.{ClosingLeavesOut, ShuttingLeavesOut};
ghost use Rattle.dmf_vital.specs.Laws.{LossIsAtMostFlow, IdleArcLosesNothing, LoopLosesNothing, HeldFlowIsLost, SomeFlowIsLoss};
ghost use Rattle.dmf_vital.specs.Laws.{NodeLossIsAtMostFlow, HeldNodeFlowIsLost};
ghost use Rattle.dmf_vital.specs.Laws.{PairHasLoss, PairLossIsAtMostFlow};
ghost use Rattle.dmf_vital.specs.Laws.{WorstIsMostVital, SecondHasGain, GainIsAtMostCapacity};

/// The law that a network has one greatest value.
pub fn greatest_value_is_one()
    ensures some { HasGreatestValue }
    ensures one { HasOneGreatestValue }
    ensures one_loss { HasOneLoss }
{}

/// The law that each arc has a loss.
pub fn arc_has_loss()
    ensures { ArcHasLoss }
{}

/// The law that each node but the source and the sink has a loss.
pub fn node_has_loss()
    ensures { NodeHasLoss }
{}

/// The law that closing an arc makes the network without it.
pub fn closing_leaves_out()
    ensures { ClosingLeavesOut }
{}

/// The law that shutting a node makes the network without it.
pub fn shutting_leaves_out()
    ensures { ShuttingLeavesOut }
{}

/// The law that nothing is lost without an arc that carries nothing in some greatest flow, and without a self loop.
pub fn idle_arc_loses_nothing()
    ensures idle { IdleArcLosesNothing }
    ensures a_loop { LoopLosesNothing }
{}

/// The law that what an arc carries is lost without it if none of it can go another way.
pub fn held_flow_is_lost()
    ensures { HeldFlowIsLost }
{}

/// The law that the loss of an arc is the least that it carries in any greatest flow.
pub fn loss_is_flow()
    ensures at_most { LossIsAtMostFlow }
    ensures some { SomeFlowIsLoss }
{}

/// The law that the loss of a node is at most what flows through it in a greatest flow, and all of that if none of it can go another way.
pub fn node_loss_is_flow()
    ensures at_most { NodeLossIsAtMostFlow }
    ensures held { HeldNodeFlowIsLost }
{}

/// The law that any two arcs have a loss together, at most what both carry in a greatest flow.
pub fn pair_has_loss()
    ensures some { PairHasLoss }
    ensures at_most { PairLossIsAtMostFlow }
{}

/// The law that the first of the worst arcs is a most vital arc.
pub fn worst_is_most_vital()
    ensures { WorstIsMostVital }
{}

/// The law that a second arc beside another gains something, at most its capacity.
pub fn second_has_gain()
    ensures some { SecondHasGain }
    ensures at_most { GainIsAtMostCapacity }
{}
