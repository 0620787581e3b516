ghost use Rattle.dmf_valuing.specs.Laws.{ArcsHaveOneText, NodesHaveOneText, SecondsHaveOneText, WorstArcsHaveOneText, WorstNodesHaveOneText, WorstPairsHaveOneText};

/// The law that the problem determines what a run writes that values each arc.
pub fn arcs_have_one_text()
    ensures { ArcsHaveOneText }
{}

/// The law that the problem determines what a run writes that values each arc, and a second one beside it.
pub fn seconds_have_one_text()
    ensures { SecondsHaveOneText }
{}

/// The law that the problem determines what a run writes that values each node.
pub fn nodes_have_one_text()
    ensures { NodesHaveOneText }
{}

/// The law that the problem determines what a run writes that lists the worst arcs.
pub fn worst_arcs_have_one_text()
    ensures { WorstArcsHaveOneText }
{}

/// The law that the problem determines what a run writes that lists the worst nodes.
pub fn worst_nodes_have_one_text()
    ensures { WorstNodesHaveOneText }
{}

/// The law that the problem determines what a run writes that lists the worst pairs of arcs.
pub fn worst_pairs_have_one_text()
    ensures { WorstPairsHaveOneText }
{}
