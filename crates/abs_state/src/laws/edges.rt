//! Laws of edges, each the contract of a function that does nothing when it runs.
ghost use Rattle.abs_state.specs.EdgeLaws.{EdgesAreTaken, EdgesKeep, ImpliedEnds, ImpliedFits};
ghost use Rattle.abs_state.specs.EdgeLaws.{OneEdge, StraightEdges};

/// An edge has the state that it leaves.
pub fn edges_keep()
    ensures { EdgesKeep }
{}

/// An instruction that is no branch has one edge.
pub fn one_edge()
    ensures { OneEdge }
{}

/// An edge leads where the instruction is known to lead.
pub fn straight_edges()
    ensures { StraightEdges }
{}

/// Where what is known is true of a machine, one of the edges out of the last instruction is there, and leads to the machine:
/// what is known on it is true there. So where there is no edge, it can't come to that.
pub fn edges_are_taken()
    ensures { EdgesAreTaken }
{}

/// Where an edge that leads to a machine implies the block that begins there, all that the block states is true of the
/// machine, and what the budget was pays for the instructions taken and for the block's own budget.
pub fn implied_fits()
    ensures { ImpliedFits }
{}

/// Where an edge that leads to a machine implies the end of the run, the machine is at EXIT, and what the budget was pays for
/// the instructions taken.
pub fn implied_ends()
    ensures { ImpliedEnds }
{}
