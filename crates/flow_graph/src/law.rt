//! Laws of graphs, each the contract of a function that does nothing. `specs/Laws.antt` states
//! them.
ghost use Rattle.flow_graph.specs.Laws.{GraphSegmentIsDetermined, GraphSegmentExists};
ghost use Rattle.flow_graph.specs.Laws.{GraphSegmentFits, EntryHasParameters, MapOfListed};
ghost use Rattle.flow_graph.specs.Laws.{GraphIsOne};

/// A function has one graph: the order in which its statements are laid is settled, and so are the
/// stops.
pub fn law_of_graphs()
    ensures one { GraphIsOne }
{}

/// From the entry and from each mark of a graph, with any values, exactly one place of it is met
/// next, with as many values as a run has there. At the entry these are the parameters'.
pub fn law_of_graph_segments()
    ensures determined { GraphSegmentIsDetermined }
    ensures exists { GraphSegmentExists }
    ensures fits { GraphSegmentFits }
    ensures entry { EntryHasParameters }
{}

/// A function of the values that are listed at a place, be they integers or linear forms, may be
/// taken before or after they are listed.
pub fn law_of_graph_values<A, B>()
    ensures { MapOfListed A B }
{}
