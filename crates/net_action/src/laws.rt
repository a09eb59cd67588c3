//! Circuits: a law of the values of nets.

// A law of values of nets is the contract of a function that does nothing.
ghost use Rattle.std.specs.Prelude.{◌++◌, List};
ghost use Rattle.net_graph.specs.Laws.{Feeds};
ghost use Rattle.net_graph.specs.Nets.{IsNet};
ghost use Rattle.net_graph.specs.Values.{Sources, values_of};
ghost use Rattle.net_graph.specs.declared.node.NetOp.{NetOp};
ghost use Rattle.net_action.specs.Wires.{AreValues};

/// The values of a net's nodes are such as the nodes of every net may have that it begins with.
pub fn values_of_a_net_are_those_of_its_beginnings()
    ensures { (s : Sources) (net more : List NetOp) → IsNet (net ++ more) → Feeds s (net ++ more) → AreValues s net (values_of s (net ++ more)) }
{}
