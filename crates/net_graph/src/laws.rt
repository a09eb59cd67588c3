//! Circuits: the laws of every net. They are proved, and compute nothing.

// Each law of the values of nodes is the contract of a function that does nothing.
ghost use Rattle.net_graph.specs.Laws as law;

/// Each node's value is a bit vector of the node's width.
pub fn values_have_their_widths()
    ensures { law.HaveWidths }
{}

/// Nodes that are added leave the values of those before them, and a node has its operator's value.
pub fn nodes_keep_their_values()
    ensures kept { law.KeepValues }
    ensures by_operator { law.FollowOperators }
{}
