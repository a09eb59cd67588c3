//! Core: the check that no rule is scheduled twice on a path.

ghost use Rattle.std.specs.Prelude.{◌≡◌, ◌+◌, ◌<◌, ◌≤◌, ◌↔◌, IsTrue, length};
ghost use Rattle.typed_core.specs.Paths.{Ascends};
ghost use Rattle.typed_core.specs.inner.Paths.{AreMost, IsMost, number_behind};
ghost use Rattle.typed_core.specs.Valid.{AreNodes, IsContinuation, TriesNoneTwice};

use crate::design::{Next, Node};
use crate::limits::MAX_NODES;

/// Whether no rule occurs twice on a path from the root, in a scheduler whose nodes are valid.
pub(crate) fn tries_none_twice(nodes: &[Node], rules: usize) -> bool
    requires few { length nodes.now ≤ MAX_NODES }
    requires nodes { AreNodes rules nodes.now }
    ensures { IsTrue result ↔ TriesNoneTwice nodes.now }
{
    for rule in 0..rules {
        if most_times(nodes, rule) > 1 {
            return false;
        }
    }
    true
}

// The most times that the rule is tried on a path from the root.
fn most_times(nodes: &[Node], rule: usize) -> u16
    requires few { length nodes.now ≤ MAX_NODES }
    requires ascends { Ascends nodes.now }
    ensures { IsMost nodes.now rule 0 result }
{
    let mut most = [0; MAX_NODES];
    for number in (0..nodes.len()).rev() {
        most[number] = most_from(nodes, number, rule, &most);
    }
    most[0]
}

// The same on a path from the node of this number, by the numbers of later nodes.
fn most_from(nodes: &[Node], number: usize, rule: usize, most: &[u16; MAX_NODES]) -> u16
    requires number { number < length nodes.now }
    requires few { length nodes.now ≤ MAX_NODES }
    requires ascends { Ascends nodes.now }
    requires later { AreMost nodes.now rule (number + 1) most.now }
    ensures { IsMost nodes.now rule number result }
{
    let node = &nodes[number];
    let yes = number_behind(most, node.yes);
    let no = number_behind(most, node.no);
    yes.max(no) + u16::from(node.rule as usize == rule)
}

fn number_behind(numbers: &[u16; MAX_NODES], next: Next) -> u16
    requires { IsContinuation MAX_NODES 0 next }
    ensures { result ≡ number_behind numbers.now next }
{
    match next {
        Next::Node(to) => numbers[to as usize],
        Next::End => 0,
    }
}
