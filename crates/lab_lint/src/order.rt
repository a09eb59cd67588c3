//! Lint: which rules may fire before which, and which a cycle may pass by, by the scheduler's nodes.

ghost use Rattle.std.specs.Prelude.{◌≡◌, ◌↔◌, ◌+◌, ◌<◌, ℕ, IfOk, IsTrue, Some, All, false, length, replicate, slice_get, slice_index_or};
ghost use Rattle.typed_core.specs.Paths.{Ascends};
ghost use Rattle.typed_core.specs.declared.design.Node.{Node as NodeOf};
ghost use Rattle.lab_lint.specs.Order.{MayBeUntried, MayPrecede, is_scheduled};
ghost use Rattle.lab_lint.specs.inner.Sweeps as sweeps;
ghost use Rattle.lab_lint.specs.inner.Sweeps.{IsSwept};

use kw_bits::{NoMemory, Sequence};
use std::alloc::Global;
use typed_core::{Next, Node};

/// Whether some node tries the rule.
pub fn is_scheduled(nodes: &[Node], rule: usize) -> bool
    ensures { result ≡ is_scheduled nodes.now rule }
{
    nodes.iter().any(|node| node.rule as usize == rule)
}

/// For each rule whether another may have fired before it. The rules of nodes are among that many.
pub fn preceded(
    alloc: Global,
    nodes: &[Node],
    rules: usize,
    earlier: usize,
) -> Result<Sequence<bool>, NoMemory>
    requires ascends { Ascends nodes.now }
    requires rules { All (λ (n : NodeOf). n.rule < rules) nodes.now }
    ensures { IfOk result (λ may. (rule : ℕ) → IsTrue (slice_index_or may rule false) ↔ MayPrecede nodes.now earlier rule) }
{
    let mut swept = no_marks(alloc, nodes.len())?;
    Sweep::After.over(nodes, earlier, &mut swept);
    let marks = swept.as_slice();
    let mut may = flags(alloc, rules)?;
    for number in 0..nodes.len() {
        mark_if(marks[number], nodes[number].rule as usize, &mut may);
    }
    Ok(may)
}

/// Whether a cycle may come to its end without trying the rule. Nodes go on to greater ones.
pub fn may_be_untried(alloc: Global, nodes: &[Node], rule: usize) -> Result<bool, NoMemory>
    requires { Ascends nodes.now }
    ensures { IfOk result (λ may. IsTrue may ↔ MayBeUntried nodes.now rule) }
{
    let mut marks = no_marks(alloc, nodes.len())?;
    marks.set(0, true);
    Sweep::Past.over(nodes, rule, &mut marks);
    Ok(marks[nodes.len()])
}

// What is marked from node to node.
#[derive(Clone, Copy, Debug, PartialEq, Eq)]
enum Sweep {
    /// What comes after a rule has fired.
    After,
    /// Where the scheduler comes without trying a rule.
    Past,
}

impl Sweep {
    // Whether the `yes` of a node is marked, where the node may be marked and may be one of the rule.
    fn marks_yes(self, is_marked: bool, is_of_rule: bool) -> bool
        ensures { result ≡ sweeps.marks_yes self is_marked is_of_rule }
    {
        match self {
            Sweep::After => is_marked || is_of_rule,
            Sweep::Past => is_marked && !is_of_rule,
        }
    }

    // And its `no`.
    fn marks_no(self, is_marked: bool, is_of_rule: bool) -> bool
        ensures { result ≡ sweeps.marks_no self is_marked is_of_rule }
    {
        match self {
            Sweep::After => is_marked,
            Sweep::Past => is_marked && !is_of_rule,
        }
    }

    // Goes over all nodes once, since nodes go on to greater ones. The last mark is that of the end.
    fn over(self, nodes: &[Node], rule: usize, marks: &mut Sequence<bool>)
        requires ascends { Ascends nodes.now }
        requires length { length marks.old ≡ length nodes.now + 1 }
        ensures length { length marks.new ≡ length nodes.now + 1 }
        ensures swept { IsSwept self nodes.now rule marks.old marks.new }
    {
        let end = nodes.len();
        for number in 0..end {
            self.pass(nodes[number], number, end, rule, marks);
        }
    }

    // Marks where a node goes on.
    fn pass(self, node: Node, number: usize, end: usize, rule: usize, marks: &mut Sequence<bool>)
        requires number { number < length marks.old }
        requires yes { sweeps.place_of node.yes end < length marks.old }
        requires no { sweeps.place_of node.no end < length marks.old }
        ensures { marks.new ≡ sweeps.passed self rule end number node marks.old }
    {
        let is_marked = marks[number];
        let is_of_rule = node.rule as usize == rule;
        mark_if(
            self.marks_yes(is_marked, is_of_rule),
            place_of(node.yes, end),
            marks,
        );
        mark_if(
            self.marks_no(is_marked, is_of_rule),
            place_of(node.no, end),
            marks,
        );
    }
}

fn mark_if(is_so: bool, place: usize, marks: &mut Sequence<bool>)
    requires { place < length marks.old }
    ensures { marks.new ≡ sweeps.marked_if is_so place marks.old }
{
    if is_so {
        marks.set(place, true);
    }
}

// The node's number, and that many for the end.
fn place_of(at: Next, end: usize) -> usize
    ensures { result ≡ sweeps.place_of at end }
{
    match at {
        Next::Node(number) => number as usize,
        Next::End => end,
    }
}

// Marks for that many nodes and the end, none of them set.
fn no_marks(alloc: Global, nodes: usize) -> Result<Sequence<bool>, NoMemory>
    ensures { IfOk result (λ marks. marks ≡ replicate (nodes + 1) false) }
{
    let mut marks = flags(alloc, nodes)?;
    marks.push(false)?;
    Ok(marks)
}

// That many flags, none of them set.
fn flags(alloc: Global, len: usize) -> Result<Sequence<bool>, NoMemory>
    ensures { IfOk result (λ flags. flags ≡ replicate len false) }
{
    let mut flags = Sequence::new(alloc);
    for _ in 0..len {
        flags.push(false)?;
    }
    Ok(flags)
}
