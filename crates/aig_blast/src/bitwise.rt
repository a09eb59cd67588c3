//! Gates at each place of two words.

ghost use Rattle.std.specs.Prelude.{◌≡◌, length, IfOk};
ghost use Rattle.aig_blast.specs.BitLists.{zip_with};
ghost use Rattle.aig_blast.specs.Steps as step;
ghost use Rattle.aig_blast.specs.Graphs.{IsLit, Makes, value};
ghost use Rattle.aig_blast.specs.Words.{AreLits, MakesWord, pair_value, word};

use crate::gate::Lit;
use crate::graph::Graph;
use kw_bits::NoMemory;
use std::alloc::Global;

/// A gate on two literals.
#[derive(Clone, Copy, Debug, PartialEq, Eq)]
pub enum Pair {
    And,
    Or,
    Xor,
}

// The gate on two literals.
pub(crate) fn gate_on(graph: &mut Graph, gate: Pair, a: Lit, b: Lit) -> Result<Lit, NoMemory>
    requires a { IsLit graph.old a }
    requires b { IsLit graph.old b }
    ensures { IfOk result (λ lit. Makes graph.old graph.new lit (λ i. pair_value gate (value i graph.old a) (value i graph.old b))) }
{
    match gate {
        Pair::And => graph.and(a, b),
        Pair::Or => graph.or(a, b),
        Pair::Xor => graph.xor(a, b),
    }
}

/// The word with the gate at each place of two words of one width.
pub fn zip(
    graph: &mut Graph,
    alloc: Global,
    gate: Pair,
    a: &[Lit],
    b: &[Lit],
) -> Result<Vec<Lit>, NoMemory>
    requires width { length a.now ≡ length b.now }
    requires a { AreLits graph.old a.now }
    requires b { AreLits graph.old b.now }
    ensures { IfOk result (λ r. MakesWord graph.old graph.new r.items (λ i. zip_with (pair_value gate) (word i graph.old a.now) (word i graph.old b.now))) }
{
    let mut made = Vec::with_capacity(alloc, a.len())?;
    for (k, x) in a.iter().enumerate() {
        let lit = gate_on(graph, gate, *x, b[k])?;
        made.push(lit)?;
    }
    Ok(made)
}

/// The word with each bit taken only where a condition holds.
pub fn gated(
    graph: &mut Graph,
    alloc: Global,
    condition: Lit,
    a: &[Lit],
) -> Result<Vec<Lit>, NoMemory>
    requires condition { IsLit graph.old condition }
    requires a { AreLits graph.old a.now }
    ensures { IfOk result (λ r. MakesWord graph.old graph.new r.items (λ i. step.gated (value i graph.old condition) (word i graph.old a.now))) }
{
    let mut made = Vec::with_capacity(alloc, a.len())?;
    for x in a {
        let lit = graph.and(*x, condition)?;
        made.push(lit)?;
    }
    Ok(made)
}

/// The first of two words of one width where a condition holds, else the second.
pub fn choose(
    graph: &mut Graph,
    alloc: Global,
    condition: Lit,
    a: &[Lit],
    b: &[Lit],
) -> Result<Vec<Lit>, NoMemory>
    requires width { length a.now ≡ length b.now }
    requires condition { IsLit graph.old condition }
    requires a { AreLits graph.old a.now }
    requires b { AreLits graph.old b.now }
    ensures { IfOk result (λ r. MakesWord graph.old graph.new r.items (λ i. step.choose (value i graph.old condition) (word i graph.old a.now) (word i graph.old b.now))) }
{
    let mut made = Vec::with_capacity(alloc, a.len())?;
    for (k, x) in a.iter().enumerate() {
        let lit = graph.mux(condition, *x, b[k])?;
        made.push(lit)?;
    }
    Ok(made)
}
