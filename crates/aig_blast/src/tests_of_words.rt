//! Tests of words, each one literal.

ghost use Rattle.std.specs.Prelude.{◌≡◌, ◌≤◌, length, [], ◌∷◌, IfOk};
ghost use Rattle.kw_bits.specs.Operators as op;
ghost use Rattle.aig_blast.specs.Steps as step;
ghost use Rattle.aig_blast.specs.Graphs.{IsLit, Makes, value};
ghost use Rattle.aig_blast.specs.Words.{AreLits, MakesBits, bits, pair_value, word};

use crate::adder::carries;
use crate::bitwise::{Pair, gate_on};
use crate::gate::{Lit, not};
use crate::graph::Graph;
use crate::parts::invert;
use kw_bits::NoMemory;
use std::alloc::Global;

/// The bits of a word joined by a gate, from a literal on.
pub fn joined(graph: &mut Graph, gate: Pair, start: Lit, a: &[Lit]) -> Result<Lit, NoMemory>
    requires start { IsLit graph.old start }
    requires a { AreLits graph.old a.now }
    ensures { IfOk result (λ lit. Makes graph.old graph.new lit (λ i. step.joined_after (pair_value gate) (value i graph.old start) (word i graph.old a.now) (length a.now))) }
{
    let mut all = start;
    for x in a {
        let lit = gate_on(graph, gate, all, *x)?;
        all = lit;
    }
    Ok(all)
}

/// Whether two words of one width are equal.
pub fn equal(graph: &mut Graph, a: &[Lit], b: &[Lit]) -> Result<Lit, NoMemory>
    requires width { length a.now ≡ length b.now }
    requires a { AreLits graph.old a.now }
    requires b { AreLits graph.old b.now }
    ensures { IfOk result (λ lit. MakesBits graph.old graph.new (lit ∷ []) (λ i. op.eq_bits (bits i graph.old a.now) (bits i graph.old b.now))) }
{
    let mut same = Graph::TRUE;
    for (k, x) in a.iter().enumerate() {
        let differs = graph.xor(*x, b[k])?;
        let still = graph.and(same, not(differs))?;
        same = still;
    }
    Ok(same)
}

/// Whether the first of two words of one width is the lesser number.
pub fn ult(graph: &mut Graph, alloc: Global, a: &[Lit], b: &[Lit]) -> Result<Lit, NoMemory>
    requires width { length a.now ≡ length b.now }
    requires a { AreLits graph.old a.now }
    requires b { AreLits graph.old b.now }
    ensures value { IfOk result (λ lit. Makes graph.old graph.new lit (λ i. step.ult (word i graph.old a.now) (word i graph.old b.now))) }
    ensures bits { IfOk result (λ lit. MakesBits graph.old graph.new (lit ∷ []) (λ i. op.ult (bits i graph.old a.now) (bits i graph.old b.now))) }
{
    let inverse = invert(alloc, b)?;
    let carry = carries(graph, Graph::TRUE, a, &inverse)?;
    Ok(not(carry))
}

/// Whether the first of two words of one width is the lesser signed number.
pub fn slt(graph: &mut Graph, alloc: Global, a: &[Lit], b: &[Lit]) -> Result<Lit, NoMemory>
    requires some { 1 ≤ length a.now }
    requires width { length a.now ≡ length b.now }
    requires a { AreLits graph.old a.now }
    requires b { AreLits graph.old b.now }
    ensures value { IfOk result (λ lit. Makes graph.old graph.new lit (λ i. step.slt (word i graph.old a.now) (word i graph.old b.now))) }
    ensures bits { IfOk result (λ lit. MakesBits graph.old graph.new (lit ∷ []) (λ i. op.slt (bits i graph.old a.now) (bits i graph.old b.now))) }
{
    let below = ult(graph, alloc, a, b)?;
    let differ = graph.xor(a[a.len() - 1], b[b.len() - 1])?;
    let chosen = graph.mux(differ, a[a.len() - 1], below)?;
    Ok(chosen)
}
