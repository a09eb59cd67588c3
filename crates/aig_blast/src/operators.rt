//! The other operators.

ghost use Rattle.std.specs.Prelude.{◌≡◌, ◌+◌, ◌<◌, ◌≤◌, length, List, Bool, [], ◌∷◌, if◌then◌else◌, IfOk};
ghost use Rattle.kw_bits.specs.Operators as op;
ghost use Rattle.aig_blast.specs.Graphs.{IsLit, value};
ghost use Rattle.aig_blast.specs.Graphs.{Gates};
ghost use Rattle.aig_blast.specs.Words.{AreLits, MakesBits, bits, pair_bits, reduced_bits};
ghost use Rattle.aig_blast.specs.inner.Words.{start_lit};

use crate::bitwise::{Pair, choose, zip};
use crate::gate::{Lit, not};
use crate::graph::Graph;
use crate::parts::invert;
use crate::tests_of_words::{joined, slt, ult};
use kw_bits::NoMemory;
use std::alloc::Global;

/// The bits joined place by place.
pub fn pairwise(
    graph: &mut Graph,
    alloc: Global,
    gate: Pair,
    a: &[Lit],
    b: &[Lit],
) -> Result<Vec<Lit>, NoMemory>
    requires width { length a.now ≡ length b.now }
    requires a { AreLits graph.old a.now }
    requires b { AreLits graph.old b.now }
    ensures { IfOk result (λ r. MakesBits graph.old graph.new r.items (λ i. pair_bits gate (bits i graph.old a.now) (bits i graph.old b.now))) }
{
    let made = zip(graph, alloc, gate, a, b)?;
    Ok(made)
}

/// The first word where a condition holds, else the second.
pub fn ite(
    graph: &mut Graph,
    alloc: Global,
    condition: Lit,
    a: &[Lit],
    b: &[Lit],
) -> Result<Vec<Lit>, NoMemory>
    requires width { length a.now ≡ length b.now }
    requires condition { IsLit graph.old condition }
    requires a { AreLits graph.old a.now }
    requires b { AreLits graph.old b.now }
    ensures { IfOk result (λ r. MakesBits graph.old graph.new r.items (λ i. if value i graph.old condition then bits i graph.old a.now else bits i graph.old b.now)) }
{
    let made = choose(graph, alloc, condition, a, b)?;
    Ok(made)
}

/// Whether all bits are 1, some bit is, or an odd number of bits, by the gate.
pub fn reduced(graph: &mut Graph, gate: Pair, a: &[Lit]) -> Result<Lit, NoMemory>
    requires { AreLits graph.old a.now }
    ensures { IfOk result (λ lit. MakesBits graph.old graph.new (lit ∷ []) (λ i. reduced_bits gate (bits i graph.old a.now))) }
{
    let lit = joined(graph, gate, start(gate), a)?;
    Ok(lit)
}

// The literal that a reduction starts from.
fn start(gate: Pair) -> Lit
    ensures start { result ≡ start_lit gate }
    ensures constant { result < 2 }
{
    match gate {
        Pair::And => Graph::TRUE,
        Pair::Or | Pair::Xor => Graph::FALSE,
    }
}

/// Whether the first of two words of one width is at most the second.
pub fn ulte(graph: &mut Graph, alloc: Global, a: &[Lit], b: &[Lit]) -> Result<Lit, NoMemory>
    requires width { length a.now ≡ length b.now }
    requires a { AreLits graph.old a.now }
    requires b { AreLits graph.old b.now }
    ensures { IfOk result (λ lit. MakesBits graph.old graph.new (lit ∷ []) (λ i. op.ulte (bits i graph.old a.now) (bits i graph.old b.now))) }
{
    let above = ult(graph, alloc, b, a)?;
    Ok(not(above))
}

/// Whether the first of two words of one width is at most the second, as signed numbers.
pub fn slte(graph: &mut Graph, alloc: Global, a: &[Lit], b: &[Lit]) -> Result<Lit, NoMemory>
    requires some { 1 ≤ length a.now }
    requires width { length a.now ≡ length b.now }
    requires a { AreLits graph.old a.now }
    requires b { AreLits graph.old b.now }
    ensures { IfOk result (λ lit. MakesBits graph.old graph.new (lit ∷ []) (λ i. op.slte (bits i graph.old a.now) (bits i graph.old b.now))) }
{
    let above = slt(graph, alloc, b, a)?;
    Ok(not(above))
}

/// Every bit turned. No operator from here on makes a gate.
pub fn turned(alloc: Global, a: &[Lit]) -> Result<Vec<Lit>, NoMemory>
    ensures { IfOk result (λ r. (g : Gates) → AreLits g a.now → MakesBits g g r.items (λ i. op.not (bits i g a.now))) }
{
    let made = invert(alloc, a)?;
    Ok(made)
}

/// The bits of the first word above those of the second.
pub fn concat(alloc: Global, high: &[Lit], low: &[Lit]) -> Result<Vec<Lit>, NoMemory>
    ensures { IfOk result (λ r. (g : Gates) → AreLits g high.now → AreLits g low.now → MakesBits g g r.items (λ i. op.concat (bits i g high.now) (bits i g low.now))) }
{
    let mut made = Vec::new(alloc);
    made.extend_from_slice(low)?;
    made.extend_from_slice(high)?;
    Ok(made)
}

/// The bits from `lower` to `upper`, both included.
pub fn slice(alloc: Global, a: &[Lit], upper: usize, lower: usize) -> Result<Vec<Lit>, NoMemory>
    requires order { lower ≤ upper }
    requires within { upper < length a.now }
    ensures { IfOk result (λ r. (g : Gates) → AreLits g a.now → MakesBits g g r.items (λ i. op.slice (bits i g a.now) upper lower)) }
{
    let mut made = Vec::new(alloc);
    made.extend_from_slice(&a[lower..upper + 1])?;
    Ok(made)
}

/// The word with this many zeros above.
pub fn uext(alloc: Global, a: &[Lit], added: usize) -> Result<Vec<Lit>, NoMemory>
    ensures { IfOk result (λ r. (g : Gates) → AreLits g a.now → MakesBits g g r.items (λ i. op.zext (bits i g a.now) (length a.now + added))) }
{
    let mut made = Vec::new(alloc);
    let above = vec![in alloc; Graph::FALSE; added]?;
    made.extend_from_slice(a)?;
    made.extend_from_slice(&above)?;
    Ok(made)
}

/// The word with its sign this many times above.
pub fn sext(alloc: Global, a: &[Lit], added: usize) -> Result<Vec<Lit>, NoMemory>
    requires { 1 ≤ length a.now }
    ensures { IfOk result (λ r. (g : Gates) → AreLits g a.now → MakesBits g g r.items (λ i. op.sext (bits i g a.now) (length a.now + added))) }
{
    let mut made = Vec::new(alloc);
    let above = vec![in alloc; a[a.len() - 1]; added]?;
    made.extend_from_slice(a)?;
    made.extend_from_slice(&above)?;
    Ok(made)
}
