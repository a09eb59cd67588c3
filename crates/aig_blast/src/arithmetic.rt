//! Sums, differences and products.

ghost use Rattle.std.specs.Prelude.{◌≡◌, ◌≤◌, length, IfOk};
ghost use Rattle.kw_bits.specs.Operators as op;
ghost use Rattle.aig_blast.specs.Words.{AreLits, MakesBits, bits};

use crate::adder::ripple;
use crate::bitwise::gated;
use crate::gate::Lit;
use crate::graph::Graph;
use crate::parts::{invert, shifted_up};
use kw_bits::NoMemory;
use std::alloc::Global;

/// The sum, modulo 2 to the width.
pub fn add(graph: &mut Graph, alloc: Global, a: &[Lit], b: &[Lit]) -> Result<Vec<Lit>, NoMemory>
    requires width { length a.now ≡ length b.now }
    requires a { AreLits graph.old a.now }
    requires b { AreLits graph.old b.now }
    ensures { IfOk result (λ r. MakesBits graph.old graph.new r.items (λ i. op.add (bits i graph.old a.now) (bits i graph.old b.now))) }
{
    let (sum, _) = ripple(graph, alloc, Graph::FALSE, a, b)?;
    Ok(sum)
}

/// The difference, modulo 2 to the width.
pub fn sub(graph: &mut Graph, alloc: Global, a: &[Lit], b: &[Lit]) -> Result<Vec<Lit>, NoMemory>
    requires width { length a.now ≡ length b.now }
    requires a { AreLits graph.old a.now }
    requires b { AreLits graph.old b.now }
    ensures { IfOk result (λ r. MakesBits graph.old graph.new r.items (λ i. op.sub (bits i graph.old a.now) (bits i graph.old b.now))) }
{
    let inverse = invert(alloc, b)?;
    let (sum, _) = ripple(graph, alloc, Graph::TRUE, a, &inverse)?;
    Ok(sum)
}

/// What gives 0 when it is added, modulo 2 to the width.
pub fn neg(graph: &mut Graph, alloc: Global, a: &[Lit]) -> Result<Vec<Lit>, NoMemory>
    requires { AreLits graph.old a.now }
    ensures { IfOk result (λ r. MakesBits graph.old graph.new r.items (λ i. op.neg (bits i graph.old a.now))) }
{
    let zeros = vec![in alloc; Graph::FALSE; a.len()]?;
    let inverse = invert(alloc, a)?;
    let (sum, _) = ripple(graph, alloc, Graph::TRUE, &zeros, &inverse)?;
    Ok(sum)
}

/// The product, modulo 2 to the width.
pub fn mul(graph: &mut Graph, alloc: Global, a: &[Lit], b: &[Lit]) -> Result<Vec<Lit>, NoMemory>
    requires width { length a.now ≡ length b.now }
    requires a { AreLits graph.old a.now }
    requires b { AreLits graph.old b.now }
    ensures { IfOk result (λ r. MakesBits graph.old graph.new r.items (λ i. op.mul (bits i graph.old a.now) (bits i graph.old b.now))) }
{
    let mut product = vec![in alloc; Graph::FALSE; a.len()]?;
    for (k, y) in b.iter().enumerate() {
        let shifted = shifted_up(alloc, a, k)?;
        let row = gated(graph, alloc, *y, &shifted)?;
        let (sum, _) = ripple(graph, alloc, Graph::FALSE, &product, &row)?;
        product = sum;
    }
    Ok(product)
}
