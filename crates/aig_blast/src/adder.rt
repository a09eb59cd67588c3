//! The ripple adder.

ghost use Rattle.std.specs.Prelude.{◌≡◌, length, IfOk};
ghost use Rattle.aig_blast.specs.Steps.{carry_after, sum_after};
ghost use Rattle.aig_blast.specs.Graphs.{IsLit, Makes, value};
ghost use Rattle.aig_blast.specs.Words.{AreLits, MakesWord, word};

use crate::gate::Lit;
use crate::graph::Graph;
use kw_bits::NoMemory;
use std::alloc::Global;

/// The sum of two words of one width and a carry, and the carry that goes out.
pub fn ripple(
    graph: &mut Graph,
    alloc: Global,
    carry_in: Lit,
    a: &[Lit],
    b: &[Lit],
) -> Result<(Vec<Lit>, Lit), NoMemory>
    requires width { length a.now ≡ length b.now }
    requires carry { IsLit graph.old carry_in }
    requires a { AreLits graph.old a.now }
    requires b { AreLits graph.old b.now }
    ensures sum { IfOk result (λ r. MakesWord graph.old graph.new r.0.items (λ i. sum_after (value i graph.old carry_in) (word i graph.old a.now) (word i graph.old b.now) (length a.now))) }
    ensures carry { IfOk result (λ r. Makes graph.old graph.new r.1 (λ i. carry_after (value i graph.old carry_in) (word i graph.old a.now) (word i graph.old b.now) (length a.now))) }
{
    let mut made = Vec::with_capacity(alloc, a.len())?;
    let mut carry = carry_in;
    for (k, x) in a.iter().enumerate() {
        let (sum, next) = graph.full_adder(*x, b[k], carry)?;
        made.push(sum)?;
        carry = next;
    }
    Ok((made, carry))
}

/// The carry that goes out of a sum, with no gates for the sum's bits.
pub fn carries(graph: &mut Graph, carry_in: Lit, a: &[Lit], b: &[Lit]) -> Result<Lit, NoMemory>
    requires width { length a.now ≡ length b.now }
    requires carry { IsLit graph.old carry_in }
    requires a { AreLits graph.old a.now }
    requires b { AreLits graph.old b.now }
    ensures { IfOk result (λ lit. Makes graph.old graph.new lit (λ i. carry_after (value i graph.old carry_in) (word i graph.old a.now) (word i graph.old b.now) (length a.now))) }
{
    let mut carry = carry_in;
    for (k, x) in a.iter().enumerate() {
        let half = graph.xor(*x, b[k])?;
        let both = graph.and(*x, b[k])?;
        let passed = graph.and(carry, half)?;
        let carried = graph.or(both, passed)?;
        carry = carried;
    }
    Ok(carry)
}
