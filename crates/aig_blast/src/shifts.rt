//! Barrel shifters: the word shifted by 1, 2, 4 .. places where that bit of the amount is set.

ghost use Rattle.std.specs.Prelude.{◌≡◌, ◌+◌, ◌≤◌, length, min, IfOk};
ghost use Rattle.kw_bits.specs.Operators as op;
ghost use Rattle.aig_blast.specs.Steps as step;
ghost use Rattle.aig_blast.specs.inner.Steps as inner_step;
ghost use Rattle.aig_blast.specs.Graphs.{IsLit, value};
ghost use Rattle.aig_blast.specs.Words.{AreLits, MakesBits, MakesWord, bits, word};
ghost use Rattle.aig_blast.specs.inner.Words.{stages as stages_lem};

use crate::bitwise::{Pair, choose};
use crate::gate::Lit;
use crate::graph::Graph;
use crate::parts::{shifted_down, shifted_up};
use crate::tests_of_words::joined;
use kw_bits::NoMemory;
use std::alloc::Global;

/// Shifted up, with zeros below. An amount of the width or more gives 0.
pub fn sll(graph: &mut Graph, alloc: Global, a: &[Lit], b: &[Lit]) -> Result<Vec<Lit>, NoMemory>
    requires width { length a.now ≡ length b.now }
    requires most { length a.now ≤ 128 }
    requires a { AreLits graph.old a.now }
    requires b { AreLits graph.old b.now }
    ensures { IfOk result (λ r. MakesBits graph.old graph.new r.items (λ i. op.sll (bits i graph.old a.now) (bits i graph.old b.now))) }
{
    let (amount, above) = b.split_at(stages(a.len()));
    let low = up(graph, alloc, a, amount)?;
    let past = joined(graph, Pair::Or, Graph::FALSE, above)?;
    let nothing = vec![in alloc; Graph::FALSE; a.len()]?;
    let made = choose(graph, alloc, past, &nothing, &low)?;
    Ok(made)
}

// Shifted down, with this literal above, with stages for no more bits than the width needs.
fn short_down(
    graph: &mut Graph,
    alloc: Global,
    fill: Lit,
    a: &[Lit],
    b: &[Lit],
) -> Result<Vec<Lit>, NoMemory>
    requires width { length a.now ≡ length b.now }
    requires most { length a.now ≤ 128 }
    requires fill { IsLit graph.old fill }
    requires a { AreLits graph.old a.now }
    requires b { AreLits graph.old b.now }
    ensures { IfOk result (λ r. MakesWord graph.old graph.new r.items (λ i. inner_step.down_short (value i graph.old fill) (stages_lem (length a.now)) (word i graph.old a.now) (word i graph.old b.now))) }
{
    let (amount, above) = b.split_at(stages(a.len()));
    let low = down(graph, alloc, fill, a, amount)?;
    let past = joined(graph, Pair::Or, Graph::FALSE, above)?;
    let nothing = vec![in alloc; fill; a.len()]?;
    let made = choose(graph, alloc, past, &nothing, &low)?;
    Ok(made)
}

/// Shifted down, with zeros above. An amount of the width or more gives 0.
pub fn srl(graph: &mut Graph, alloc: Global, a: &[Lit], b: &[Lit]) -> Result<Vec<Lit>, NoMemory>
    requires width { length a.now ≡ length b.now }
    requires most { length a.now ≤ 128 }
    requires a { AreLits graph.old a.now }
    requires b { AreLits graph.old b.now }
    ensures { IfOk result (λ r. MakesBits graph.old graph.new r.items (λ i. op.srl (bits i graph.old a.now) (bits i graph.old b.now))) }
{
    let made = short_down(graph, alloc, Graph::FALSE, a, b)?;
    Ok(made)
}

/// Shifted down, with the sign bit above. An amount of the width or more gives the sign bit everywhere.
pub fn sra(graph: &mut Graph, alloc: Global, a: &[Lit], b: &[Lit]) -> Result<Vec<Lit>, NoMemory>
    requires some { 1 ≤ length a.now }
    requires width { length a.now ≡ length b.now }
    requires most { length a.now ≤ 128 }
    requires a { AreLits graph.old a.now }
    requires b { AreLits graph.old b.now }
    ensures { IfOk result (λ r. MakesBits graph.old graph.new r.items (λ i. op.sra (bits i graph.old a.now) (bits i graph.old b.now))) }
{
    let made = short_down(graph, alloc, a[a.len() - 1], a, b)?;
    Ok(made)
}

// Shifted up, with zeros below, a stage for each bit of the amount.
fn up(graph: &mut Graph, alloc: Global, a: &[Lit], b: &[Lit]) -> Result<Vec<Lit>, NoMemory>
    requires a { AreLits graph.old a.now }
    requires b { AreLits graph.old b.now }
    ensures { IfOk result (λ r. MakesWord graph.old graph.new r.items (λ i. inner_step.up_after (word i graph.old a.now) (word i graph.old b.now) (length b.now))) }
{
    let mut made = Vec::with_capacity(alloc, a.len())?;
    made.extend_from_slice(a)?;
    let mut amount = a.len().min(1);
    for y in b {
        let shifted = shifted_up(alloc, &made, amount)?;
        let chosen = choose(graph, alloc, *y, &shifted, &made)?;
        made = chosen;
        amount = twice(amount, a.len());
    }
    Ok(made)
}

// Shifted down, with this literal above, a stage for each bit of the amount.
fn down(
    graph: &mut Graph,
    alloc: Global,
    fill: Lit,
    a: &[Lit],
    b: &[Lit],
) -> Result<Vec<Lit>, NoMemory>
    requires fill { IsLit graph.old fill }
    requires a { AreLits graph.old a.now }
    requires b { AreLits graph.old b.now }
    ensures { IfOk result (λ r. MakesWord graph.old graph.new r.items (λ i. inner_step.down_after (value i graph.old fill) (word i graph.old a.now) (word i graph.old b.now) (length b.now))) }
{
    let mut made = Vec::with_capacity(alloc, a.len())?;
    made.extend_from_slice(a)?;
    let mut amount = a.len().min(1);
    for y in b {
        let shifted = shifted_down(alloc, fill, &made, amount)?;
        let chosen = choose(graph, alloc, *y, &shifted, &made)?;
        made = chosen;
        amount = twice(amount, a.len());
    }
    Ok(made)
}

// Twice a number that is at most the greatest, or the greatest where that is less.
fn twice(n: usize, greatest: usize) -> usize
    requires { n ≤ greatest }
    ensures { result ≡ min (n + n) greatest }
{
    if n < greatest - n { n + n } else { greatest }
}

// How many bits of an amount count at a width: 2 to that many is the width or more.
fn stages(width: usize) -> usize
    requires { width ≤ 128 }
    ensures stages { result ≡ stages_lem width }
    ensures within { result ≤ width }
{
    if width <= 1 {
        0
    } else if width <= 2 {
        1
    } else if width <= 4 {
        2
    } else if width <= 8 {
        3
    } else if width <= 16 {
        4
    } else if width <= 32 {
        5
    } else if width <= 64 {
        6
    } else {
        7
    }
}
