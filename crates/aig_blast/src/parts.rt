//! Words made of the literals of others, with no gate.

ghost use Rattle.std.specs.Prelude.{◌≡◌, ◌+◌, ◌/◌, ◌%◌, ◌^◌, ◌<◌, List, ◌-◌, ◌≤◌, ◌++◌, length, map, take, drop, replicate, IfOk};
ghost use Rattle.aig_blast.specs.Graphs.{negation};
ghost use Rattle.aig_blast.specs.Graphs.{Gates};
ghost use Rattle.kw_bits.specs.BitVector.{IsBitVector};
ghost use Rattle.aig_blast.specs.Words.{MakesBits};

use crate::gate::{Lit, not};
use crate::graph::Graph;
use kw_bits::{Bits, NoMemory};
use std::alloc::Global;

/// The word of the opposite literals.
pub fn invert(alloc: Global, a: &[Lit]) -> Result<Vec<Lit>, NoMemory>
    ensures { IfOk result (λ r. r.items ≡ map negation a.now) }
{
    let mut made = Vec::with_capacity(alloc, a.len())?;
    for x in a {
        made.push(not(*x))?;
    }
    Ok(made)
}

/// The word shifted up, with zeros below.
pub fn shifted_up(alloc: Global, a: &[Lit], amount: usize) -> Result<Vec<Lit>, NoMemory>
    requires { amount ≤ length a.now }
    ensures { IfOk result (λ r. r.items ≡ replicate amount 0 ++ take (length a.now - amount) a.now) }
{
    let mut made = vec![in alloc; Graph::FALSE; amount]?;
    made.extend_from_slice(&a[..a.len() - amount])?;
    Ok(made)
}

/// The word shifted down, with this literal above.
pub fn shifted_down(
    alloc: Global,
    fill: Lit,
    a: &[Lit],
    amount: usize,
) -> Result<Vec<Lit>, NoMemory>
    requires { amount ≤ length a.now }
    ensures { IfOk result (λ r. r.items ≡ drop amount a.now ++ replicate amount fill) }
{
    let mut made = Vec::with_capacity(alloc, a.len())?;
    made.extend_from_slice(&a[amount..])?;
    let above = vec![in alloc; fill; amount]?;
    made.extend_from_slice(&above)?;
    Ok(made)
}

/// The word of a constant.
pub fn constant(alloc: Global, value: Bits) -> Result<Vec<Lit>, NoMemory>
    ensures { IfOk result (λ r. (g : Gates) → MakesBits g g r.items (λ i. value)) }
{
    let (width, number) = (value.width(), value.number());
    let mut made = Vec::with_capacity(alloc, width as usize)?;
    for k in 0..width {
        made.push(bit_of(number, k))?;
    }
    Ok(made)
}

// A bit of a number, which is a constant's literal.
fn bit_of(number: u128, k: u32) -> Lit
    requires { k < 128 }
    ensures bit { result ≡ number / 2 ^ k % 2 }
    ensures constant { result < 2 }
{
    ((number >> k) % 2) as u64
}
