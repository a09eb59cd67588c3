//! Obligations: the variables of a graph that literals depend on.

ghost use Rattle.std.specs.Prelude.{◌≡◌, ◌+◌, ◌-◌, ◌/◌, ◌<◌, ◌≤◌, ◌^◌, ◌++◌, Bool, replicate, length, All, IfOk, OnOk};
ghost use Rattle.aig_blast.specs.Graphs.{AllStand, Below};
ghost use Rattle.invariant_check.specs.Cones as cones;
ghost use Rattle.invariant_check.specs.Cones.{with_gate, with_gates, with_literals};

use aig_blast::{Gate, Lit};
use kw_bits::NoMemory;
use std::alloc::Global;

/// The cone of literals in a graph over this many sources: for each variable whether it is needed.
#[tactic(auto, unfolding(crate::specs::Cones::cone_of))]
pub(crate) fn cone_of(
    alloc: Global,
    sources: usize,
    gates: &[Gate],
    lits: &[Lit],
) -> Result<Vec<bool>, NoMemory>
    requires few { sources ≤ 2 ^ 60 }
    requires stand { AllStand sources gates.now }
    requires below { All (Below (sources + length gates.now)) lits.now }
    ensures { IfOk result (λ needed. needed.items ≡ cones.cone_of sources gates.now lits.now) }
{
    let mut needed = Vec::new(alloc);
    add_flags(&mut needed, 1 + sources, true)?;
    add_flags(&mut needed, gates.len(), false)?;
    need_literals(&mut needed, lits);
    need_gates(&mut needed, sources, gates);
    Ok(needed)
}

fn add_flags(needed: &mut Vec<bool>, count: usize, flag: bool) -> Result<(), NoMemory>
    ensures { OnOk result (needed.new.items ≡ needed.old.items ++ replicate count flag) }
{
    for _place in 0..count {
        needed.push(flag)?;
    }
    Ok(())
}

// The variables of literals are needed too.
fn need_literals(needed: &mut [bool], lits: &[Lit])
    requires { All (λ lit. lit / 2 < length needed.old) lits.now }
    ensures { needed.new ≡ with_literals needed.old lits.now }
{
    for lit in lits {
        needed[(*lit / 2) as usize] = true;
    }
}

// What is needed by gates that come after this many sources is needed too.
fn need_gates(needed: &mut [bool], sources: usize, gates: &[Gate])
    requires room { 1 + sources + length gates.now ≤ length needed.old }
    requires stand { AllStand sources gates.now }
    ensures { needed.new ≡ with_gates needed.old (1 + sources) gates.now }
{
    let mut count = gates.len();
    while count > 0 {
        count -= 1;
        need_gate(needed, 1 + sources + count, gates[count]);
    }
}

// What a gate needs is needed too, if the gate is, which is this variable.
fn need_gate(needed: &mut [bool], variable: usize, gate: Gate)
    requires within { variable < length needed.old }
    requires left { gate.left / 2 < length needed.old }
    requires right { gate.right / 2 < length needed.old }
    ensures { needed.new ≡ with_gate needed.old variable gate }
{
    if needed[variable] {
        needed[(gate.left / 2) as usize] = true;
        needed[(gate.right / 2) as usize] = true;
    }
}

/// The greatest variable that is needed.
pub(crate) fn greatest(needed: &[bool]) -> usize
    requires { 0 < length needed.now }
    ensures { result ≡ cones.greatest needed.now (length needed.now - 1) }
{
    let mut top = needed.len() - 1;
    while top > 0 && !needed[top] {
        top -= 1;
    }
    top
}
