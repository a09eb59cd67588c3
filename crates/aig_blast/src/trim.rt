//! A graph without the gates that nothing needs.

ghost use Rattle.std.specs.Prelude.{◌≡◌, ◌+◌, ◌*◌, ◌/◌, ◌&&◌, ◌≤◌, ◌<◌, ◌^◌, ℕ, Bool, true, List, Some, All, IfOk, IfSome, length, map};
ghost use Rattle.aig_blast.specs.Graphs.{Gates, IsGraph, IsLit, Keeps, Makes, value};
ghost use Rattle.aig_blast.specs.inner.Trims.{ArePlaces, IsPlaced, moved as moved_lit, place_at};

use crate::gate::{Gate, Lit, not};
use crate::graph::Graph;
use crate::sources::Word;
use kw_bits::{NoMemory, Sequence};
use std::alloc::Global;

/// A copy of some of a graph's gates, and the literal of each variable that it has.
#[derive(Drop)]
pub(crate) struct Copy {
    pub(crate) graph: Graph,
    pub(crate) places: Vec<Option<Lit>>,
}

// The literal of a literal's variable in a copy.
fn place_of(places: &[Option<Lit>], lit: Lit) -> Option<Lit>
    ensures { result ≡ place_at places.now (lit / 2) }
{
    let variable = (lit / 2) as usize;
    if variable < places.len() {
        places[variable]
    } else {
        None
    }
}

// A literal in a copy, or the literal that is false.
fn moved(places: &[Option<Lit>], lit: Lit) -> Lit
    ensures { result ≡ moved_lit places.now lit }
{
    match place_of(places, lit) {
        Some(place) => { if lit % 2 == 1 { not(place) } else { place } }
        None => Graph::FALSE,
    }
}

// Whether a copy has a literal.
fn is_placed(places: &[Option<Lit>], lit: Lit) -> bool
    ensures { result ≡ true → IsPlaced places.now lit }
{
    place_of(places, lit).is_some()
}

/// Whether a copy has all literals of a word.
pub(crate) fn is_word_placed(places: &[Option<Lit>], word: &[Lit]) -> bool
    ensures { result ≡ true → All (IsPlaced places.now) word.now }
{
    for lit in word {
        if !is_placed(places, *lit) {
            return false;
        }
    }
    true
}

/// Notes that a literal's variable is needed.
pub(crate) fn mark(needed: &mut Vec<bool>, lit: Lit) {
    let variable = (lit / 2) as usize;
    if variable < needed.len() {
        needed[variable] = true;
    }
}

/// The same of each literal of a word.
pub(crate) fn mark_word(needed: &mut Vec<bool>, word: &[Lit]) {
    for lit in word {
        mark(needed, *lit);
    }
}

/// Whether a variable is needed.
pub(crate) fn is_marked(needed: &[bool], variable: usize) -> bool {
    variable < needed.len() && needed[variable]
}

// The literal of a gate in a copy, which gets it where it is needed and its operands are there.
fn copied_gate(
    copy: &mut Graph,
    places: &[Option<Lit>],
    gate: Gate,
    is_needed: bool,
) -> Result<Option<Lit>, NoMemory>
    requires { (v place : ℕ) → place_at places.now v ≡ Some place → IsLit copy.old place }
    ensures keeps { IfOk result (λ place. Keeps copy.old copy.new) }
    ensures left { IfOk result (λ place. IfSome place (λ lit. IsPlaced places.now gate.left)) }
    ensures right { IfOk result (λ place. IfSome place (λ lit. IsPlaced places.now gate.right)) }
    ensures makes { IfOk result (λ place. IfSome place (λ lit. Makes copy.old copy.new lit (λ i. value i copy.old (moved_lit places.now gate.left) && value i copy.old (moved_lit places.now gate.right)))) }
{
    if !is_needed {
        return Ok(None);
    }
    if !is_placed(places, gate.left) {
        return Ok(None);
    }
    if !is_placed(places, gate.right) {
        return Ok(None);
    }
    let lit = copy.and(moved(places, gate.left), moved(places, gate.right))?;
    Ok(Some(lit))
}

/// A copy of a graph with the gates that are needed, and whose operands are.
pub(crate) fn copied(alloc: Global, graph: &Graph, needed: &[bool]) -> Result<Copy, NoMemory>
    ensures places { IfOk result (λ r. ArePlaces graph.now r.graph r.places.items) }
    ensures graph { IfOk result (λ r. IsGraph r.graph) }
{
    let gates = graph.gates();
    let sources = graph.source_count();
    let mut places = source_places(alloc, sources)?;
    let mut copy = Graph::new(alloc, sources);
    for gate in gates {
        let is_needed = is_marked(needed, places.len());
        let place = copied_gate(&mut copy, &places, *gate, is_needed)?;
        places.push(place)?;
    }
    Ok(Copy {
        graph: copy,
        places,
    })
}

// The literals of sources, and of the variable that is false.
fn source_places(alloc: Global, sources: u64) -> Result<Vec<Option<Lit>>, NoMemory>
    requires { sources ≤ 2 ^ 60 }
    ensures count { IfOk result (λ r. length r.items ≡ 1 + sources) }
    ensures own { IfOk result (λ r. (v place : ℕ) → place_at r.items v ≡ Some place → (place ≡ 2 * v) × (v ≤ sources)) }
{
    let mut places = Vec::new(alloc);
    for variable in 0..sources + 1 {
        places.push(Some(2 * variable))?;
    }
    Ok(places)
}

/// Words in a copy.
pub(crate) fn moved_words(
    alloc: Global,
    places: &[Option<Lit>],
    words: &[Word],
) -> Result<Sequence<Word>, NoMemory>
    ensures { IfOk result (λ r. r ≡ map (map (moved_lit places.now)) words.now) }
{
    let mut made = Sequence::new(alloc);
    for word in words {
        made.push(moved_word(alloc, places, word.as_slice())?)?;
    }
    Ok(made)
}

fn moved_word(alloc: Global, places: &[Option<Lit>], word: &[Lit]) -> Result<Word, NoMemory>
    ensures { IfOk result (λ r. r ≡ map (moved_lit places.now) word.now) }
{
    let mut made = Sequence::new(alloc);
    for lit in word {
        made.push(moved(places, *lit))?;
    }
    Ok(made)
}
