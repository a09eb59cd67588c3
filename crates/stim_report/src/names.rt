//! Reports: the inputs of a stimulus, found by name.

// The inputs by their names.
ghost use Rattle.std.specs.Prelude.{◌≡◌, ◌≤◌, ◌<◌, ◌+◌, ◌^◌, ◌++◌, ◌∷◌, [], List, IfOk, OnOk, length};
ghost use Rattle.kw_base.specs.Names.{AreNumbered, number_of};
ghost use Rattle.stim_report.specs.Assignments.{input_by_name};
ghost use Rattle.stim_report.specs.inner.FirstNames.{AreFirst};
ghost use Rattle.stim_report.specs.declared.shape.NameWidth.{NameWidth as NamedInput};

use crate::NameWidth;
use kw_base::{Added, Names};
use kw_bits::{NoMemory, Text};
use std::alloc::Global;

/// The names of inputs, each with the number of the first input that has it.
#[derive(Drop)]
pub(crate) struct InputNames {
    pub(crate) names: Names,
    pub(crate) firsts: Vec<u32>,
}

impl InputNames {
    /// The names of these inputs.
    pub(crate) fn new(alloc: Global, inputs: &[NameWidth]) -> Result<InputNames, NoMemory>
        requires { length inputs.now < 2 ^ 32 }
        ensures { IfOk result (λ n. AreFirst n.names n.firsts.items inputs.now) }
    {
        let mut names = Names::of_text(alloc, all_names(alloc, inputs)?.as_slice());
        let mut firsts: Vec<u32> = Vec::new(alloc);
        for (number, input) in inputs.iter().enumerate() {
            add_name(&mut names, &mut firsts, input, number as u32)?;
        }
        Ok(InputNames { names, firsts })
    }

    /// The first input of a name, found faster where it is the one that is expected.
    pub(crate) fn find(&self, inputs: &[NameWidth], name: &[u8], expected: u32) -> Option<u32>
        requires { AreFirst self.now.names self.now.firsts.items inputs.now }
        ensures { result ≡ input_by_name inputs.now name.now }
    {
        let number = find_near(&self.names, name, expected)?;
        Some(self.firsts[number as usize])
    }
}

// The number of a name. That of the expected one is found without a hash, which costs more than the rest of a short
// assignment.
fn find_near(names: &Names, name: &[u8], expected: u32) -> Option<u32>
    requires { AreNumbered names.now }
    ensures number { result ≡ number_of names.now name.now }
{
    if (expected as usize) < names.len() && names.name(expected) == name {
        return Some(expected);
    }
    names.find(name)
}

// Adds the name of the next input.
fn add_name(
    names: &mut Names,
    firsts: &mut Vec<u32>,
    input: &NameWidth,
    number: u32,
) -> Result<(), NoMemory>
    requires { length names.old < 2 ^ 32 }
    ensures count { OnOk result (length names.new ≤ length names.old + 1) }
    ensures first { OnOk result ((before : List NamedInput) → AreFirst names.old firsts.old.items before → number ≡ length before
        → AreFirst names.new firsts.new.items (before ++ input.now ∷ [])) }
{
    if let Added::New(_) = names.add(input.name.as_slice())? {
        firsts.push(number)?;
    }
    Ok(())
}

// The names of all inputs in a row.
fn all_names(alloc: Global, inputs: &[NameWidth]) -> Result<Text, NoMemory> {
    let mut text = Text::new(alloc);
    for input in inputs {
        text.extend_from_slice(input.name.as_slice())?;
    }
    Ok(text)
}
