//! Journals: a design's registers and rules, found by name.

ghost use Rattle.std.specs.Prelude.{◌≡◌, ◌<◌, ◌≤◌, ◌^◌, ◌++◌, ◌∷◌, [], length, IfOk, IfSome, true};
ghost use Rattle.journal_check.specs.inner.Naming.{Knows, NamesOf};
ghost use Rattle.journal_check.specs.Tokens.{number_named, register_names, rule_names};
ghost use Rattle.journal_check.specs.inner.Tokens.{Reads, ReadsFront, rule_at, tokens_left};

use crate::token::{Malformed, next_token};
use kw_base::{Added, Names};
use kw_bits::{Failure, NoMemory, Text};
use std::alloc::Global;
use typed_core::Design;

/// A design, with the names of its registers and those of its rules. Where two have one name there are none, and a
/// name is looked for among the declarations.
#[derive(Drop)]
pub(crate) struct Vocabulary<'a> {
    pub(crate) design: &'a Design,
    pub(crate) registers: Option<Names>,
    pub(crate) rules: Option<Names>,
}

impl Vocabulary<'_> {
    /// The names of a design.
    pub(crate) fn new(alloc: Global, design: &Design) -> Result<Vocabulary<'_>, NoMemory>
        ensures { IfOk result (λ v. Knows v.design.now v.registers v.rules × (v.design.now ≡ design.now)) }
    {
        Ok(Vocabulary {
            design,
            registers: names_of_registers(alloc, design)?,
            rules: names_of_rules(alloc, design)?,
        })
    }

    /// The first register of a name.
    pub(crate) fn register(&self, name: &[u8]) -> Result<u32, Failure<Malformed>>
        requires { Knows self.now.design.now self.now.registers self.now.rules }
        ensures { Reads (λ number. number) result (number_named (register_names self.now.design.now) name.now) }
    {
        match &self.registers {
            Some(names) => number_found(names.find(name)),
            None => number_found(position_of_register(self.design, name)),
        }
    }

    /// The first rule of the name at a cursor.
    #[tactic(auto, unfolding(crate::specs::inner::Tokens::rule_at))]
    pub(crate) fn rule<'b>(
        &self,
        rest: Option<&'b [u8]>,
    ) -> Result<(u32, Option<&'b [u8]>), Failure<Malformed>>
        requires { Knows self.now.design.now self.now.registers self.now.rules }
        ensures { ReadsFront result (rule_at self.now.design.now (tokens_left rest.entry)) }
    {
        let (name, rest) = next_token(rest)?;
        Ok((self.rule_named(name)?, rest))
    }

    // The first rule of a name.
    fn rule_named(&self, name: &[u8]) -> Result<u32, Failure<Malformed>>
        requires { Knows self.now.design.now self.now.registers self.now.rules }
        ensures { Reads (λ number. number) result (number_named (rule_names self.now.design.now) name.now) }
    {
        match &self.rules {
            Some(names) => number_found(names.find(name)),
            None => number_found(position_of_rule(self.design, name)),
        }
    }
}

fn number_found(number: Option<u32>) -> Result<u32, Failure<Malformed>>
    ensures { Reads (λ number. number) result number }
{
    match number {
        Some(number) => Ok(number),
        None => Err(Failure::Why(Malformed)),
    }
}

fn position_of_register(design: &Design, name: &[u8]) -> Option<u32>
    ensures { result ≡ number_named (register_names design.now) name.now }
{
    let regs = design.regs.as_slice();
    for number in 0..regs.len() {
        if name == regs[number].name.as_slice() {
            return Some(number as u32);
        }
    }
    None
}

/// The number of the first rule of a name.
pub fn position_of_rule(design: &Design, name: &[u8]) -> Option<u32>
    ensures { result ≡ number_named (rule_names design.now) name.now }
{
    let rules = design.rules.as_slice();
    for number in 0..rules.len() {
        if name == rules[number].name.as_slice() {
            return Some(number as u32);
        }
    }
    None
}

// The names of the registers, where no two are one.
fn names_of_registers(alloc: Global, design: &Design) -> Result<Option<Names>, NoMemory>
    ensures { IfOk result (NamesOf (register_names design.now)) }
{
    let text = text_of_registers(alloc, design)?;
    let mut names = Names::of_text(alloc, text.as_slice());
    for decl in design.regs.as_slice() {
        if !add(&mut names, decl.name.as_slice())? {
            return Ok(None);
        }
    }
    Ok(Some(names))
}

// The names of the rules, where no two are one.
fn names_of_rules(alloc: Global, design: &Design) -> Result<Option<Names>, NoMemory>
    ensures { IfOk result (NamesOf (rule_names design.now)) }
{
    let text = text_of_rules(alloc, design)?;
    let mut names = Names::of_text(alloc, text.as_slice());
    for rule in design.rules.as_slice() {
        if !add(&mut names, rule.name.as_slice())? {
            return Ok(None);
        }
    }
    Ok(Some(names))
}

// All names of registers in a row: others choose them, so the hash is theirs alone.
fn text_of_registers(alloc: Global, design: &Design) -> Result<Text, NoMemory> {
    let mut text = Text::new(alloc);
    for decl in design.regs.as_slice() {
        text.extend_from_slice(decl.name.as_slice())?;
    }
    Ok(text)
}

// All names of rules in a row.
fn text_of_rules(alloc: Global, design: &Design) -> Result<Text, NoMemory> {
    let mut text = Text::new(alloc);
    for rule in design.rules.as_slice() {
        text.extend_from_slice(rule.name.as_slice())?;
    }
    Ok(text)
}

// Adds a name, and answers whether it is new.
fn add(names: &mut Names, name: &[u8]) -> Result<bool, NoMemory>
    requires { length names.old < 2 ^ 32 }
    ensures { IfOk result (λ is_new. is_new ≡ true → names.new ≡ names.old ++ name.now ∷ []) }
{
    match names.add(name)? {
        Added::New(_) => Ok(true),
        Added::There(_) => Ok(false),
    }
}
