//! Invariants: the bits of registers, found by their names, and their first values.

ghost use Rattle.std.specs.Prelude.{◌≡◌, ◌+◌, ◌<◌, ◌≤◌, ◌^◌, ◌++◌, ◌∷◌, [], List, ℕ, false, length, sum, IfOk, OnOk};
ghost use Rattle.kw_base.specs.Names.{AreNumbered};
ghost use Rattle.aig_blast.specs.Aigs.{input_word_widths, latch_widths};
ghost use Rattle.aig_blast.specs.AigRun.{bits_of, first_words};
ghost use Rattle.aig_blast.specs.Steps.{digits};
ghost use Rattle.invariant_check.specs.Bits as bits;
ghost use Rattle.invariant_check.specs.Bits.{bit_name, bit_names, register_bits};
ghost use Rattle.invariant_check.specs.Invariants as invariants;
ghost use Rattle.invariant_check.specs.Invariants.{number_of};
ghost use Rattle.invariant_check.specs.inner.FirstNames.{AreFirst};

use aig_blast::{InputWord, LatchWord};
use clause_check::Literal;
use itoa::Buffer;
use kw_base::{Added, Names};
use kw_bits::{Bits, NoMemory, Text};
use std::alloc::Global;

/// The registers of a circuit: the names of their bits, each with the number of the first bit that has it, and the
/// first values of the bits by their numbers.
#[derive(Drop)]
pub(crate) struct Registers<'a> {
    pub(crate) latches: &'a [LatchWord],
    pub(crate) names: Names,
    pub(crate) numbers: Vec<u32>,
    pub(crate) firsts: Vec<bool>,
    ghost named: { AreFirst names numbers.items (register_bits latches.now) },
    ghost values: { firsts.items ≡ false ∷ bits_of (first_words latches.now) },
}

impl<'a> Registers<'a> {
    /// The registers that these words of latches are.
    pub(crate) fn new(alloc: Global, latches: &'a [LatchWord]) -> Result<Registers<'a>, NoMemory>
        ensures { IfOk result (λ registers. registers.latches.now ≡ latches.entry.now) }
    {
        let text = all_names(alloc, latches)?;
        let mut names = Names::of_text(alloc, text.as_slice());
        let mut numbers = Vec::new(alloc);
        add_bits(alloc, &mut names, &mut numbers, latches)?;
        let firsts = first_bits(alloc, latches)?;
        Ok(Registers {
            latches,
            names,
            numbers,
            firsts,
        })
    }

    /// How many bits they have.
    pub(crate) fn count(&self) -> Result<u32, NoMemory>
        ensures { IfOk result (λ count. count ≡ sum (latch_widths self.now.latches.now)) }
    {
        match u32::try_from(self.firsts.len() - 1) {
            Ok(count) => Ok(count),
            Err(_) => Err(NoMemory),
        }
    }

    /// The literal that a word is, if it is one.
    pub(crate) fn literal(&self, word: &[u8]) -> Option<Literal>
        ensures { result ≡ invariants.literal_of (register_bits self.now.latches.now) word.now }
    {
        let Some((first, name)) = word.split_first() else {
            return self.literal_by(false, word);
        };
        if *first == b'~' {
            return self.literal_by(true, name);
        }
        self.literal_by(false, word)
    }

    // The literal of the bit with a name.
    fn literal_by(&self, is_negated: bool, name: &[u8]) -> Option<Literal>
        ensures { result ≡ invariants.literal_by is_negated (number_of (register_bits self.now.latches.now) name.now) }
    {
        let number = self.names.find(name)?;
        Some(Literal {
            variable: self.numbers[number as usize],
            is_negated,
        })
    }
}

// The names of all registers in a row.
fn all_names(alloc: Global, latches: &[LatchWord]) -> Result<Text, NoMemory> {
    let mut text = Text::new(alloc);
    for word in latches {
        text.extend_from_slice(word.name.as_slice())?;
    }
    Ok(text)
}

// Adds the names of all bits.
fn add_bits(
    alloc: Global,
    names: &mut Names,
    numbers: &mut Vec<u32>,
    latches: &[LatchWord],
) -> Result<(), NoMemory>
    requires names { names.old ≡ [] }
    requires numbers { numbers.old.items ≡ [] }
    ensures { OnOk result (AreFirst names.new numbers.new.items (register_bits latches.now)) }
{
    let mut text = Text::new(alloc);
    let mut count: u32 = 0;
    for word in latches {
        let name = word.name.as_slice();
        count = add_word(names, numbers, count, name, word.first.width(), &mut text)?;
    }
    Ok(())
}

// Adds the names of the bits of a word, after this many bits. It gives how many there are then.
fn add_word(
    names: &mut Names,
    numbers: &mut Vec<u32>,
    before: u32,
    name: &[u8],
    width: u32,
    text: &mut Text,
) -> Result<u32, NoMemory>
    ensures count { IfOk result (λ count. count ≡ before + width) }
    ensures first { OnOk result ((bits : List (List ℕ)) → AreFirst names.old numbers.old.items bits → before
        ≡ length bits
        → AreFirst names.new numbers.new.items (bits ++ bit_names name.now width)) }
{
    let mut count = before;
    for bit in 0..width {
        text.clear();
        push_bit_name(text, name, bit)?;
        count = add_bit(names, numbers, count, text.as_slice())?;
    }
    Ok(count)
}

// Adds the name of the bit after this many others. It gives its number.
fn add_bit(
    names: &mut Names,
    numbers: &mut Vec<u32>,
    before: u32,
    name: &[u8],
) -> Result<u32, NoMemory>
    ensures count { IfOk result (λ count. count ≡ before + 1) }
    ensures first { OnOk result ((bits : List (List ℕ)) → AreFirst names.old numbers.old.items bits → before
        ≡ length bits
        → AreFirst names.new numbers.new.items (bits ++ name.now ∷ [])) }
{
    let Some(number) = before.checked_add(1) else {
        return Err(NoMemory);
    };
    if names.len() > u32::MAX as usize {
        return Err(NoMemory);
    }
    if let Added::New(_) = names.add(name)? {
        numbers.push(number)?;
    }
    Ok(number)
}

/// Adds the name of a bit of a word.
pub(crate) fn push_bit_name(text: &mut Text, name: &[u8], bit: u32) -> Result<(), NoMemory>
    ensures { OnOk result (text.new ≡ text.old ++ bit_name name.now bit) }
{
    let mut buffer = Buffer::new();
    text.extend_from_slice(name)?;
    text.extend_from_slice(b"[")?;
    text.extend_from_slice(buffer.format(bit).as_bytes())?;
    text.extend_from_slice(b"]")
}

/// How many bits words of inputs have.
pub(crate) fn count_inputs(words: &[InputWord]) -> usize
    requires { sum (input_word_widths words.now) ≤ 2 ^ 60 }
    ensures { result ≡ sum (input_word_widths words.now) }
{
    let mut count: usize = 0;
    for word in words {
        count += word.width as usize;
    }
    count
}

// The first values of the bits of registers, by their numbers from 1 on.
fn first_bits(alloc: Global, latches: &[LatchWord]) -> Result<Vec<bool>, NoMemory>
    ensures { IfOk result (λ values. values.items ≡ false ∷ bits_of (first_words latches.now)) }
{
    let mut values = Vec::new(alloc);
    values.push(false)?;
    for word in latches {
        add_digits(&mut values, word.first)?;
    }
    Ok(values)
}

// Adds the bits of a word.
fn add_digits(values: &mut Vec<bool>, word: Bits) -> Result<(), NoMemory>
    ensures { OnOk result (values.new.items ≡ values.old.items ++ digits word.number word.width) }
{
    let number = word.number();
    for k in 0..word.width() {
        values.push((number >> k) % 2 == 1)?;
    }
    Ok(())
}
