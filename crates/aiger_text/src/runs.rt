//! Words of inputs and latches, by the symbols of their bits.

ghost use Rattle.std.specs.Prelude.{◌≡◌, ◌+◌, ◌*◌, ◌≤◌, ◌<◌, ◌^◌, ◌++◌, ◌∷◌, [], List, Option, ℕ, All, IfOk, bytes_eq, decimal, length, sum};
ghost use Rattle.aig_blast.specs.Aigs.{input_word_widths};
ghost use Rattle.aig_blast.specs.BitLists.{as_bits, bit};
ghost use Rattle.aiger_text.specs.Printing.{bit_name};
ghost use Rattle.aiger_text.specs.inner.RunsSoFar.{run_of};
ghost use Rattle.aiger_text.specs.Runs as runs;
ghost use Rattle.aiger_text.specs.Runs.{words_from};

use aig_blast::{InputWord, LatchWord, Lit, OutputBit};
use itoa::Buffer;
use kw_bits::{Bits, NoMemory, Sequence, Text};
use std::alloc::Global;

/// The most bits of a word.
const MOST_BITS: u32 = 128;

/// A word so far, and whether it is a run of bits with the symbols `x[0]`, `x[1]` and so on.
#[derive(Drop)]
pub(crate) struct Run {
    word: InputWord,
    is_run: bool,
}

/// The words of all bits of a kind, `i` or `l`, by their symbols.
pub(crate) fn words_of(
    alloc: Global,
    kind: u8,
    symbols: &[Option<Text>],
) -> Result<Vec<InputWord>, NoMemory>
    ensures { IfOk result (λ words. words.items ≡ runs.words_of_bits kind symbols.now) }
{
    let mut words = Vec::new(alloc);
    let Some((first, others)) = symbols.split_first() else {
        return Ok(words);
    };
    let mut run = begin(alloc, kind, 0, first)?;
    for (k, symbol) in others.iter().enumerate() {
        run = go_on(alloc, &mut words, run, kind, k as u64 + 1, symbol)?;
    }
    words.push(run.word)?;
    Ok(words)
}

// The run after one more bit. A run that doesn't go on with it is kept as a word.
fn go_on(
    alloc: Global,
    words: &mut Vec<InputWord>,
    run: Run,
    kind: u8,
    index: u64,
    symbol: &Option<Text>,
) -> Result<Run, NoMemory>
    ensures { IfOk result (λ next. (rest : List (Option (List ℕ))) →
        words.new.items ++ words_from kind (index + 1) (run_of next) rest ≡ words.old.items ++ words_from kind index (run_of run) (symbol.now ∷ rest)) }
{
    if goes_on(&run, symbol) {
        return Ok(wider(run));
    }
    words.push(run.word)?;
    let next = begin(alloc, kind, index, symbol)?;
    Ok(next)
}

// A run with one bit more.
fn wider(run: Run) -> Run
    requires { run.word.width < 128 }
    ensures { run_of result ≡ runs.wider (run_of run) }
{
    let width = run.word.width + 1;
    let is_run = run.is_run;
    let name = run.word.name;
    Run {
        word: InputWord { name, width },
        is_run,
    }
}

// The run that a bit begins.
fn begin(alloc: Global, kind: u8, index: u64, symbol: &Option<Text>) -> Result<Run, NoMemory>
    ensures { IfOk result (λ run. run_of run ≡ runs.begun kind index symbol.now) }
{
    let Some(symbol) = symbol else {
        let name = default_name(alloc, kind, index)?;
        return Ok(Run {
            word: InputWord { name, width: 1 },
            is_run: false,
        });
    };
    begin_named(alloc, symbol.as_slice())
}

fn begin_named(alloc: Global, symbol: &[u8]) -> Result<Run, NoMemory>
    ensures { IfOk result (λ run. run_of run ≡ runs.begun_by symbol.now) }
{
    if begins_run(symbol) {
        let name = Text::from_slice(alloc, symbol.split_at(symbol.len() - 3).0)?;
        return Ok(Run {
            word: InputWord { name, width: 1 },
            is_run: true,
        });
    }
    let name = Text::from_slice(alloc, symbol)?;
    Ok(Run {
        word: InputWord { name, width: 1 },
        is_run: false,
    })
}

// Whether a symbol ends with `[0]` after a byte or more.
fn begins_run(symbol: &[u8]) -> bool
    ensures { result ≡ runs.begins_run symbol.now }
{
    if symbol.len() <= 3 {
        return false;
    }
    symbol.split_at(symbol.len() - 3).1 == b"[0]".as_slice()
}

// Whether a bit with this symbol, or none, goes on with a run.
fn goes_on(run: &Run, symbol: &Option<Text>) -> bool
    ensures { result ≡ runs.goes_on (run_of run.now) symbol.now }
{
    if !run.is_run || run.word.width >= MOST_BITS {
        return false;
    }
    match symbol {
        Some(symbol) => is_bit_name(symbol.as_slice(), run.word.name.as_slice(), run.word.width),
        None => false,
    }
}

// Whether a symbol is that of a bit of a word of this name.
fn is_bit_name(symbol: &[u8], name: &[u8], k: u32) -> bool
    ensures { result ≡ bytes_eq symbol.now (bit_name name.now k) }
{
    if symbol.len() < name.len() {
        return false;
    }
    let (front, end) = symbol.split_at(name.len());
    front == name && is_index(end, k)
}

// Whether bytes are a number in brackets.
fn is_index(bytes: &[u8], k: u32) -> bool
    ensures { result ≡ bytes_eq bytes.now (91 ∷ decimal k ++ 93 ∷ []) }
{
    let mut buffer = Buffer::new();
    let digits = buffer.format(k).as_bytes();
    let Some((first, rest)) = bytes.split_first() else {
        return false;
    };
    let Some((last, inner)) = rest.split_last() else {
        return false;
    };
    if *first != b'[' {
        return false;
    }
    if *last != b']' {
        return false;
    }
    inner == digits
}

// The name of a bit without a symbol: its kind and its index.
fn default_name(alloc: Global, kind: u8, index: u64) -> Result<Text, NoMemory>
    ensures { IfOk result (λ name. name ≡ kind ∷ decimal index) }
{
    let mut buffer = Buffer::new();
    let mut name = Text::from_slice(alloc, &[kind])?;
    name.extend_from_slice(buffer.format(index).as_bytes())?;
    Ok(name)
}

/// The words of latches, by the next literals and the resets of all.
pub(crate) fn latch_words(
    alloc: Global,
    words: &[InputWord],
    nexts: &[Lit],
    resets: &[bool],
) -> Result<Vec<LatchWord>, NoMemory>
    requires widths { All (λ word. (1 ≤ word.width) × (word.width ≤ 128)) words.now }
    requires nexts { length nexts.now ≡ sum (input_word_widths words.now) }
    requires resets { length resets.now ≡ sum (input_word_widths words.now) }
    ensures { IfOk result (λ latches. latches.items ≡ runs.latch_words words.now nexts.now resets.now) }
{
    let mut latches = Vec::new(alloc);
    let mut literals = nexts;
    let mut values = resets;
    for word in words {
        let (own, rest) = literals.split_at(word.width as usize);
        let (first, others) = values.split_at(word.width as usize);
        latches.push(latch_word(alloc, word, own, first)?)?;
        literals = rest;
        values = others;
    }
    Ok(latches)
}

fn latch_word(
    alloc: Global,
    word: &InputWord,
    nexts: &[Lit],
    resets: &[bool],
) -> Result<LatchWord, NoMemory>
    requires some { 1 ≤ length resets.now }
    requires most { length resets.now ≤ 128 }
    ensures { IfOk result (λ latch. latch ≡ record { name = word.now.name; first = as_bits resets.now; nexts = nexts.now }) }
{
    Ok(LatchWord {
        name: Text::from_slice(alloc, word.name.as_slice())?,
        first: bits_of(resets),
        nexts: Sequence::from_slice(alloc, nexts)?,
    })
}

// The bit vector of truth values, bit 0 first.
fn bits_of(flags: &[bool]) -> Bits
    requires some { 1 ≤ length flags.now }
    requires most { length flags.now ≤ 128 }
    ensures { result ≡ as_bits flags.now }
{
    let mut number: u128 = 0;
    for (k, flag) in flags.iter().enumerate() {
        number = with_bit(number, k as u32, *flag);
    }
    Bits::new(flags.len() as u32, number).unwrap()
}

// A number of this many bits with one bit more above.
fn with_bit(number: u128, width: u32, top: bool) -> u128
    requires width { width < 128 }
    requires number { number < 2 ^ width }
    ensures { result ≡ number + 2 ^ width * bit top }
{
    if top { number + (1 << width) } else { number }
}

/// The outputs, by their symbols and literals.
pub(crate) fn output_bits(
    alloc: Global,
    symbols: &[Option<Text>],
    lits: &[Lit],
) -> Result<Vec<OutputBit>, NoMemory>
    requires { length lits.now ≡ length symbols.now }
    ensures { IfOk result (λ outputs. outputs.items ≡ runs.output_bits 0 symbols.now lits.now) }
{
    let mut outputs = Vec::new(alloc);
    for (k, symbol) in symbols.iter().enumerate() {
        let name = name_or(alloc, b'o', k as u64, symbol)?;
        outputs.push(OutputBit { name, lit: lits[k] })?;
    }
    Ok(outputs)
}

fn name_or(alloc: Global, kind: u8, index: u64, symbol: &Option<Text>) -> Result<Text, NoMemory>
    ensures { IfOk result (λ name. name ≡ runs.name_or kind index symbol.now) }
{
    match symbol {
        Some(symbol) => Text::from_slice(alloc, symbol.as_slice()),
        None => default_name(alloc, kind, index),
    }
}
