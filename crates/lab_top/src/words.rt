//! Program: the arguments, and what they ask for.

ghost use Rattle.std.specs.Prelude.{◌≡◌, Some, fold, map, string_bytes, IfOk, IfSome};
ghost use Rattle.std.specs.List.{list_all};
ghost use Rattle.lab_top.specs.inner.Steps.{HasSomeCycles, longest_of};
ghost use Rattle.lab_top.specs.Words.{begins_name, command_of, continues_name, is_name, name_of, options_of};
ghost use Rattle.lab_top.specs.Words.{certify_of, lint_of, obligation_of};
ghost use Rattle.lab_top.specs.Words.{profile_of, verilog_by, verilog_of, waves_of, why_from, why_of};
ghost use Rattle.lab_top.specs.Words.{with_cycle, with_cycles, with_name, with_rule, with_strict, with_word};
ghost use Rattle.lab_top.specs.Words.{no_ports, with_port, with_registers, with_reset};

use crate::given::read_options;
use front_end::number_of;
use kw_bits::{NoMemory, Text};
use std::alloc::Global;
use verilog_text::Options as Ports;

/// What the arguments ask for.
#[derive(Debug, Drop)]
pub enum Command {
    /// Why the rules fired or didn't, for so many cycles of a run from this one on; of one rule, if it is named.
    Why {
        cycle: u32,
        cycles: u32,
        rule: Option<Text>,
    },
    /// How often the rules of a run fired or didn't in that many cycles, and whether a failed assertion is a failure.
    Profile {
        cycles: u32,
        is_strict: bool,
    },
    /// The waves of a run of that many cycles.
    Waves {
        cycles: u32,
    },
    /// The Verilog module of a design, with these ports beside its inputs and rules.
    Verilog(Ports),
    /// What is noted of a design before its first run.
    Lint,
    /// The clauses to be refuted for a claim: that each cycle keeps the source's invariant, and that under it no asserted
    /// rule fires, or not the one that is named.
    Obligation {
        rule: Option<Text>,
    },
    /// What is certified of such a claim, by the source's refutation of these clauses.
    Certify {
        rule: Option<Text>,
    },
}

// A source may have this many bytes, and one with a certificate this many.
const LONGEST_SOURCE: usize = 1_048_576;

const LONGEST_CERTIFIED: usize = 268_435_456;

impl Command {
    /// How many bytes the source of the command may have.
    pub(crate) fn longest_source(&self) -> usize
        ensures { result ≡ longest_of self.now }
    {
        match self {
            Command::Obligation { .. } | Command::Certify { .. } => LONGEST_CERTIFIED,
            _ => LONGEST_SOURCE,
        }
    }
}

/// The options that are given.
#[derive(Debug, Drop)]
pub(crate) struct Options {
    pub(crate) cycle: Option<u32>,
    pub(crate) cycles: Option<u32>,
    pub(crate) rule: Option<Text>,
    pub(crate) is_strict: bool,
}

// Options are at most this many words, since each is at most once.
const MOST_WORDS: usize = 7;

/// The command that the words of the command line ask for, if they are understood.
pub(crate) fn command_of(alloc: Global, words: &[String]) -> Result<Option<Command>, NoMemory>
    ensures command { IfOk result (λ command. command ≡ command_of (map string_bytes words.now)) }
    ensures some { IfOk result (λ command. IfSome command HasSomeCycles) }
{
    match words {
        [command, options @ ..] if command.as_str() == "why" => {
            Ok(why_of(given(alloc, "why", options)?))
        }
        [command, options @ ..] if command.as_str() == "profile" => {
            Ok(profile_of(given(alloc, "profile", options)?))
        }
        [command, options @ ..] if command.as_str() == "waves" => {
            Ok(waves_of(given(alloc, "waves", options)?))
        }
        [command, options @ ..] if command.as_str() == "verilog" => Ok(verilog_of(options)),
        [command, options @ ..] if command.as_str() == "lint" => Ok(lint_of(options)),
        [command, options @ ..] if command.as_str() == "obligation" => {
            Ok(obligation_of(given(alloc, "obligation", options)?))
        }
        [command, options @ ..] if command.as_str() == "certify" => {
            Ok(certify_of(given(alloc, "certify", options)?))
        }
        _ => Ok(None),
    }
}

// The options that words give to the command of this name, if they are valid: the own test comes first.
fn given(alloc: Global, name: &str, words: &[String]) -> Result<Option<Options>, NoMemory>
    ensures { IfOk result (λ found. found ≡ options_of (map string_bytes words.now)) }
{
    if few_options_of(alloc, words)?.is_none() {
        return Ok(None);
    }
    Ok(Some(read_options(alloc, name, words)?))
}

// The options that words give, of which more than are ever valid aren't looked at.
fn few_options_of(alloc: Global, words: &[String]) -> Result<Option<Options>, NoMemory>
    ensures { IfOk result (λ found. found ≡ options_of (map string_bytes words.now)) }
{
    if words.len() > MOST_WORDS {
        return Ok(None);
    }
    options_of(alloc, words)
}

// `why` with options, if they are valid: it needs the first cycle, and isn't strict.
fn why_of(options: Option<Options>) -> Option<Command>
    ensures command { result ≡ why_of options }
    ensures some { IfSome result HasSomeCycles }
{
    let options = options?;
    if options.is_strict {
        return None;
    }
    why_from(options.cycle?, options.cycles.unwrap_or(1), options.rule)
}

// `why` from a cycle on, for some cycles.
fn why_from(cycle: u32, cycles: u32, rule: Option<Text>) -> Option<Command>
    ensures command { result ≡ why_from cycle cycles rule }
    ensures some { IfSome result HasSomeCycles }
{
    if 1 <= cycle && 1 <= cycles {
        Some(Command::Why {
            cycle,
            cycles,
            rule,
        })
    } else {
        None
    }
}

// `profile` with options, if they are valid: it needs the cycles, and takes no first one and no rule.
fn profile_of(options: Option<Options>) -> Option<Command>
    ensures command { result ≡ profile_of options }
    ensures some { IfSome result HasSomeCycles }
{
    let options = options?;
    if options.cycle.is_some() || options.rule.is_some() {
        return None;
    }
    Some(Command::Profile {
        cycles: options.cycles?,
        is_strict: options.is_strict,
    })
}

// `waves` with options, if they are valid: it needs the cycles, and takes nothing else.
fn waves_of(options: Option<Options>) -> Option<Command>
    ensures command { result ≡ waves_of options }
    ensures some { IfSome result HasSomeCycles }
{
    let options = options?;
    if options.cycle.is_some() || options.rule.is_some() || options.is_strict {
        return None;
    }
    Some(Command::Waves {
        cycles: options.cycles?,
    })
}

// `obligation` with options, if they are valid: it takes a rule, and nothing else.
fn obligation_of(options: Option<Options>) -> Option<Command>
    ensures command { result ≡ obligation_of options }
    ensures some { IfSome result HasSomeCycles }
{
    let options = options?;
    if options.cycle.is_some() || options.cycles.is_some() || options.is_strict {
        return None;
    }
    Some(Command::Obligation { rule: options.rule })
}

// `certify` with options, if they are valid: it takes a rule, and nothing else.
fn certify_of(options: Option<Options>) -> Option<Command>
    ensures command { result ≡ certify_of options }
    ensures some { IfSome result HasSomeCycles }
{
    let options = options?;
    if options.cycle.is_some() || options.cycles.is_some() || options.is_strict {
        return None;
    }
    Some(Command::Certify { rule: options.rule })
}

// `verilog` with the ports that words ask for, if they are valid.
fn verilog_of(words: &[String]) -> Option<Command>
    ensures command { result ≡ verilog_of (map string_bytes words.now) }
    ensures some { IfSome result HasSomeCycles }
{
    let ports = ports_of(words)?;
    Some(Command::Verilog(ports))
}

// `lint`, if no options are given.
fn lint_of(words: &[String]) -> Option<Command>
    ensures command { result ≡ lint_of (map string_bytes words.now) }
    ensures some { IfSome result HasSomeCycles }
{
    match words {
        [] => Some(Command::Lint),
        _ => None,
    }
}

// The ports that words ask for, each at most once.
fn ports_of(words: &[String]) -> Option<Ports>
    ensures { result ≡ fold with_port (Some no_ports) (map string_bytes words.now) }
{
    let mut ports = Some(Ports {
        reset: false,
        registers: false,
    });
    for word in words {
        ports = with_port(ports, word.as_bytes());
    }
    ports
}

// Ports, if they are valid, with those that one word more asks for.
fn with_port(ports: Option<Ports>, word: &[u8]) -> Option<Ports>
    ensures { result ≡ with_port ports word.now }
{
    let ports = ports?;
    if word == b"--reset".as_slice() {
        return with_reset(ports);
    }
    if word == b"--registers".as_slice() {
        return with_registers(ports);
    }
    None
}

// Ports with a reset, which isn't asked for yet.
fn with_reset(ports: Ports) -> Option<Ports>
    ensures { result ≡ with_reset ports }
{
    if ports.reset {
        return None;
    }
    Some(Ports {
        reset: true,
        registers: ports.registers,
    })
}

// Ports with the registers, which aren't asked for yet.
fn with_registers(ports: Ports) -> Option<Ports>
    ensures { result ≡ with_registers ports }
{
    if ports.registers {
        return None;
    }
    Some(Ports {
        reset: ports.reset,
        registers: true,
    })
}

// The options that words give, each at most once. It calls itself for each word.
fn options_of(alloc: Global, words: &[String]) -> Result<Option<Options>, NoMemory>
    ensures { IfOk result (λ found. found ≡ options_of (map string_bytes words.now)) }
{
    match words {
        [] => Ok(Some(Options {
            cycle: None,
            cycles: None,
            rule: None,
            is_strict: false,
        })),
        [word, value, rest @ ..] if word.as_str() == "--cycle" => {
            Ok(with_cycle(value.as_bytes(), options_of(alloc, rest)?))
        }
        [word, value, rest @ ..] if word.as_str() == "--cycles" => {
            Ok(with_cycles(value.as_bytes(), options_of(alloc, rest)?))
        }
        [word, value, rest @ ..] if word.as_str() == "--rule" => {
            with_rule(alloc, value.as_bytes(), options_of(alloc, rest)?)
        }
        [word, rest @ ..] => with_word(alloc, word.as_bytes(), options_of(alloc, rest)?),
    }
}

// Other options, if they are understood, and one that is a word of its own.
fn with_word(
    alloc: Global,
    word: &[u8],
    others: Option<Options>,
) -> Result<Option<Options>, NoMemory>
    ensures { IfOk result (λ found. found ≡ with_word word.now others) }
{
    if word == b"--strict".as_slice() {
        return Ok(with_strict(others));
    }
    if let Some(value) = word.strip_prefix(b"--cycle=") {
        return Ok(with_cycle(value, others));
    }
    if let Some(value) = word.strip_prefix(b"--cycles=") {
        return Ok(with_cycles(value, others));
    }
    match word.strip_prefix(b"--rule=") {
        Some(value) => with_rule(alloc, value, others),
        None => Ok(None),
    }
}

// Other options and the first cycle, which isn't given yet.
fn with_cycle(value: &[u8], others: Option<Options>) -> Option<Options>
    ensures { result ≡ with_cycle value.now others }
{
    let mut others = others?;
    let cycle = number_of(value)?;
    match others.cycle {
        None => {
            others.cycle = Some(cycle);
            Some(others)
        }
        Some(_) => None,
    }
}

// Other options and the number of cycles, which isn't given yet.
fn with_cycles(value: &[u8], others: Option<Options>) -> Option<Options>
    ensures { result ≡ with_cycles value.now others }
{
    let mut others = others?;
    let cycles = number_of(value)?;
    match others.cycles {
        None => {
            others.cycles = Some(cycles);
            Some(others)
        }
        Some(_) => None,
    }
}

// Other options and the name of a rule, which isn't given yet.
fn with_rule(
    alloc: Global,
    value: &[u8],
    others: Option<Options>,
) -> Result<Option<Options>, NoMemory>
    ensures { IfOk result (λ found. found ≡ with_rule value.now others) }
{
    match name_of(alloc, value)? {
        Some(name) => Ok(with_name(name, others)),
        None => Ok(None),
    }
}

fn with_name(name: Text, others: Option<Options>) -> Option<Options>
    ensures { result ≡ with_name (Some name) others }
{
    let mut others = others?;
    match others.rule {
        None => {
            others.rule = Some(name);
            Some(others)
        }
        Some(_) => None,
    }
}

// Other options and that a failed assertion is a failure, which isn't said yet.
fn with_strict(others: Option<Options>) -> Option<Options>
    ensures { result ≡ with_strict others }
{
    let mut others = others?;
    if others.is_strict {
        return None;
    }
    others.is_strict = true;
    Some(others)
}

/// The name that a word is.
pub(crate) fn name_of(alloc: Global, word: &[u8]) -> Result<Option<Text>, NoMemory>
    ensures { IfOk result (λ name. name ≡ name_of word.now) }
{
    if is_name(word) {
        Ok(Some(Text::from_slice(alloc, word)?))
    } else {
        Ok(None)
    }
}

// Whether a word is a name.
fn is_name(word: &[u8]) -> bool
    ensures { result ≡ is_name word.now }
{
    match word {
        [first, rest @ ..] => begins_name(*first) && continue_name(rest),
        [] => false,
    }
}

fn continue_name(bytes: &[u8]) -> bool
    ensures { result ≡ list_all continues_name bytes.now }
{
    bytes.iter().all(|byte| continues_name(*byte))
}

fn begins_name(byte: u8) -> bool
    ensures { result ≡ begins_name byte }
{
    byte.is_ascii_alphabetic() || byte == b'_'
}

fn continues_name(byte: u8) -> bool
    ensures { result ≡ continues_name byte }
{
    begins_name(byte) || byte.is_ascii_digit()
}
