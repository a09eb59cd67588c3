//! Program: the arguments, and what they ask for.

ghost use Rattle.std.specs.Prelude.{◌≡◌, map, string_bytes, IfOk, IfSome, is_some};
ghost use Rattle.koika_top.specs.inner.Steps.{HasFewWorkers, IsInRange};
ghost use Rattle.koika_top.specs.Answer.{is_of_source};
ghost use Rattle.koika_top.specs.inner.Answer.{longest_of};
ghost use Rattle.koika_top.specs.Words.{aigsim_of, alone_of, asks_workers, btorsim_of, by_workers, command_of, engine_by, engine_of, gen_by, gen_of, is_of_workers, journal_by, options_of, recheck_of, sim_of, with_cycles, with_engine, with_journal, with_summary, with_word, with_workers};

use crate::engine_kind::EngineKind;
use crate::given::{read_options, read_stages};
use crate::shown::Shown;
use front_end::number_of;
use kw_bits::NoMemory;
use std::alloc::Global;

/// What the arguments ask for.
#[derive(Clone, Copy, Debug, PartialEq, Eq)]
pub enum Command {
    /// How large the source's design is.
    Check,
    /// The source's design, printed.
    Print,
    /// A run of the source's design for that many cycles.
    Sim {
        cycles: u32,
        shown: Shown,
        engine: EngineKind,
    },
    /// A run of the source's BTOR2 file for that many cycles.
    Btorsim {
        cycles: u32,
        shown: Shown,
    },
    /// The circuit of the source's design.
    Compile,
    /// The pipeline design of that many stages.
    Gen {
        stages: u32,
    },
    /// The bit-level circuit of the source's design.
    Aiger,
    /// A run of the source's bit-level circuit for that many cycles.
    Aigsim {
        cycles: u32,
        shown: Shown,
    },
    /// The journal of a run of the source's design for that many cycles by that many workers.
    Journal {
        cycles: u32,
        workers: u32,
    },
    /// The run of that many cycles that the source's journal shows.
    Recheck {
        cycles: u32,
    },
}

impl Command {
    /// Whether the command's answer depends on the source.
    pub(crate) fn reads_source(self) -> bool
        ensures { result ≡ is_of_source self }
    {
        !matches!(self, Command::Gen { .. })
    }

    /// How many bytes the source of the command may have.
    pub(crate) fn longest_source(self) -> usize
        ensures { result ≡ longest_of self }
    {
        match self {
            Command::Btorsim { .. } | Command::Aigsim { .. } | Command::Recheck { .. } => {
                LONGEST_CIRCUIT
            }
            _ => LONGEST_SOURCE,
        }
    }
}

// A source with a design may have this many bytes, and one with a BTOR2 file or a journal this many.
const LONGEST_SOURCE: usize = 1_048_576;

const LONGEST_CIRCUIT: usize = 268_435_456;

/// The options of a run that are given.
#[derive(Clone, Copy, Debug, PartialEq, Eq)]
pub(crate) struct Options {
    pub(crate) cycles: Option<u32>,
    pub(crate) engine: Option<EngineKind>,
    pub(crate) workers: Option<u32>,
    pub(crate) shown: Shown,
    pub(crate) journal: bool,
}

// Options are at most this many words, since each is at most once.
const MOST_WORDS: usize = 8;

// At most this many workers run a design, and this many where their journal is wanted.
const MOST_WORKERS: u32 = 64;

const MOST_JOURNAL_WORKERS: u32 = 8;

// A pipeline has at most this many stages.
const MOST_STAGES: u32 = 100;

/// The command that the words of the command line ask for, if they are understood.
pub(crate) fn command_of(alloc: Global, words: &[String]) -> Result<Option<Command>, NoMemory>
    ensures command { IfOk result (λ command. command ≡ command_of (map string_bytes words.now)) }
    ensures few { IfOk result (λ command. IfSome command IsInRange) }
{
    match words {
        [command, rest @ ..] if command.as_str() == "check" => Ok(alone_of(Command::Check, rest)),
        [command, rest @ ..] if command.as_str() == "print" => Ok(alone_of(Command::Print, rest)),
        [command, options @ ..] if command.as_str() == "sim" => sim_of(alloc, options),
        [command, options @ ..] if command.as_str() == "btorsim" => btorsim_of(alloc, options),
        [command, rest @ ..] if command.as_str() == "compile" => {
            Ok(alone_of(Command::Compile, rest))
        }
        [command, stages @ ..] if command.as_str() == "gen" => gen_of(alloc, stages),
        [command, rest @ ..] if command.as_str() == "aiger" => Ok(alone_of(Command::Aiger, rest)),
        [command, options @ ..] if command.as_str() == "aigsim" => aigsim_of(alloc, options),
        [command, options @ ..] if command.as_str() == "recheck" => recheck_of(alloc, options),
        _ => Ok(None),
    }
}

// A command that takes no words.
fn alone_of(command: Command, words: &[String]) -> Option<Command>
    ensures { result ≡ alone_of command (map string_bytes words.now) }
{
    if words.is_empty() {
        Some(command)
    } else {
        None
    }
}

fn sim_of(alloc: Global, words: &[String]) -> Result<Option<Command>, NoMemory>
    ensures command { IfOk result (λ command. command ≡ sim_of (options_of (map string_bytes words.now))) }
    ensures few { IfOk result (λ command. IfSome command IsInRange) }
{
    if sim_by(few_options_of(words)).is_none() {
        return Ok(None);
    }
    Ok(sim_by(Some(read_options(alloc, "sim", words)?)))
}

// The run of a design, or its journal, with options, if they are valid.
fn sim_by(options: Option<Options>) -> Option<Command>
    ensures command { result ≡ sim_of options }
    ensures few { IfSome result IsInRange }
{
    let options = options?;
    if options.journal {
        return journal_by(options);
    }
    Some(Command::Sim {
        cycles: options.cycles?,
        shown: options.shown,
        engine: engine_by(options.engine, options.workers)?,
    })
}

// The journal of a run: it has few workers, and takes neither a summary nor an engine.
fn journal_by(options: Options) -> Option<Command>
    ensures command { result ≡ journal_by options.cycles options.shown options.engine options.workers }
    ensures few { IfSome result IsInRange }
{
    let cycles = options.cycles?;
    let workers = options.workers?;
    if options.shown == Shown::Summary || options.engine.is_some() {
        return None;
    }
    if 1 <= workers && workers <= MOST_JOURNAL_WORKERS {
        Some(Command::Journal { cycles, workers })
    } else {
        None
    }
}

// The engine of a run by what is given of it and of the workers, if they go together.
fn engine_by(engine: Option<EngineKind>, workers: Option<u32>) -> Option<EngineKind>
    ensures engine { result ≡ engine_by engine workers }
    ensures few { IfSome result HasFewWorkers }
{
    match (engine, workers) {
        (Some(EngineKind::Circuit), None) => Some(EngineKind::Circuit),
        (Some(EngineKind::Circuit), Some(_)) => None,
        (_, None) => Some(EngineKind::Plain),
        (_, Some(count)) => by_workers(count),
    }
}

fn by_workers(count: u32) -> Option<EngineKind>
    ensures engine { result ≡ by_workers count }
    ensures few { IfSome result HasFewWorkers }
{
    if 1 <= count && count <= MOST_WORKERS {
        Some(EngineKind::Workers(count))
    } else {
        None
    }
}

fn btorsim_of(alloc: Global, words: &[String]) -> Result<Option<Command>, NoMemory>
    ensures command { IfOk result (λ command. command ≡ btorsim_of (options_of (map string_bytes words.now))) }
    ensures few { IfOk result (λ command. IfSome command IsInRange) }
{
    if btorsim_by(few_options_of(words)).is_none() {
        return Ok(None);
    }
    Ok(btorsim_by(Some(read_options(alloc, "btorsim", words)?)))
}

// The run of a BTOR2 file with options, if they are valid: it takes no engine, no workers and no journal.
fn btorsim_by(options: Option<Options>) -> Option<Command>
    ensures command { result ≡ btorsim_of options }
    ensures few { IfSome result IsInRange }
{
    let options = options?;
    if options.engine.is_some() || options.workers.is_some() || options.journal {
        return None;
    }
    Some(Command::Btorsim {
        cycles: options.cycles?,
        shown: options.shown,
    })
}

fn aigsim_of(alloc: Global, words: &[String]) -> Result<Option<Command>, NoMemory>
    ensures command { IfOk result (λ command. command ≡ aigsim_of (options_of (map string_bytes words.now))) }
    ensures few { IfOk result (λ command. IfSome command IsInRange) }
{
    if aigsim_by(few_options_of(words)).is_none() {
        return Ok(None);
    }
    Ok(aigsim_by(Some(read_options(alloc, "aigsim", words)?)))
}

// The run of a bit-level circuit with options, if they are valid: it takes no engine, no workers and no journal.
fn aigsim_by(options: Option<Options>) -> Option<Command>
    ensures command { result ≡ aigsim_of options }
    ensures few { IfSome result IsInRange }
{
    let options = options?;
    if options.engine.is_some() || options.workers.is_some() || options.journal {
        return None;
    }
    Some(Command::Aigsim {
        cycles: options.cycles?,
        shown: options.shown,
    })
}

fn recheck_of(alloc: Global, words: &[String]) -> Result<Option<Command>, NoMemory>
    ensures command { IfOk result (λ command. command ≡ recheck_of (options_of (map string_bytes words.now))) }
    ensures few { IfOk result (λ command. IfSome command IsInRange) }
{
    if recheck_by(few_options_of(words)).is_none() {
        return Ok(None);
    }
    Ok(recheck_by(Some(read_options(alloc, "recheck", words)?)))
}

// The run that a journal shows with options, if they are valid: the cycles alone are given.
fn recheck_by(options: Option<Options>) -> Option<Command>
    ensures command { result ≡ recheck_of options }
    ensures few { IfSome result IsInRange }
{
    let options = options?;
    if options.shown == Shown::Summary || options.journal {
        return None;
    }
    if options.engine.is_some() || options.workers.is_some() {
        return None;
    }
    Some(Command::Recheck {
        cycles: options.cycles?,
    })
}

// The options that words give, of which more than are ever valid aren't looked at.
fn few_options_of(words: &[String]) -> Option<Options>
    ensures { result ≡ options_of (map string_bytes words.now) }
{
    if words.len() > MOST_WORDS {
        return None;
    }
    options_of(words)
}

fn gen_of(alloc: Global, words: &[String]) -> Result<Option<Command>, NoMemory>
    ensures command { IfOk result (λ command. command ≡ gen_of (map string_bytes words.now)) }
    ensures few { IfOk result (λ command. IfSome command IsInRange) }
{
    if !are_stages(words) {
        return Ok(None);
    }
    Ok(gen_by(read_stages(alloc, words)?))
}

// Whether words are one, the number of stages of a pipeline.
fn are_stages(words: &[String]) -> bool
    ensures { result ≡ is_some (gen_of (map string_bytes words.now)) }
{
    match words {
        [word] => gen_by(number_of(word.as_bytes())).is_some(),
        _ => false,
    }
}

// The pipeline of that many stages, if there is one.
fn gen_by(stages: Option<u32>) -> Option<Command>
    ensures command { result ≡ gen_by stages }
    ensures few { IfSome result IsInRange }
{
    let stages = stages?;
    if 1 <= stages && stages <= MOST_STAGES {
        Some(Command::Gen { stages })
    } else {
        None
    }
}

// The options that words give, each at most once. It calls itself for each word.
fn options_of(words: &[String]) -> Option<Options>
    ensures { result ≡ options_of (map string_bytes words.now) }
{
    match words {
        [] => Some(Options {
            cycles: None,
            engine: None,
            workers: None,
            shown: Shown::Report,
            journal: false,
        }),
        [word, value, rest @ ..] if word.as_str() == "--cycles" => {
            with_cycles(value.as_bytes(), options_of(rest))
        }
        [word, value, rest @ ..] if word.as_str() == "--engine" => {
            with_engine(value.as_bytes(), options_of(rest))
        }
        [word, value, rest @ ..] if word.as_str() == "--workers" => {
            with_workers(value.as_bytes(), options_of(rest))
        }
        [word, rest @ ..] => with_word(word.as_bytes(), options_of(rest)),
    }
}

// Other options, if they are understood, and one that is a word of its own.
fn with_word(word: &[u8], others: Option<Options>) -> Option<Options>
    ensures { result ≡ with_word word.now others }
{
    if word == b"--summary".as_slice() {
        return with_summary(others);
    }
    if word == b"--journal".as_slice() {
        return with_journal(others);
    }
    if let Some(value) = word.strip_prefix(b"--cycles=") {
        return with_cycles(value, others);
    }
    if let Some(value) = word.strip_prefix(b"--engine=") {
        return with_engine(value, others);
    }
    match word.strip_prefix(b"--workers=") {
        Some(value) => with_workers(value, others),
        None => None,
    }
}

// Other options and the number of cycles, which isn't given yet.
fn with_cycles(value: &[u8], others: Option<Options>) -> Option<Options>
    ensures { result ≡ with_cycles value.now others }
{
    let others = others?;
    let cycles = number_of(value)?;
    match others.cycles {
        None => Some(Options {
            cycles: Some(cycles),
            ..others
        }),
        Some(_) => None,
    }
}

// Other options and the engine, which isn't given yet.
fn with_engine(value: &[u8], others: Option<Options>) -> Option<Options>
    ensures { result ≡ with_engine value.now others }
{
    let others = others?;
    let engine = engine_of(value)?;
    if others.engine.is_some() {
        return None;
    }
    Some(Options {
        engine: Some(engine),
        ..others
    })
}

// Other options and the number of workers, which isn't given yet.
fn with_workers(value: &[u8], others: Option<Options>) -> Option<Options>
    ensures { result ≡ with_workers value.now others }
{
    let others = others?;
    let workers = number_of(value)?;
    if others.workers.is_some() {
        return None;
    }
    Some(Options {
        workers: Some(workers),
        ..others
    })
}

// Other options and that a summary is wanted, which isn't said yet.
fn with_summary(others: Option<Options>) -> Option<Options>
    ensures { result ≡ with_summary others }
{
    let others = others?;
    match others.shown {
        Shown::Report => Some(Options {
            shown: Shown::Summary,
            ..others
        }),
        Shown::Summary => None,
    }
}

// Other options and that a journal is wanted, which isn't said yet.
fn with_journal(others: Option<Options>) -> Option<Options>
    ensures { result ≡ with_journal others }
{
    let others = others?;
    if others.journal {
        return None;
    }
    Some(Options {
        journal: true,
        ..others
    })
}

/// Whether one of the words asks for workers.
pub(crate) fn asks_workers(words: &[String]) -> bool
    ensures { result ≡ asks_workers (map string_bytes words.now) }
{
    for word in words {
        if is_of_workers(word.as_bytes()) {
            return true;
        }
    }
    false
}

fn is_of_workers(word: &[u8]) -> bool
    ensures { result ≡ is_of_workers word.now }
{
    word == b"--workers".as_slice() || word.strip_prefix(b"--workers=").is_some()
}

/// The engine that a word names.
pub(crate) fn engine_of(word: &[u8]) -> Option<EngineKind>
    ensures { result ≡ engine_of word.now }
{
    if word == b"plain".as_slice() {
        return Some(EngineKind::Plain);
    }
    if word == b"circuit".as_slice() {
        return Some(EngineKind::Circuit);
    }
    None
}
