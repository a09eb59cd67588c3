//! Program: the options of valid arguments.

ghost use Rattle.std.specs.Prelude.{◌≡◌, true, map, string_bytes, IfOk, is_some, Some};
ghost use Rattle.clap.specs.Words.{app_of, found_of, rows_of};
ghost use Rattle.koika_top.specs.inner.Given.{Give, engine_in, run_app};
ghost use Rattle.koika_top.specs.Words.{gen_by, gen_of, options_of, sim_of};
ghost use Rattle.koika_top.specs.declared.words.Options.{Options as AnyOptions};

use crate::engine_kind::EngineKind;
use crate::shown::Shown;
use crate::words::{Options, engine_of};
use clap::{Arg, ArgMatches, Command};
use front_end::given::{bare, flag, number_in, valued, want_of_memory};
use kw_bits::NoMemory;
use std::alloc::Global;

/// The options of a run that words give, which are valid for the command of this name.
pub(crate) fn read_options(alloc: Global, name: &str, words: &[String]) -> Result<Options, NoMemory>
    requires valid { is_some (sim_of (options_of (map string_bytes words.now))) ≡ true }
    ensures { IfOk result (λ options. options_of (map string_bytes words.now) ≡ Some options) }
{
    let command = run_app(alloc, name)?;
    match command.try_get_matches_from(words) {
        Ok(matches) => Ok(options_in(&matches)),
        Err(error) => Err(want_of_memory(&error)),
    }
}

/// The number that the word of `gen` writes, which is valid.
pub(crate) fn read_stages(alloc: Global, words: &[String]) -> Result<Option<u32>, NoMemory>
    requires valid { is_some (gen_of (map string_bytes words.now)) ≡ true }
    ensures { IfOk result (λ stages. gen_of (map string_bytes words.now) ≡ gen_by stages) }
{
    let stages = Arg::new(alloc, "stages").required(true);
    let command = bare(alloc, "gen").arg(stages)?;
    match command.try_get_matches_from(words) {
        Ok(matches) => Ok(number_in(&matches, "stages")),
        Err(error) => Err(want_of_memory(&error)),
    }
}

// The options of a run.
fn run_app<'a>(alloc: Global, name: &'a str) -> Result<Command<'a>, NoMemory>
    ensures { IfOk result (λ command. app_of command ≡ run_app name.entry.now) }
{
    let cycles = valued(alloc, "cycles").required(true);
    let command = bare(alloc, name)
        .arg(cycles)?
        .arg(valued(alloc, "engine"))?
        .arg(valued(alloc, "workers"))?
        .arg(flag(alloc, "summary"))?
        .arg(flag(alloc, "journal"))?;
    Ok(command)
}

// The options of a run that were found.
fn options_in(matches: &ArgMatches<'_>) -> Options
    ensures { (options : AnyOptions) → Give (rows_of (found_of matches.now)) options → result ≡ options }
{
    let shown = if matches.get_flag("summary") {
        Shown::Summary
    } else {
        Shown::Report
    };
    Options {
        cycles: number_in(matches, "cycles"),
        engine: engine_in(matches, "engine"),
        workers: number_in(matches, "workers"),
        shown,
        journal: matches.get_flag("journal"),
    }
}

// The engine that the first value of an argument names.
fn engine_in(matches: &ArgMatches<'_>, id: &str) -> Option<EngineKind>
    ensures { result ≡ engine_in id.now (rows_of (found_of matches.now)) }
{
    match matches.get_str(id) {
        Some(word) => engine_of(word.as_bytes()),
        None => None,
    }
}
