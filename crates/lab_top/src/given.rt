//! Program: the options of valid arguments.

ghost use Rattle.std.specs.Prelude.{◌≡◌, true, map, string_bytes, IfOk, is_some, Some};
ghost use Rattle.clap.specs.Words.{app_of, found_of, rows_of};
ghost use Rattle.lab_top.specs.Words.{options_of};
ghost use Rattle.lab_top.specs.inner.Given.{Give, name_in, options_app};
ghost use Rattle.lab_top.specs.declared.words.Options.{Options as AnyOptions};

use crate::words::{Options, name_of};
use clap::{ArgMatches, Command};
use front_end::given::{bare, flag, number_in, valued, want_of_memory};
use kw_bits::{NoMemory, Text};
use std::alloc::Global;

/// The options that words give to the command of this name, which are valid.
pub(crate) fn read_options(alloc: Global, name: &str, words: &[String]) -> Result<Options, NoMemory>
    requires valid { is_some (options_of (map string_bytes words.now)) ≡ true }
    ensures { IfOk result (λ options. options_of (map string_bytes words.now) ≡ Some options) }
{
    let command = options_app(alloc, name)?;
    match command.try_get_matches_from(words) {
        Ok(matches) => options_in(alloc, &matches),
        Err(error) => Err(want_of_memory(&error)),
    }
}

// The options of a command.
fn options_app<'a>(alloc: Global, name: &'a str) -> Result<Command<'a>, NoMemory>
    ensures { IfOk result (λ command. app_of command ≡ options_app name.entry.now) }
{
    let command = bare(alloc, name)
        .arg(valued(alloc, "cycle"))?
        .arg(valued(alloc, "cycles"))?
        .arg(valued(alloc, "rule"))?
        .arg(flag(alloc, "strict"))?;
    Ok(command)
}

// The options that were found.
fn options_in(alloc: Global, matches: &ArgMatches<'_>) -> Result<Options, NoMemory>
    ensures { IfOk result (λ found.
        (options : AnyOptions) → Give (rows_of (found_of matches.now)) options → found ≡ options) }
{
    Ok(Options {
        cycle: number_in(matches, "cycle"),
        cycles: number_in(matches, "cycles"),
        rule: name_in(alloc, matches, "rule")?,
        is_strict: matches.get_flag("strict"),
    })
}

// The name that the first value of an argument is.
fn name_in(alloc: Global, matches: &ArgMatches<'_>, id: &str) -> Result<Option<Text>, NoMemory>
    ensures { IfOk result (λ name. name ≡ name_in id.now (rows_of (found_of matches.now))) }
{
    match matches.get_str(id) {
        Some(word) => name_of(alloc, word.as_bytes()),
        None => Ok(None),
    }
}
