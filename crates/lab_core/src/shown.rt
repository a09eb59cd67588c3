//! The lab: the lines of a profile.

ghost use Rattle.std.specs.Prelude.{◌≡◌, ◌++◌, ◌∷◌, [], OnOk, Some, decimal, slice_get};
ghost use Rattle.std.specs.List.{flat_map};
ghost use Rattle.journal_check.specs.Printing.{joined_tokens, rule_name, spaced};
ghost use Rattle.lab_core.specs.inner.Lines.{text_at};
ghost use Rattle.lab_core.specs.Profiles.{assert_counts, assert_line, counts_line, cycles_line, first_tokens, refusal_line, refusal_tokens, rules_text, unwatched_tokens};

use crate::counts::RuleCounts;
use crate::refusal::Seen;
use attempt_log::Cause;
use itoa::Buffer;
use journal_check::{name_of, push_access, push_number, push_token};
use kw_bits::{NoMemory, Text};
use typed_core::Design;

/// Adds the line with the number of cycles.
pub(crate) fn push_cycles(text: &mut Text, cycles: u32) -> Result<(), NoMemory>
    ensures { OnOk result (text.new ≡ text.old ++ cycles_line cycles) }
{
    text.extend_from_slice(b"cycles")?;
    push_number(text, cycles)?;
    text.push(b'\n')
}

/// Adds the lines of all rules.
pub(crate) fn push_rules(
    text: &mut Text,
    design: &Design,
    rules: &[RuleCounts],
) -> Result<(), NoMemory>
    ensures { OnOk result (text.new ≡ text.old ++ rules_text design.now 0 rules.now) }
{
    for (rule, counts) in rules.iter().enumerate() {
        let name = name_of(design, rule);
        push_counts(text, name, counts)?;
        push_refusals(text, design, name, counts)?;
    }
    Ok(())
}

// Adds the line with the counts of a rule.
fn push_counts(text: &mut Text, name: &[u8], counts: &RuleCounts) -> Result<(), NoMemory>
    ensures { OnOk result (text.new ≡ text.old ++ counts_line name.now counts.now) }
{
    text.extend_from_slice(b"rule")?;
    push_token(text, name)?;
    push_count(text, b"fired", counts.fired)?;
    push_count(text, b"abort", counts.aborted)?;
    push_count(text, b"own", counts.own)?;
    push_count(text, b"clash", counts.clashed)?;
    push_count(text, b"untried", counts.untried)?;
    text.push(b'\n')
}

// Adds a word and a count.
fn push_count(text: &mut Text, word: &[u8], count: u32) -> Result<(), NoMemory>
    ensures { OnOk result (text.new ≡ text.old ++ flat_map spaced (word.now ∷ decimal count ∷ [])) }
{
    push_token(text, word)?;
    push_number(text, count)
}

// Adds a word and a count that may be greater.
fn push_sum(text: &mut Text, word: &[u8], count: u64) -> Result<(), NoMemory>
    ensures { OnOk result (text.new ≡ text.old ++ flat_map spaced (word.now ∷ decimal count ∷ [])) }
{
    push_token(text, word)?;
    push_token(text, Buffer::new().format(count).as_bytes())
}

// Adds the lines of a rule's refusals.
fn push_refusals(
    text: &mut Text,
    design: &Design,
    name: &[u8],
    counts: &RuleCounts,
) -> Result<(), NoMemory>
    ensures { OnOk result (text.new ≡ text.old ++ flat_map (refusal_line design.now name.now) counts.now.refusals) }
{
    for number in 0..counts.refusals.len() {
        push_refusal_at(text, design, name, counts, number)?;
    }
    Ok(())
}

// Adds the line of the refusal of this number, if there is one.
fn push_refusal_at(
    text: &mut Text,
    design: &Design,
    name: &[u8],
    counts: &RuleCounts,
    number: usize,
) -> Result<(), NoMemory>
    ensures { OnOk result (text.new ≡ text.old ++ text_at (refusal_line design.now name.now) (slice_get counts.now.refusals number)) }
{
    match counts.refusals.get_index(number) {
        Some((refusal, seen)) => push_counted(text, design, name, &refusal.cause(), *seen),
        None => Ok(()),
    }
}

// Adds the line of a refusal.
fn push_counted(
    text: &mut Text,
    design: &Design,
    name: &[u8],
    cause: &Cause,
    seen: Seen,
) -> Result<(), NoMemory>
    ensures { OnOk result (text.new ≡ text.old ++ refusal_line design.now name.now (record { cause = cause.now; count = seen.count; first = seen.first })) }
{
    push_refusal(text, design, name, cause)?;
    push_number(text, seen.count)?;
    push_first(text, seen.first)?;
    text.push(b'\n')
}

// Adds a refusal.
fn push_refusal(
    text: &mut Text,
    design: &Design,
    name: &[u8],
    cause: &Cause,
) -> Result<(), NoMemory>
    ensures { OnOk result (text.new ≡ text.old ++ joined_tokens (refusal_tokens design.now name.now cause.now)) }
{
    match cause {
        Cause::Abort => {
            text.extend_from_slice(b"abort")?;
            push_token(text, name)
        }
        Cause::OwnClash(access) => {
            text.extend_from_slice(b"own")?;
            push_token(text, name)?;
            push_access(text, design, access)
        }
        Cause::Clash {
            access,
            rule,
            earlier,
        } => {
            text.extend_from_slice(b"clash")?;
            push_token(text, name)?;
            push_access(text, design, access)?;
            push_token(text, name_of(design, *rule as usize))?;
            push_access(text, design, earlier)
        }
    }
}

// Adds a first cycle.
fn push_first(text: &mut Text, cycle: u32) -> Result<(), NoMemory>
    ensures { OnOk result (text.new ≡ text.old ++ flat_map spaced (first_tokens cycle)) }
{
    push_token(text, b"first")?;
    push_number(text, cycle)
}

/// Adds the line of an assertion of this name.
pub(crate) fn push_assert(text: &mut Text, name: &[u8], counts: &RuleCounts) -> Result<(), NoMemory>
    ensures { OnOk result (text.new ≡ text.old ++ assert_line name.now (Some counts.now)) }
{
    push_assert_counts(text, name, counts)?;
    push_unwatched(text, counts.unwatched)?;
    text.push(b'\n')
}

// Adds the name and the counts of an assertion.
fn push_assert_counts(text: &mut Text, name: &[u8], counts: &RuleCounts) -> Result<(), NoMemory>
    ensures { OnOk result (text.new ≡ text.old ++ joined_tokens (assert_counts name.now counts.now)) }
{
    text.extend_from_slice(b"assert")?;
    push_token(text, name)?;
    push_count(text, b"held", counts.aborted)?;
    push_count(text, b"violated", counts.fired)?;
    push_sum(text, b"unwatched", counts.unwatched_count())
}

// Adds the first cycle that says nothing of an assertion, if there is one.
fn push_unwatched(text: &mut Text, first: Option<u32>) -> Result<(), NoMemory>
    ensures { OnOk result (text.new ≡ text.old ++ flat_map spaced (unwatched_tokens first)) }
{
    match first {
        Some(cycle) => push_first(text, cycle),
        None => Ok(()),
    }
}
