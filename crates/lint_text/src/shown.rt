//! Lint's text: the lines of notes.

ghost use Rattle.std.specs.Prelude.{◌≡◌, ◌++◌, OnOk, codes};
ghost use Rattle.std.specs.List.{flat_map};
ghost use Rattle.journal_check.specs.Printing.{ended, joined_tokens};
ghost use Rattle.lint_text.specs.Text.{assert_tokens, host_name, input_name, may_tokens, note_line, own_tokens, place_text, placed, register_name, rule_name, size_tokens, table_name, use_word, used_name, used_places};

use crate::note::{Note, Use};
use crate::places::Places;
use crate::words::{push_accesses, push_place};
use journal_check::{push_number, push_token};
use koika_check::Checked;
use kw_base::Place;
use kw_bits::{NoMemory, Sequence, Text};
use typed_core::Access;

/// Adds the lines of notes.
pub(crate) fn push_notes(
    text: &mut Text,
    design: &Checked,
    places: &Places,
    notes: &[Note],
) -> Result<(), NoMemory>
    ensures { OnOk result (text.new ≡ text.old ++ flat_map (note_line design.now places.now) notes.now) }
{
    for note in notes {
        push_note(text, design, places, note)?;
    }
    Ok(())
}

// Adds the line of a note.
fn push_note(
    text: &mut Text,
    design: &Checked,
    places: &Places,
    note: &Note,
) -> Result<(), NoMemory>
    ensures { OnOk result (text.new ≡ text.old ++ note_line design.now places.now note.now) }
{
    match note {
        Note::Size {
            rule,
            weight,
            depth,
        } => push_size(text, rule_name(design, *rule), *weight, *depth),
        Note::Unscheduled(rule) => push_placed(
            text,
            b"unscheduled",
            rule_name(design, *rule),
            &places.rules,
            *rule,
        ),
        Note::Never(rule) => push_placed(
            text,
            b"never",
            rule_name(design, *rule),
            &places.rules,
            *rule,
        ),
        Note::Own {
            rule,
            register,
            writes,
        } => push_own(
            text,
            rule_name(design, *rule),
            register_name(design, *register),
            writes.as_slice(),
        ),
        Note::May {
            rule,
            earlier,
            register,
            accesses,
            others,
        } => push_may(
            text,
            rule_name(design, *rule),
            rule_name(design, *earlier),
            register_name(design, *register),
            accesses.as_slice(),
            others.as_slice(),
        ),
        Note::MayBeRefused(rule) => {
            push_assert(text, rule_name(design, *rule as usize), b"may be refused")
        }
        Note::MayBeUntried(rule) => {
            push_assert(text, rule_name(design, *rule as usize), b"may be untried")
        }
        Note::Unused { of, number } => push_placed(
            text,
            use_word(*of),
            used_name(design, *of, *number),
            used_places(places, *of),
            *number,
        ),
    }
}

// Adds what is said of a name, and where its declaration has it.
fn push_placed(
    text: &mut Text,
    word: &[u8],
    name: &[u8],
    places: &Sequence<Place>,
    number: usize,
) -> Result<(), NoMemory>
    ensures { OnOk result (text.new ≡ text.old ++ ended (joined_tokens (placed word.now name.now (place_text places.now number)))) }
{
    text.extend_from_slice(word)?;
    push_token(text, name)?;
    push_token(text, b"at")?;
    push_place(text, places, number)?;
    text.push(b'\n')
}

// Adds the line with the weight and the depth of a rule's body.
fn push_size(text: &mut Text, name: &[u8], weight: u32, depth: u32) -> Result<(), NoMemory>
    ensures { OnOk result (text.new ≡ text.old ++ ended (joined_tokens (size_tokens name.now weight depth))) }
{
    text.extend_from_slice(b"size")?;
    push_token(text, b"rule")?;
    push_token(text, name)?;
    push_token(text, b"weight")?;
    push_number(text, weight)?;
    push_token(text, b"depth")?;
    push_number(text, depth)?;
    text.push(b'\n')
}

// Adds the line of the writes of a register that a rule may refuse itself.
fn push_own(
    text: &mut Text,
    name: &[u8],
    register: &[u8],
    writes: &[Access],
) -> Result<(), NoMemory>
    ensures { OnOk result (text.new ≡ text.old ++ ended (joined_tokens (own_tokens name.now register.now writes.now))) }
{
    text.extend_from_slice(b"own")?;
    push_token(text, name)?;
    push_token(text, register)?;
    push_accesses(text, writes)?;
    text.push(b'\n')
}

// Adds the line of the accesses of a register by a rule and an earlier one that may clash.
fn push_may(
    text: &mut Text,
    name: &[u8],
    earlier: &[u8],
    register: &[u8],
    accesses: &[Access],
    others: &[Access],
) -> Result<(), NoMemory>
    ensures { OnOk result (text.new ≡ text.old ++ ended (joined_tokens (may_tokens name.now earlier.now register.now accesses.now others.now))) }
{
    text.extend_from_slice(b"may")?;
    push_token(text, name)?;
    push_token(text, earlier)?;
    push_token(text, register)?;
    push_accesses(text, accesses)?;
    push_accesses(text, others)?;
    text.push(b'\n')
}

// Adds the line of what may be so of an assertion.
fn push_assert(text: &mut Text, name: &[u8], what: &[u8]) -> Result<(), NoMemory>
    ensures { OnOk result (text.new ≡ text.old ++ ended (joined_tokens (assert_tokens name.now what.now))) }
{
    text.extend_from_slice(b"assert")?;
    push_token(text, name)?;
    push_token(text, what)?;
    text.push(b'\n')
}

// What is said where there is no such use.
fn use_word(of: Use) -> &'static [u8]
    ensures { result.now ≡ use_word of }
{
    match of {
        Use::Read => b"unread",
        Use::Write => b"unwritten",
        Use::Input | Use::Table | Use::Host => b"unused",
    }
}

// The name of what is used.
fn used_name(design: &Checked, of: Use, number: usize) -> &[u8]
    ensures { result.now ≡ used_name design.now of number }
{
    match of {
        Use::Read => register_name(design, number),
        Use::Write => register_name(design, number),
        Use::Input => input_name(design, number),
        Use::Table => table_name(design, number),
        Use::Host => host_name(design, number),
    }
}

// The places of the names of its kind.
fn used_places(places: &Places, of: Use) -> &Sequence<Place>
    ensures { result.now ≡ used_places places.now of }
{
    match of {
        Use::Read => &places.registers,
        Use::Write => &places.registers,
        Use::Input => &places.inputs,
        Use::Table => &places.tables,
        Use::Host => &places.hosts,
    }
}

fn rule_name(design: &Checked, number: usize) -> &[u8]
    ensures { result.now ≡ rule_name design.now number }
{
    match design.rules.as_slice().get(number) {
        Some(rule) => rule.name.as_slice(),
        None => &[],
    }
}

fn register_name(design: &Checked, number: usize) -> &[u8]
    ensures { result.now ≡ register_name design.now number }
{
    match design.registers.as_slice().get(number) {
        Some(register) => register.name.as_slice(),
        None => &[],
    }
}

fn input_name(design: &Checked, number: usize) -> &[u8]
    ensures { result.now ≡ input_name design.now number }
{
    match design.inputs.as_slice().get(number) {
        Some(input) => input.name.as_slice(),
        None => &[],
    }
}

fn table_name(design: &Checked, number: usize) -> &[u8]
    ensures { result.now ≡ table_name design.now number }
{
    match design.tables.as_slice().get(number) {
        Some(table) => table.name.as_slice(),
        None => &[],
    }
}

fn host_name(design: &Checked, number: usize) -> &[u8]
    ensures { result.now ≡ host_name design.now number }
{
    match design.hosts.as_slice().get(number) {
        Some(host) => host.name.as_slice(),
        None => &[],
    }
}
