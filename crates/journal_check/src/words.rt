//! Journals: words of a line.

ghost use Rattle.std.specs.Prelude.{◌≡◌, ◌<◌, ◌≤◌, ◌++◌, ◌/◌, ◌%◌, ◌^◌, OnOk, decimal, if◌then◌else◌, map};
ghost use Rattle.std.specs.List.{flat_map};
ghost use Rattle.journal_check.specs.Printing.{access_text, cause_tokens, event_text, register_name, rule_name, spaced, value_text};
ghost use Rattle.stim_report.specs.Report.{hex_digit, hex_digits};

use attempt_log::Cause;
use itoa::Buffer;
use kw_bits::{Bits, NoMemory, Text};
use typed_core::{Access, Design, Event};

const DIGITS: &[u8; 16] = b"0123456789abcdef";

/// Adds a space and a token.
pub fn push_token(text: &mut Text, token: &[u8]) -> Result<(), NoMemory>
    ensures { OnOk result (text.new ≡ text.old ++ spaced token.now) }
{
    text.push(b' ')?;
    text.extend_from_slice(token)
}

/// Adds a space and a number.
pub fn push_number(text: &mut Text, number: u32) -> Result<(), NoMemory>
    ensures { OnOk result (text.new ≡ text.old ++ spaced (decimal number)) }
{
    push_token(text, Buffer::new().format(number).as_bytes())
}

/// The name of a rule, if there is one of the number.
pub fn name_of(design: &Design, rule: usize) -> &[u8]
    ensures { result.now ≡ rule_name design.now rule }
{
    match design.rules.as_slice().get(rule) {
        Some(rule) => rule.name.as_slice(),
        None => &[],
    }
}

/// Adds a space and an access.
pub fn push_access(text: &mut Text, design: &Design, access: &Access) -> Result<(), NoMemory>
    ensures { OnOk result (text.new ≡ text.old ++ spaced (access_text design.now access.now)) }
{
    text.push(b' ')?;
    text.push(kind_of(access.write))?;
    text.extend_from_slice(Buffer::new().format(access.port).as_bytes())?;
    text.push(b':')?;
    push_register(text, design, access.register)
}

fn kind_of(write: bool) -> u8
    ensures { result ≡ (if write then 119 else 114) }
{
    if write { b'w' } else { b'r' }
}

// Adds the name of a register.
fn push_register(text: &mut Text, design: &Design, register: u32) -> Result<(), NoMemory>
    ensures { OnOk result (text.new ≡ text.old ++ register_name design.now register) }
{
    match design.regs.as_slice().get(register as usize) {
        Some(decl) => text.extend_from_slice(decl.name.as_slice()),
        None => Ok(()),
    }
}

/// Adds a space and each event.
pub fn push_events(text: &mut Text, design: &Design, events: &[Event]) -> Result<(), NoMemory>
    ensures { OnOk result (text.new ≡ text.old ++ flat_map spaced (map (event_text design.now) events.now)) }
{
    for event in events {
        push_event(text, design, event)?;
    }
    Ok(())
}

fn push_event(text: &mut Text, design: &Design, event: &Event) -> Result<(), NoMemory>
    ensures { OnOk result (text.new ≡ text.old ++ spaced (event_text design.now event.now)) }
{
    push_access(text, design, &event.access)?;
    text.push(b'=')?;
    push_value(text, event.value)
}

/// Adds why a rule didn't fire.
pub fn push_cause(text: &mut Text, design: &Design, cause: &Cause) -> Result<(), NoMemory>
    ensures { OnOk result (text.new ≡ text.old ++ flat_map spaced (cause_tokens design.now cause.now)) }
{
    match cause {
        Cause::Abort => push_token(text, b"abort"),
        Cause::OwnClash(access) => {
            push_token(text, b"own")?;
            push_access(text, design, access)
        }
        Cause::Clash {
            access,
            rule,
            earlier,
        } => {
            push_token(text, b"clash")?;
            push_access(text, design, access)?;
            push_token(text, name_of(design, *rule as usize))?;
            push_access(text, design, earlier)
        }
    }
}

/// Adds the hexadecimal digits of a value.
pub fn push_value(text: &mut Text, value: Bits) -> Result<(), NoMemory>
    ensures { OnOk result (text.new ≡ text.old ++ value_text value) }
{
    push_digits(text, value.number(), value.width().div_ceil(4))
}

// Adds the lowest digits of a number, as many as count.
fn push_digits(text: &mut Text, number: u128, count: u32) -> Result<(), NoMemory>
    requires { count ≤ 32 }
    ensures { OnOk result (text.new ≡ text.old ++ hex_digits count number) }
{
    for place in (0..count).rev() {
        text.push(digit_at(number, place))?;
    }
    Ok(())
}

// The digit at a place, the lowest at place 0.
fn digit_at(number: u128, place: u32) -> u8
    requires { place < 32 }
    ensures { result ≡ hex_digit (number / 16 ^ place % 16) }
{
    DIGITS[((number >> (4 * place)) % 16) as usize]
}
