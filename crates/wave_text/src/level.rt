//! Waves: the values of all variables at a rising edge of the clock.

ghost use Rattle.std.specs.Prelude.{◌≡◌, ◌++◌, IfOk, OnOk, map, replicate};
ghost use Rattle.wave_text.specs.Waves as texts;
ghost use Rattle.wave_text.specs.declared.level.Level.TheVariants.{Unknown};

use kw_bits::{Bits, NoMemory, Sequence};
use std::alloc::Global;
use stim_report::Shape;

/// The value of a variable at a time: a number, or no known one.
#[derive(Clone, Copy, Debug)]
pub(crate) enum Level {
    Unknown,
    Known(u128),
}

impl Level {
    /// Whether it is the value that was there before.
    pub(crate) fn is_same(self, before: Level) -> bool
        ensures { result ≡ texts.is_same before self }
    {
        match (before, self) {
            (Level::Known(before), Level::Known(now)) => before == now,
            _ => false,
        }
    }
}

/// The values in a cycle: its inputs, the registers before it, and the rules that fire in it.
pub(crate) fn levels(
    alloc: Global,
    inputs: &[Bits],
    registers: &[Bits],
    fired: &[bool],
) -> Result<Sequence<Level>, NoMemory>
    ensures { IfOk result (λ levels. levels ≡ texts.levels inputs.now registers.now fired.now) }
{
    let mut levels = Sequence::new(alloc);
    push_known(&mut levels, inputs)?;
    push_known(&mut levels, registers)?;
    push_flags(&mut levels, fired)?;
    Ok(levels)
}

/// The values after the last cycle, where only the registers are known.
pub(crate) fn last_levels(
    alloc: Global,
    shape: &Shape,
    registers: &[Bits],
) -> Result<Sequence<Level>, NoMemory>
    ensures { IfOk result (λ levels. levels ≡ texts.last_levels shape.now registers.now) }
{
    let mut levels = Sequence::new(alloc);
    push_unknown(&mut levels, shape.inputs.len())?;
    push_known(&mut levels, registers)?;
    push_unknown(&mut levels, shape.rules.len())?;
    Ok(levels)
}

/// The values before the first time, of this many variables.
pub(crate) fn no_levels(alloc: Global, variables: usize) -> Result<Sequence<Level>, NoMemory>
    ensures { IfOk result (λ levels. levels ≡ replicate variables Unknown) }
{
    let mut levels = Sequence::new(alloc);
    push_unknown(&mut levels, variables)?;
    Ok(levels)
}

fn push_known(levels: &mut Sequence<Level>, values: &[Bits]) -> Result<(), NoMemory>
    ensures { OnOk result (levels.new ≡ levels.old ++ map texts.known values.now) }
{
    for value in values {
        levels.push(Level::Known(value.number()))?;
    }
    Ok(())
}

fn push_flags(levels: &mut Sequence<Level>, fired: &[bool]) -> Result<(), NoMemory>
    ensures { OnOk result (levels.new ≡ levels.old ++ map texts.flag fired.now) }
{
    for has_fired in fired {
        levels.push(flag(*has_fired))?;
    }
    Ok(())
}

fn flag(has_fired: bool) -> Level
    ensures { result ≡ texts.flag has_fired }
{
    if has_fired {
        Level::Known(1)
    } else {
        Level::Known(0)
    }
}

fn push_unknown(levels: &mut Sequence<Level>, count: usize) -> Result<(), NoMemory>
    ensures { OnOk result (levels.new ≡ levels.old ++ replicate count Unknown) }
{
    for _variable in 0..count {
        levels.push(Level::Unknown)?;
    }
    Ok(())
}
