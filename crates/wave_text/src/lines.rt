//! Waves: lines and numbers.

ghost use Rattle.std.specs.Prelude.{◌≡◌, ◌++◌, OnOk, decimal};
ghost use Rattle.wave_text.specs.Waves.{line, time};

use itoa::Buffer;
use kw_bits::{NoMemory, Text};

pub(crate) fn push_line(text: &mut Text, bytes: &[u8]) -> Result<(), NoMemory>
    ensures { OnOk result (text.new ≡ text.old ++ line bytes.now) }
{
    text.extend_from_slice(bytes)?;
    text.push(b'\n')
}

pub(crate) fn push_number(text: &mut Text, number: u64) -> Result<(), NoMemory>
    ensures { OnOk result (text.new ≡ text.old ++ decimal number) }
{
    text.extend_from_slice(Buffer::new().format(number).as_bytes())
}

/// The line of a time.
pub(crate) fn push_time(text: &mut Text, at: u64) -> Result<(), NoMemory>
    ensures { OnOk result (text.new ≡ text.old ++ time at) }
{
    text.push(b'#')?;
    push_number(text, at)?;
    text.push(b'\n')
}
