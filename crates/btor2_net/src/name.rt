//! Circuits: the names of lines.

ghost use Rattle.std.specs.Prelude.{◌≡◌, ◌∷◌, IfOk, decimal};
ghost use Rattle.btor2_net.specs.Translations.{line_name};

use btor2_text::Line;
use itoa::Buffer;
use kw_bits::{NoMemory, Text};
use std::alloc::Global;

/// The name of a line: its symbol, or else `n` and its id.
pub(crate) fn name_of(alloc: Global, line: &Line) -> Result<Text, NoMemory>
    ensures { IfOk result (λ name. name ≡ line_name line.now) }
{
    match &line.symbol {
        Some(symbol) => Text::from_slice(alloc, symbol.as_slice()),
        None => numbered(alloc, line.id),
    }
}

// The name of a line without a symbol.
fn numbered(alloc: Global, id: u64) -> Result<Text, NoMemory>
    ensures { IfOk result (λ name. name ≡ 110 ∷ decimal id) }
{
    let mut buffer = Buffer::new();
    let mut name = Text::new(alloc);
    name.push(b'n')?;
    name.extend_from_slice(buffer.format(id).as_bytes())?;
    Ok(name)
}
