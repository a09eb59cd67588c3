//! Circuits: the first and next values of a file's states.

// Which values the states of a text are set to.
ghost use Rattle.std.specs.Prelude.{◌≡◌, ◌∷◌, [], ℕ, IfOk, OnOk};
ghost use Rattle.std.specs.Option.{option_or};
ghost use Rattle.btor2_model.specs.Table.{value_in};
ghost use Rattle.btor2_net.specs.inner.Wires.{set_by};

use crate::form::Form;
use btor2_model::{Table, id_at};
use btor2_text::Line;
use kw_bits::NoMemory;
use std::alloc::Global;

/// The id of the value that the first line of a form sets each state to, by the state's id.
pub(crate) fn values_set(alloc: Global, form: Form, lines: &[Line]) -> Result<Table<u64>, NoMemory>
    ensures { IfOk result (λ values. (state : ℕ) → value_in values state ≡ set_by form state lines.now) }
{
    let mut values = Table::new(alloc, lines.len())?;
    for line in lines {
        set_first(&mut values, form, line)?;
    }
    Ok(values)
}

// Takes the value that a line of the form sets its state to, if none is there.
fn set_first(values: &mut Table<u64>, form: Form, line: &Line) -> Result<(), NoMemory>
    ensures { OnOk result ((state : ℕ) → value_in values.new state ≡ option_or (value_in values.old state) (set_by form state (line.now ∷ []))) }
{
    let given = line.arguments.as_slice();
    let state = id_at(given, 1);
    if form.is_of(line) && values.get(state).is_none() {
        values.insert(state, id_at(given, 2))?;
    }
    Ok(())
}
