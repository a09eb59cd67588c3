//! Reports: the rules that fired, as text.

// The rules that fired.
ghost use Rattle.std.specs.Prelude.{◌≡◌, ◌≤◌, ◌&&◌, not, length};
ghost use Rattle.stim_report.specs.inner.Pages.{Gains, HasRoom};
ghost use Rattle.stim_report.specs.Report.{fired_names, listed};
ghost use Rattle.stim_report.specs.inner.Steps.{separated, shown};

use crate::page::{push, push_all};
use kw_bits::{Reserved, Text};

// The names of the rules that fired, with commas between them, or a dash.
pub(crate) fn push_fired(page: &mut Reserved<u8>, rules: &[Text], fired: &[bool])
    requires flags { length rules.now ≤ length fired.now }
    requires room { HasRoom page.old (listed (fired_names rules.now fired.now)) }
    ensures { Gains page.old page.new (listed (fired_names rules.now fired.now)) }
{
    let mut is_first = true;
    for (number, rule) in rules.iter().enumerate() {
        is_first = push_if_fired(page, is_first, rule, fired[number]);
    }
    if is_first {
        push(page, b'-');
    }
}

// The name of a rule that fired, and whether the next one is still the first.
fn push_if_fired(page: &mut Reserved<u8>, is_first: bool, rule: &Text, fired: bool) -> bool
    requires { HasRoom page.old (shown is_first rule.now fired) }
    ensures text { Gains page.old page.new (shown is_first rule.now fired) }
    ensures first { result ≡ (is_first && not fired) }
{
    if !fired {
        return is_first;
    }
    push_name(page, is_first, rule);
    false
}

// A name, after a comma unless it is the first.
fn push_name(page: &mut Reserved<u8>, is_first: bool, name: &Text)
    requires { HasRoom page.old (separated is_first name.now) }
    ensures { Gains page.old page.new (separated is_first name.now) }
{
    if !is_first {
        push(page, b',');
    }
    push_all(page, name.as_slice());
}
