//! Program: the commands that only read a design.

ghost use Rattle.std.specs.Prelude.{◌≡◌, ◌≤◌, ◌++◌, IfOk, OnOk, decimal, length};
ghost use Rattle.kw_base.specs.Fault.{IfFault};
ghost use Rattle.one_rule.specs.Hosts.{host_specs};
ghost use Rattle.koika_top.specs.Reads as reads;
ghost use Rattle.koika_top.specs.Reads.{ShowsTree, TellsCounts};
ghost use Rattle.front_end.specs.Sources.{IsUnread, IsUnspelled, longest_source};

use front_end::{read_source, read_tree};
use host_fn::HostFn;
use itoa::Buffer;
use koika_check::Counts;
use koika_print::print;
use kw_base::Refusal;
use kw_bits::{NoMemory, Text};
use std::alloc::Global;
use stim_report::source_parts;

/// How large the design of a source is, where a stimulus for it follows, or the first fault.
pub(crate) fn check_source(alloc: Global, hosts: &[HostFn], source: &[u8]) -> Result<Text, Refusal>
    requires { length source.now ≤ longest_source }
    ensures text { IfOk result (TellsCounts (host_specs hosts.now) source.now) }
    ensures refused { IfFault result (IsUnspelled (host_specs hosts.now) source.now) }
{
    let spelled = read_source(alloc, hosts, source)?;
    let text = counts_line(alloc, spelled.design.counts())?;
    Ok(text)
}

/// The tree of a source, printed, or the first fault of its tokens or of the grammar.
pub(crate) fn print_source(alloc: Global, source: &[u8]) -> Result<Text, Refusal>
    requires { length source.now ≤ longest_source }
    ensures text { IfOk result (ShowsTree source.now) }
    ensures refused { IfFault result (IsUnread source.now) }
{
    let tree = read_tree(alloc, source, source_parts(source).design)?;
    let text = print(alloc, &tree)?;
    Ok(text)
}

// The line that tells how large a design is.
fn counts_line(alloc: Global, counts: Counts) -> Result<Text, NoMemory>
    ensures { IfOk result (λ text. text ≡ reads.counts_line counts) }
{
    let mut text = Text::new(alloc);
    push_count(&mut text, b"ok registers=", counts.registers)?;
    push_count(&mut text, b" rules=", counts.rules)?;
    push_count(&mut text, b" nodes=", counts.nodes)?;
    push_count(&mut text, b" weight=", counts.weight)?;
    text.push(b'\n')?;
    Ok(text)
}

// Adds a label and a number after it.
fn push_count(text: &mut Text, label: &[u8], count: u32) -> Result<(), NoMemory>
    ensures { OnOk result (text.new ≡ text.old ++ label.now ++ decimal count) }
{
    text.extend_from_slice(label)?;
    text.extend_from_slice(Buffer::new().format(count).as_bytes())
}
