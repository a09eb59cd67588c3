//! The plain program that lists what occurs in the bodies of rules, by which `lint` makes its lists.

ghost use Rattle.std.specs.Prelude.{◌≤◌, length};
ghost use Rattle.front_end.specs.Sources.{longest_source};

use crate::ROOM;
use front_end::read_source;
use host_fn::offered::BITS_OF_ONE;
use host_fn::{HostFn, offered};
use kw_base::Refusal;
use kw_bits::{HostKind, Sequence};
use lab_lint::{Occurrence, all_occurrences};
use std::alloc::Global;
use std::io;

/// Writes for each rule of a source what occurs in its body, in the order of evaluation.
#[tactic(auto, unfolding(kw_bits::specs::Host::arity))]
pub(crate) fn run_occurring(rt: &HostRuntime, source: &[u8]) -> io::Result<()> {
    if source.len() > ROOM {
        return println!(rt; "too long");
    }
    let hosts = [HostFn::new(HostKind::Popcount, BITS_OF_ONE, offered::popcount).unwrap()];
    match occurrences_of(rt.alloc(), &hosts, source) {
        Ok(bodies) => write_bodies(rt, &bodies),
        Err(_) => println!(rt; "no occurrences"),
    }
}

// What occurs in the bodies of a source's rules.
fn occurrences_of(
    alloc: Global,
    hosts: &[HostFn],
    source: &[u8],
) -> Result<Sequence<Sequence<Occurrence>>, Refusal>
    requires { length source.now ≤ longest_source }
{
    let spelled = read_source(alloc, hosts, source)?;
    let bodies = all_occurrences(alloc, &spelled.design)?;
    Ok(bodies)
}

// Writes a line for each rule, in order of declaration.
fn write_bodies(rt: &HostRuntime, bodies: &Sequence<Sequence<Occurrence>>) -> io::Result<()> {
    for (rule, body) in bodies.as_slice().iter().enumerate() {
        print!(rt; "rule {rule}:")?;
        for occurrence in body.as_slice() {
            write_occurrence(rt, occurrence)?;
        }
        println!(rt; "")?;
    }
    Ok(())
}

// Writes an access as in a journal, and all else by its kind, each with the number of what is declared.
fn write_occurrence(rt: &HostRuntime, occurrence: &Occurrence) -> io::Result<()> {
    match occurrence {
        Occurrence::Access(access) => {
            let kind = if access.write { 'w' } else { 'r' };
            print!(rt; " {kind}{}:{}", access.port, access.register)
        }
        Occurrence::Input(number) => print!(rt; " input:{number}"),
        Occurrence::Table(number) => print!(rt; " table:{number}"),
        Occurrence::Host(number) => print!(rt; " host:{number}"),
    }
}
