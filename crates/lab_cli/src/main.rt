//! The lab's program: its arguments, standard input and standard output and its host functions go to `lab_top::lab`,
//! whose status is the exit status.
//!
//! It has no definition of its own: what it answers is the contract of `lab`. Nothing calls it.
#![tactic(auto)]

use host_fn::offered_functions;
use kw_io::{NO_ARGUMENTS, Sink, Source, StdSink, StdSource};
use lab_top::{LabStatus, lab};
use std::alloc::Global;
use std::env::{Env, args};
use std::io;
use std::io::ErrorKind;
use std::process::ExitCode;

fn main(rt: HostRuntime) -> ExitCode {
    match arguments(&rt) {
        Ok(arguments) => {
            let mut source = StdSource::new(rt.stdin());
            let mut sink = StdSink::new(rt.stdout());
            let status = lab_with_hosts(rt.alloc(), &arguments, &mut source, &mut sink);
            ExitCode::from(status.number())
        }
        Err(error) if error.kind() == ErrorKind::OutOfMemory => {
            ExitCode::from(LabStatus::NoMemory.number())
        }
        Err(_) => ExitCode::from(NO_ARGUMENTS),
    }
}

// Runs the lab with a host function of each kind.
#[tactic(auto, unfolding(kw_bits::specs::Host::arity))]
fn lab_with_hosts<S: Source, K: Sink>(
    alloc: Global,
    words: &[String],
    source: &mut S,
    sink: &mut K,
) -> LabStatus {
    let hosts = offered_functions!();
    lab(alloc, words, &hosts, source, sink)
}

// The arguments of the command line, without the program's own name.
fn arguments(rt: &(impl Env + AllocGlobal)) -> io::Result<Vec<String>> {
    Ok(args(rt)?.skip(1).collect(rt.alloc())?)
}
