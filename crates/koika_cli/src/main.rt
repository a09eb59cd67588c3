//! The program: its arguments, standard input and standard output and its host functions go to `koika_top::run`, whose
//! status is the exit status.
//!
//! It has no definition of its own: what it answers is the contract of `run`. Nothing calls it.
#![tactic(auto)]

use attempt_log::NoGate;
use host_fn::offered_functions;
use koika_top::{Status, run};
use kw_io::{NO_ARGUMENTS, Sink, Source, StdSink, StdSource};
use std::alloc::Global;
use std::env::{Env, args};
use std::io;
use std::io::ErrorKind;
use std::process::ExitCode;
use std::sync::Wait;
use std::thread::Threads;

fn main(rt: HostRuntime) -> ExitCode {
    match arguments(&rt) {
        Ok(arguments) => {
            let mut source = StdSource::new(rt.stdin());
            let mut sink = StdSink::new(rt.stdout());
            let status = run_with_hosts(&rt, rt.alloc(), &arguments, &mut source, &mut sink);
            ExitCode::from(status.number())
        }
        Err(error) if error.kind() == ErrorKind::OutOfMemory => {
            ExitCode::from(Status::NoMemory.number())
        }
        Err(_) => ExitCode::from(NO_ARGUMENTS),
    }
}

// Runs the program with a host function of each kind, and a gate that holds no worker.
#[tactic(auto, unfolding(kw_bits::specs::Host::arity))]
fn run_with_hosts<S: Source, K: Sink, R: Threads + Wait + Sync>(
    rt: &R,
    alloc: Global,
    words: &[String],
    source: &mut S,
    sink: &mut K,
) -> Status {
    let hosts = offered_functions!();
    run(rt, alloc, words, &hosts, &NoGate, source, sink)
}

// The arguments of the command line, without the program's own name.
fn arguments(rt: &(impl Env + AllocGlobal)) -> io::Result<Vec<String>> {
    Ok(args(rt)?.skip(1).collect(rt.alloc())?)
}
