//! Tests of the libraries from streams and bit vectors to engines, boards and circuits, by their public calls: outside
//! vectors, and each call that no command makes, once where it goes well. They cite no definition, and nothing uses
//! them. A library with tests of its own is proved twice at each merge, so those that need nothing private are here.
//! What such calls cost is measured by `bench/costs/library_tests`.
#![tactic(auto)]

#[cfg(test)]
mod attempts;
#[cfg(test)]
mod boards;
#[cfg(test)]
mod circuit_texts;
#[cfg(test)]
mod designs;
#[cfg(test)]
mod engines;
#[cfg(test)]
mod host_functions;
#[cfg(test)]
mod rule_runs;
#[cfg(test)]
mod settings;
#[cfg(test)]
mod slow_board;
#[cfg(test)]
mod stimuli;
#[cfg(test)]
mod streams;
#[cfg(test)]
mod threads;
