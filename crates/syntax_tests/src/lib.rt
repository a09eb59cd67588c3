//! Tests of the parser, the printer and the types of values, by those of their public calls that no command makes.
//! They cite no definition, and nothing uses them. A library with tests of its own is proved twice at each merge. What
//! texts of a megabyte cost is measured by `bench/costs/syntax_tests`.
#![tactic(auto)]

#[cfg(test)]
mod printing;
#[cfg(test)]
mod values;
