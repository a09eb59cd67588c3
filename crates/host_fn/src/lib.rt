//! Host functions: a function pointer beside the fact that it returns what its kind says on every input of its width.
//!
//! Contracts see a `HostFn` by `spec_of` of `specs/Stored.antt`, its kind and the width of its input, and cite the
//! answers of `kw_bits`. A program makes host functions of those in `offered`, the checker reads what they are, and the
//! rules of a design ask them.
#![tactic(auto)]

mod answer;
mod binary;
mod function;
pub mod offered;
mod stored;
mod unary;

pub use stored::HostFn;
