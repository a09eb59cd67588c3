//! Designs whose names are resolved: `check` makes the typed tree of a design's tree, or answers its first fault of
//! names, types and limits.
//!
//! `specs/Checks.antt` says what checking a whole tree returns, after `Declarations.antt`, `Constants.antt`,
//! `Expressions.antt` and `Schedule.antt`; `specs/Sizes.antt` what the weight and the depth of a typed tree are. The
//! lowering takes a `Checked`.
#![tactic(auto)]

mod additions;
mod agreement;
mod answer;
mod bit_weight;
mod calls;
mod checked;
mod checker;
mod composites;
mod constants;
mod constructs;
mod counts;
mod declarations;
mod enums;
mod expressions;
mod functions;
mod limits;
mod locals;
mod measure;
mod names;
mod operators;
mod parts;
mod path;
mod schedule;
mod shapes;
mod stop;
mod structs;
mod suffixes;
mod things;
mod typed;
mod types;

pub use answer::check;
pub use checked::{
    Checked, CheckedField, CheckedFunction, CheckedRule, Host, Input, Register, Struct, Table,
};
pub use counts::Counts;
pub use measure::{MAX_DEPTH, MAX_WEIGHT, Measure, measure_of, rule_measures};
pub use typed::{BaseType, BlockStep, Operation, Selection, Typed, ValueType};
