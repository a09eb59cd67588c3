//! Core: how host functions are stored, and how a stored one is called.

ghost use Rattle.std.specs.Prelude.{◌≡◌, ◌↔◌, IsSome, IfSome};
ghost use Rattle.kw_bits.specs.Host as host;
ghost use Rattle.host_fn.specs.HostFn.{AnswersOne, AnswersTwo};
ghost use Rattle.host_fn.specs.Stored.{spec_of};

use crate::binary::Binary;
use crate::stored::{HostFn, StoredFunction};
use crate::unary::Unary;
use kw_bits::{Bits, HostKind};

type One = fn(u64) -> u64;

type Two = fn(u64, u64) -> u64;

impl HostFn {
    /// A function of one argument. There is none where the input width is outside 1 to 12 or the kind has two
    /// arguments.
    pub fn new(kind: HostKind, in_width: u32, call: fn(u64) -> u64) -> Option<HostFn>
        requires { host.TakesWidth kind in_width → host.arity kind ≡ 1 → AnswersOne kind in_width (One.pre call) (One.post call) }
        ensures some { IsSome result ↔ (host.TakesWidth kind in_width × (host.arity kind ≡ 1)) }
        ensures function { IfSome result (λ f. spec_of f ≡ record { kind = kind; in_width = in_width }) }
    {
        if kind.arity() != 1 || !kind.takes_width(in_width) {
            return None;
        }
        Some(HostFn {
            function: StoredFunction::Unary(Unary {
                kind,
                in_width,
                call,
            }),
        })
    }

    /// A function of two arguments, the halves of the input. There is none where the input width is outside 1 to 12 or
    /// odd, or the kind has one argument.
    pub fn new_two(kind: HostKind, in_width: u32, call: fn(u64, u64) -> u64) -> Option<HostFn>
        requires { host.TakesWidth kind in_width → host.arity kind ≡ 2 → AnswersTwo kind in_width (Two.pre call) (Two.post call) }
        ensures some { IsSome result ↔ (host.TakesWidth kind in_width × (host.arity kind ≡ 2)) }
        ensures function { IfSome result (λ f. spec_of f ≡ record { kind = kind; in_width = in_width }) }
    {
        if kind.arity() != 2 || !kind.takes_width(in_width) {
            return None;
        }
        Some(HostFn {
            function: StoredFunction::Binary(Binary {
                kind,
                in_width,
                call,
            }),
        })
    }

    /// What the function returns.
    pub fn kind(&self) -> HostKind
        ensures { result ≡ (spec_of self.now).kind }
    {
        match &self.function {
            StoredFunction::Unary(function) => function.kind,
            StoredFunction::Binary(function) => function.kind,
        }
    }

    /// How many bits its input has, of all arguments together: 1 to 12, and an even number for two arguments.
    pub fn in_width(&self) -> u32
        ensures width { result ≡ (spec_of self.now).in_width }
        ensures takes { host.TakesWidth (spec_of self.now).kind (spec_of self.now).in_width }
    {
        match &self.function {
            StoredFunction::Unary(function) => function.in_width,
            StoredFunction::Binary(function) => function.in_width,
        }
    }

    /// How many bits its results have.
    pub fn out_width(&self) -> u32
        ensures { result ≡ host.out_width (spec_of self.now).kind (spec_of self.now).in_width }
    {
        self.kind().out_width(self.in_width())
    }

    /// The stored function's result for an input of its width.
    pub fn ask(&self, x: Bits) -> Bits
        requires { x.width ≡ (spec_of self.now).in_width }
        ensures { result ≡ host.value (spec_of self.now).kind x }
    {
        match &self.function {
            StoredFunction::Unary(function) => function.ask(x),
            StoredFunction::Binary(function) => function.ask(x),
        }
    }
}
