//! Core: the names that are bound around an action.

ghost use Rattle.std.specs.Prelude.{◌≡◌, [], ◌∷◌, slice_get};

use std::marker::Model;

/// What the names that are bound round an action stand for, the innermost first. One that is bound inside others
/// is in front of them for as long as its body is looked at, so binding copies nothing and takes no memory.
#[derive(Drop)]
pub struct Scope<'a, T> {
    innermost: Option<(T, &'a Scope<'a, T>)>,
}

impl<'a, T> Model for Scope<'a, T> {
    ghost use Rattle.std.specs.Prelude.{List, length};
    ghost use Rattle.typed_core.specs.Scope.{names};

    ghost Value = { List T };

    ghost view = { λ s. names s.innermost };

    ghost size = { length };

    ghost use Rattle.std.proofs.Common.{arith};

    ghost size_decreases = { λ s h. Prim.grind (arith) };
}

impl<'a, T: Copy> Scope<'a, T> {
    /// No name is bound.
    pub fn empty() -> Scope<'a, T>
        ensures { result ≡ [] }
    {
        Scope { innermost: None }
    }

    /// One more name, inside the others.
    pub fn bind(value: T, outer: &'a Scope<'a, T>) -> Scope<'a, T>
        ensures { result ≡ value ∷ outer.now }
    {
        Scope {
            innermost: Some((value, outer)),
        }
    }

    /// What the name this many further out stands for, 0 for the innermost.
    pub fn get(&self, name: u32) -> Option<T>
        ensures { result ≡ slice_get self.now name }
    {
        match &self.innermost {
            None => None,
            Some((value, outer)) => {
                if name == 0 {
                    Some(*value)
                } else {
                    outer.get(name - 1)
                }
            }
        }
    }
}
