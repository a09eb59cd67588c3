//! Checker: the rules on a path of the scheduler.

ghost use Rattle.std.specs.Prelude.{◌≡◌, ◌<◌, ◌++◌, ◌∷◌, [], false, length, take, IfOk, OnOk};
ghost use Rattle.koika_check.specs.inner.Paths.{IsPath};
ghost use Rattle.koika_check.specs.Schedule.{is_on};

use kw_bits::{NoMemory, Sequence};
use std::alloc::Global;

/// The rules on the way to a node, none of them twice.
#[derive(Drop)]
pub(crate) struct Path {
    rules: Sequence<u32>,
    // For each rule of the design, if it is on the path, its place there.
    places: Sequence<usize>,
}

impl Path {
    /// No rule, of a design with that many.
    pub(crate) fn new(alloc: Global, rules: usize) -> Result<Path, NoMemory>
        ensures kept { IfOk result IsPath }
        ensures empty { IfOk result (λ path. path.rules ≡ []) }
        ensures rules { IfOk result (λ path. length path.places ≡ rules) }
    {
        let mut places = Sequence::new(alloc);
        for _ in 0..rules {
            places.push(0)?;
        }
        Ok(Path {
            rules: Sequence::new(alloc),
            places,
        })
    }

    /// How many rules are on the path.
    pub(crate) fn len(&self) -> usize
        ensures { result ≡ length self.now.rules }
    {
        self.rules.len()
    }

    /// The rules, in order.
    pub(crate) fn rules(&self) -> &[u32]
        ensures { result.now ≡ self.now.rules }
    {
        self.rules.as_slice()
    }

    /// Whether a rule is on the path.
    pub(crate) fn has(&self, rule: u32) -> bool
        requires kept { IsPath self.now }
        requires known { rule < length self.now.places }
        ensures { result ≡ is_on rule self.now.rules }
    {
        let place = self.places[rule as usize];
        place < self.rules.len() && self.rules[place] == rule
    }

    /// Puts a rule that isn't on the path at its end.
    pub(crate) fn push(&mut self, rule: u32) -> Result<(), NoMemory>
        requires kept { IsPath self.old }
        requires known { rule < length self.old.places }
        requires new { is_on rule self.old.rules ≡ false }
        ensures kept { OnOk result (IsPath self.new) }
        ensures pushed { OnOk result (self.new.rules ≡ self.old.rules ++ rule ∷ []) }
        ensures rules { OnOk result (length self.new.places ≡ length self.old.places) }
    {
        self.places.set(rule as usize, self.rules.len());
        Ok(self.rules.push(rule)?)
    }

    /// Takes all rules from the path but the first ones.
    pub(crate) fn leave(&mut self, count: usize)
        requires { IsPath self.old }
        ensures kept { IsPath self.new }
        ensures left { self.new.rules ≡ take count self.old.rules }
        ensures rules { self.new.places ≡ self.old.places }
    {
        self.rules.truncate(count);
    }
}
