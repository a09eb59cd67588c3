//! Checker: functions and rules.

ghost use Rattle.std.specs.Prelude.{◌≡◌, ◌++◌, ◌∷◌, [], OnOk};
ghost use Rattle.koika_check.specs.inner.Checking.{Grows, IsChecker, IsTypeIf, scope_of};
ghost use Rattle.koika_check.specs.Declarations as declarations;
ghost use Rattle.koika_check.specs.Outcomes.{one_by_one};
ghost use Rattle.koika_check.specs.inner.Outcomes.{Answers};
ghost use Rattle.koika_check.specs.inner.Parameters.{AreParameters};
ghost use Rattle.koika_check.specs.inner.Settled.{IsSettled};

use crate::agreement::agrees;
use crate::checked::{CheckedFunction, CheckedRule};
use crate::checker::{Checker, Signature};
use crate::declarations::repeated;
use crate::shapes::Shape;
use crate::stop::{Stop, refuse};
use crate::typed::ValueType;
use koika_syntax::{Block, Field, Name, TypeExpression};
use kw_bits::{Sequence, Text};

/// The types of the parameters of a function, in order.
#[derive(Drop)]
pub(crate) struct Parameters {
    pub of: Sequence<ValueType>,
    pub shapes: Sequence<Shape>,
}

// The type of what a function gives, if it gives a value.
#[derive(Drop)]
struct Gives {
    of: Option<ValueType>,
    shape: Option<Shape>,
}

impl Checker {
    /// `fun`.
    pub(crate) fn function(
        &mut self,
        name: &Name,
        parameters: &[Field],
        written: &Option<TypeExpression>,
        body: &Block,
    ) -> Result<(), Stop>
        requires { IsSettled self.old }
        ensures kept { OnOk result (IsSettled self.new) }
        ensures hosts { OnOk result (self.new.hosts ≡ self.old.hosts) }
        ensures answers { Answers (λ _ x. self.new.design ≡ record self.old.design { functions = self.old.design.functions ++ x ∷ [] }) (declarations.function_with self.old.design name.now parameters.now written.now body.now) result }
    {
        self.is_new(name)?;
        let parameters = self.parameters(parameters)?;
        let gives = self.gives(written)?;
        let typing = self.block(body)?;
        refuse(agrees(gives.shape, typing.part))?;
        self.locals.leave(0);
        let text = Text::from_slice(self.alloc, name.text.as_slice())?;
        let declared = CheckedFunction {
            name: text,
            parameters: parameters.of,
            result: gives.of,
            body: typing.typed,
        };
        let signature = Signature {
            parameters: parameters.shapes,
            result: gives.shape,
        };
        self.add_function(name, declared, signature)?;
        Ok(())
    }

    // Binds the parameters of a function, where no other name is bound.
    fn parameters(&mut self, parameters: &[Field]) -> Result<Parameters, Stop>
        requires { IsSettled self.old }
        ensures kept { OnOk result (IsChecker self.new) }
        ensures grows { OnOk result (Grows self.old self.new) }
        ensures answers { Answers (λ all found. ((scope_of self.new).locals ≡ found) × AreParameters self.new all) (one_by_one (declarations.add_parameter self.old.design) parameters.now []) result }
    {
        let mut all = Parameters {
            of: Sequence::new(self.alloc),
            shapes: Sequence::new(self.alloc),
        };
        for parameter in parameters {
            self.parameter(parameter, &mut all)?;
        }
        Ok(all)
    }

    // Binds the next parameter.
    fn parameter(&mut self, parameter: &Field, all: &mut Parameters) -> Result<(), Stop>
        requires checker { IsChecker self.old }
        requires bound { AreParameters self.old all.old }
        ensures kept { OnOk result (IsChecker self.new) }
        ensures grows { OnOk result (Grows self.old self.new) }
        ensures bound { OnOk result (AreParameters self.new all.new) }
        ensures answers { Answers (λ _ found. (scope_of self.new).locals ≡ found) (declarations.add_parameter self.old.design parameter.now (scope_of self.old).locals) result }
    {
        self.is_unbound(&parameter.name)?;
        let of = self.named_type(&parameter.of)?;
        self.locals.bind(parameter.name.text.as_slice(), of.shape)?;
        all.of.push(of.of)?;
        all.shapes.push(of.shape)?;
        Ok(())
    }

    // Goes on where no parameter has this name.
    fn is_unbound(&self, name: &Name) -> Result<(), Stop>
        requires { IsChecker self.now }
        ensures { Answers (λ _ found. found ≡ name.now.text) (declarations.other_name (declarations.names_of_locals (scope_of self.now).locals) name.now) result }
    {
        match self.locals.named(name.text.as_slice()) {
            Some(_) => Err(repeated(name)),
            None => Ok(()),
        }
    }

    // The type that a function gives.
    fn gives(&mut self, of: &Option<TypeExpression>) -> Result<Gives, Stop>
        requires { IsChecker self.old }
        ensures kept { OnOk result (IsChecker self.new) }
        ensures grows { OnOk result (Grows self.old self.new) }
        ensures locals { OnOk result (self.new.locals ≡ self.old.locals) }
        ensures answers { Answers (λ gives found. (gives.of ≡ found) × IsTypeIf self.new gives.shape gives.of) (declarations.result_of self.old.design of.now) result }
    {
        match of {
            None => Ok(Gives {
                of: None,
                shape: None,
            }),
            Some(of) => {
                let of = self.named_type(of)?;
                Ok(Gives {
                    of: Some(of.of),
                    shape: Some(of.shape),
                })
            }
        }
    }

    /// `rule`.
    pub(crate) fn rule(&mut self, name: &Name, body: &Block) -> Result<(), Stop>
        requires { IsSettled self.old }
        ensures kept { OnOk result (IsSettled self.new) }
        ensures hosts { OnOk result (self.new.hosts ≡ self.old.hosts) }
        ensures answers { Answers (λ _ x. self.new.design ≡ record self.old.design { rules = self.old.design.rules ++ x ∷ [] }) (declarations.rule_with self.old.design name.now body.now) result }
    {
        self.is_new(name)?;
        let typing = self.block(body)?;
        refuse(agrees(None, typing.part))?;
        let text = Text::from_slice(self.alloc, name.text.as_slice())?;
        let declared = CheckedRule {
            name: text,
            body: typing.typed,
        };
        self.add_rule(name, declared)?;
        Ok(())
    }
}
