//! Core: designs that are valid by their type.

ghost use Rattle.std.specs.Prelude.{◌≡◌, ◌↔◌, IsSome, IfSome, IsTrue};
ghost use Rattle.typed_core.specs.Continuations.{is_at, root};

use crate::action::Action;
use crate::equality::are_same_rules;
use crate::validity::is_valid;
use kw_bits::{Bits, HostSpec, Sequence, TableSpec, Text};
use std::marker::Model;

/// A register: its name, its width and its first value.
#[derive(Debug, PartialEq, Eq, Drop)]
pub struct RegDecl {
    pub name: Text,
    pub width: u32,
    pub first: Bits,
}

/// An input: its name and its width.
#[derive(Debug, PartialEq, Eq, Drop)]
pub struct InputDecl {
    pub name: Text,
    pub width: u32,
}

/// A rule: its name and its body.
#[derive(Debug, PartialEq, Eq, Drop)]
pub struct Rule {
    pub name: Text,
    pub body: Action,
}

/// Where the scheduler goes on.
#[derive(Clone, Copy, Debug, PartialEq, Eq)]
pub enum Next {
    /// At the node of this number.
    Node(u32),
    /// At the end of the cycle.
    End,
}

impl Next {
    /// Whether the walk is at the node of this number.
    pub fn is_at(self, number: usize) -> bool
        ensures { result ≡ is_at number self }
    {
        match self {
            Next::Node(to) => number == to as usize,
            Next::End => false,
        }
    }
}

/// A node of the scheduler: the rule that it tries, and where it goes on if the rule fires and if not.
#[derive(Clone, Copy, Debug, PartialEq, Eq)]
pub struct Node {
    pub rule: u32,
    pub yes: Next,
    pub no: Next,
}

/// What a design is made of. Node 0 is the scheduler's root.
#[derive(Debug, Drop)]
pub struct Parts {
    pub regs: Sequence<RegDecl>,
    pub inputs: Sequence<InputDecl>,
    pub tables: Sequence<TableSpec>,
    pub hosts: Sequence<HostSpec>,
    pub rules: Sequence<Rule>,
    pub nodes: Sequence<Node>,
}

/// A valid design, seen by contracts as its parts.
#[derive(Debug, Drop)]
pub struct Design {
    pub regs: Sequence<RegDecl>,
    pub inputs: Sequence<InputDecl>,
    pub tables: Sequence<TableSpec>,
    pub hosts: Sequence<HostSpec>,
    pub rules: Sequence<Rule>,
    pub nodes: Sequence<Node>,
}

impl Model for Design {
    ghost use Rattle.typed_core.specs.declared.design.Parts.{Parts};
    ghost use Rattle.typed_core.specs.contracts.action.Action as action;
    ghost use Rattle.std.specs.Coded.{codes};

    ghost Value = { Parts };

    ghost coded = { Prim.hlevel (codes, action.the_row.coded) };

    ghost use Rattle.typed_core.specs.Valid.{IsValid};

    ghost view = { λ d. record { regs = d.regs; inputs = d.inputs; tables = d.tables; hosts = d.hosts; rules = d.rules; nodes = d.nodes } };

    ghost invariant = { λ d. IsValid (record { regs = d.regs; inputs = d.inputs; tables = d.tables; hosts = d.hosts; rules = d.rules; nodes = d.nodes }) };
}

impl Design {
    ghost use Rattle.typed_core.specs.Same.{SameDesign};
    ghost use Rattle.typed_core.specs.Valid.{IsValid};

    /// The design of these parts, if they are valid.
    pub fn new(parts: Parts) -> Option<Design>
        ensures some { IsSome result ↔ IsValid parts }
        ensures parts { IfSome result (λ design. design ≡ parts) }
    {
        if !is_valid(&parts) {
            return None;
        }
        let Parts {
            regs,
            inputs,
            tables,
            hosts,
            rules,
            nodes,
        } = parts;
        Some(Design {
            regs,
            inputs,
            tables,
            hosts,
            rules,
            nodes,
        })
    }

    /// What each design is by its type: valid. It does nothing, and is called for its contract.
    pub fn recall(&self)
        ensures { IsValid self.now }
    {
        let _ = &self.regs;
    }

    /// Where the scheduler's walk begins.
    pub fn root(&self) -> Next
        ensures { result ≡ root self.now.nodes }
    {
        if self.nodes.is_empty() {
            Next::End
        } else {
            Next::Node(0)
        }
    }

    /// Whether the designs are equal by value.
    pub fn same(&self, other: &Design) -> bool
        ensures { IsTrue result ↔ SameDesign self.now other.now }
    {
        self.regs.is_same(&other.regs)
            && self.inputs.is_same(&other.inputs)
            && self.tables.is_same(&other.tables)
            && self.hosts.is_same(&other.hosts)
            && are_same_rules(&self.rules, &other.rules)
            && self.nodes.is_same(&other.nodes)
    }
}
