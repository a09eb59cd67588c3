//! Engines: the tables and host functions that rules ask.

ghost use Rattle.std.specs.Prelude.{◌≡◌, ◌↔◌, ℕ, All, IfOk, IsTrue, Contains, slice_get};
ghost use Rattle.typed_core.specs.Evaluation.{answer_of, entry_of};
ghost use Rattle.typed_core.specs.Valid.{HostHasWidth, IsTable, TableHasWidth, externs_of};
ghost use Rattle.one_rule.specs.Externs.{AreOffered, kept};
ghost use Rattle.host_fn.specs.Stored.{spec_of};
ghost use Rattle.one_rule.specs.Hosts.{host_specs};

mod kept;
mod values;

pub use self::kept::Externs;
use self::values::HostValues;
use crate::evaluation::Outside;
use ext_table::Table;
use host_fn::HostFn;
use kw_bits::{Bits, NoMemory, Sequence};
use std::alloc::Global;
use typed_core::{Design, HostSpec, TableSpec};

impl Externs {
    /// The tables of a design, and for each of its host functions the first that is offered of its kind and width.
    pub fn new(alloc: Global, design: &Design, hosts: &[HostFn]) -> Result<Externs, NoMemory>
        requires { AreOffered design.now.hosts (host_specs hosts.now) }
        ensures { IfOk result (λ externs. kept externs ≡ externs_of design.now) }
    {
        Ok(Externs {
            tables: tables_of(alloc, design.tables.as_slice())?,
            hosts: hosts_of(alloc, design.hosts.as_slice(), hosts)?,
        })
    }

    /// The entry of the table of this number.
    pub fn look(&self, table: u32, x: Bits) -> Bits
        requires { (width : ℕ) × TableHasWidth (kept self.now).tables table x.width width }
        ensures entry { result ≡ entry_of (slice_get (kept self.now).tables table) x }
        ensures width { (width : ℕ) → TableHasWidth (kept self.now).tables table x.width width → result.width ≡ width }
    {
        self.tables.get(table as usize).look(x)
    }

    /// What the host function of this number answers.
    pub fn ask(&self, host: u32, x: Bits) -> Bits
        requires { (width : ℕ) × HostHasWidth (kept self.now).hosts host x.width width }
        ensures answer { result ≡ answer_of (slice_get (kept self.now).hosts host) x }
        ensures width { (width : ℕ) → HostHasWidth (kept self.now).hosts host x.width width → result.width ≡ width }
    {
        self.hosts.get(host as usize).ask(x)
    }
}

impl Outside for Externs {
    ghost use Rattle.one_rule.specs.Externs.{kept};

    ghost kept = { λ e. kept e };

    fn look(&self, table: u32, x: Bits) -> Bits {
        self.look(table, x)
    }

    fn ask(&self, host: u32, x: Bits) -> Bits {
        self.ask(host, x)
    }
}

fn tables_of(alloc: Global, specs: &[TableSpec]) -> Result<Sequence<Table>, NoMemory>
    requires { All IsTable specs.now }
    ensures { IfOk result (λ tables. tables ≡ specs.now) }
{
    let mut tables = Sequence::new(alloc);
    for spec in specs {
        tables.push(table_of(alloc, spec)?)?;
    }
    Ok(tables)
}

fn table_of(alloc: Global, spec: &TableSpec) -> Result<Table, NoMemory>
    requires { IsTable spec.now }
    ensures { IfOk result (λ table. table ≡ spec.now) }
{
    let entries = Vec::from_slice(alloc, spec.entries.as_slice())?;
    match Table::new(spec.in_width, spec.out_width, entries) {
        Ok(table) => Ok(table),
        Err(_) => unreachable!(),
    }
}

fn hosts_of(
    alloc: Global,
    specs: &[HostSpec],
    offered: &[HostFn],
) -> Result<Sequence<HostValues>, NoMemory>
    requires { AreOffered specs.now (host_specs offered.now) }
    ensures { IfOk result (λ hosts. hosts ≡ specs.now) }
{
    let mut hosts = Sequence::new(alloc);
    for spec in specs {
        hosts.push(HostValues::new(alloc, &host_of(spec, offered))?)?;
    }
    Ok(hosts)
}

// The first that is offered of a kind and a width.
fn host_of(spec: &HostSpec, offered: &[HostFn]) -> HostFn
    requires { Contains (host_specs offered.now) spec.now }
    ensures { spec_of result ≡ spec.now }
{
    for function in offered {
        if meets(function, spec) {
            return *function;
        }
    }
    unreachable!()
}

fn meets(function: &HostFn, spec: &HostSpec) -> bool
    ensures { IsTrue result ↔ (spec_of function.now ≡ spec.now) }
{
    function.kind() == spec.kind && function.in_width() == spec.in_width
}
