//! Engines: the log of a rule, or of the rules that fired so far in a cycle.

ghost use Rattle.std.specs.Prelude.{◌≡◌, ◌≢◌, ◌+◌, ◌*◌, ◌<◌, ◌≤◌, ℕ, List, Bool, true, false, [], ◌∷◌, ◌++◌, ◌&&◌, ◌||◌, ◌==◌, not, length, replicate, slice_set, slice_index_or, IfOk, if◌then◌else◌, All, ◌^◌};
ghost use Rattle.std.specs.List.{list_any};
ghost use Rattle.kw_bits.specs.BitVector.{BitVector};
ghost use Rattle.typed_core.specs.Alone.{after, is_refused, seen};
ghost use Rattle.typed_core.specs.Fits.{EventFits};
ghost use Rattle.typed_core.specs.Valid.{IsPort};
ghost use Rattle.typed_core.specs.Widths.{register_widths};
ghost use Rattle.typed_core.specs.declared.access.Access.{Access};
ghost use Rattle.typed_core.specs.declared.access.Event.{Event};
ghost use Rattle.typed_core.specs.declared.limits.TheConstants.{PORTS};
ghost use Rattle.rule_log.specs.Flags.{has};
ghost use Rattle.rule_log.specs.inner.OneRegister.{JoinedAt, SameAt, is_same_place, written_below};
ghost use Rattle.rule_log.specs.StandsFor.{RegisterLog, StandsFor, WritesFollow, is_set, registers, written};
ghost use Rattle.rule_log.specs.declared.flags.PortFlags.{PortFlags};

use crate::flags::PortFlags;
use bitflags::Flags;
use kw_bits::{Bits, NoMemory, Reserved, Sequence};
use smallvec::SmallVec;
use std::alloc::Global;
use std::marker::Model;
use typed_core::limits::PORTS;
use typed_core::{Design, Event};

/// The accesses of a rule, or of the rules that fired so far in a cycle: which ports of each register were read and
/// written, and the values written.
#[derive(Debug, Drop)]
pub struct Log {
    flags: Reserved<PortFlags>,
    values: Reserved<Bits>,
    // The registers that have a flag, which are all that the others have to be walked for.
    touched: SmallVec<u32, 8>,
}

impl Model for Log {
    ghost use Rattle.rule_log.specs.StandsFor.{RegisterLog};

    ghost Value = { RegisterLog };

    ghost view = { λ log. record { flags = log.flags.items; values = log.values.items } };

    ghost use Rattle.rule_log.specs.Touched.{IsSound};

    ghost invariant = { λ log. IsSound log.flags.items log.values.items log.touched.items log.touched.capacity };
}

impl Log {
    /// The log of no access, with memory for every register of the design.
    pub fn new(alloc: Global, design: &Design) -> Result<Log, NoMemory>
        ensures stands { IfOk result (λ log. StandsFor (register_widths design.now) log []) }
        ensures registers { IfOk result (λ log. registers log ≡ length design.now.regs) }
    {
        let registers = design.regs.len();
        Ok(Log {
            flags: filled(alloc, PortFlags::NONE, registers)?,
            values: filled(alloc, Bits::zero(1), PORTS as usize * registers)?,
            touched: SmallVec::with_capacity(alloc, registers)?,
        })
    }

    /// Adds an access at a port below `PORTS`, which no access of this log refuses if it is a write.
    pub fn note(&mut self, event: Event)
        requires port { IsPort event.access.port }
        requires register { event.access.register < registers self.old }
        ensures stands { (widths : List ℕ) (events : List Event) → StandsFor widths self.old events → EventFits widths event
            → (event.access.write ≡ true → is_refused events event.access ≡ false) → StandsFor widths self.new (events ++ event ∷ []) }
        ensures registers { registers self.new ≡ registers self.old }
    {
        let access = event.access;
        let register = access.register as usize;
        if access.write {
            self.set_value(access.port, register, event.value);
        }
        self.mark(register, PortFlags::of(access.write, access.port));
    }

    /// Adds the accesses of a rule log for the same registers, of which this log refuses no write.
    pub fn merge(&mut self, rule: &Log)
        requires { registers rule.now ≡ registers self.old }
        ensures stands { (widths : List ℕ) (events rule_events : List Event) → StandsFor widths self.old events → StandsFor widths rule.now rule_events
            → WritesFollow events rule_events → StandsFor widths self.new (events ++ rule_events) }
        ensures registers { registers self.new ≡ registers self.old }
    {
        for register in rule.touched.as_slice() {
            self.join_register(rule, *register as usize);
        }
    }

    /// Takes all accesses away. The memory stays.
    pub fn clear(&mut self)
        ensures stands { (widths : List ℕ) (events : List Event) → StandsFor widths self.old events → StandsFor widths self.new [] }
        ensures registers { registers self.new ≡ registers self.old }
    {
        clear_flags(&mut self.flags, self.touched.as_slice());
        self.touched.clear();
    }

    /// Gives each register that was written the value of its last write.
    pub fn apply(&self, regs: &mut Sequence<Bits>)
        requires { length regs.old ≡ registers self.now }
        ensures { (widths : List ℕ) (events : List Event) → StandsFor widths self.now events → regs.new ≡ after events regs.old }
    {
        for register in self.touched.as_slice() {
            self.apply_register(*register as usize, regs);
        }
    }

    // Gives one register the value of its last write.
    fn apply_register(&self, register: usize, regs: &mut Sequence<Bits>)
        requires within { register < registers self.now }
        requires registers { length regs.old ≡ registers self.now }
        ensures { (start : BitVector) → regs.new ≡ slice_set regs.old register (written_below self.now PORTS register (slice_index_or regs.old register start)) }
    {
        let value = *self.value_below(PORTS, register, regs.get(register));
        regs.set(register, value);
    }

    // The flags of a register.
    fn flags_of(&self, register: usize) -> PortFlags
        requires { register < registers self.now }
        ensures { (write : Bool) (port : ℕ) → has result write port ≡ is_set self.now write port register }
    {
        self.flags[register]
    }

    // What is kept as the value of a write at a port of a register.
    fn value_at(&self, port: u32, register: usize) -> &Bits
        requires port { IsPort port }
        requires register { register < registers self.now }
        ensures { result.now ≡ written self.now port register }
    {
        &self.values[value_index(port, register)]
    }

    // The value of the write at the highest port below this one, at most `PORTS`, or else the start value.
    fn value_below<'a>(&'a self, port: u32, register: usize, start: &'a Bits) -> &'a Bits
        requires port { port ≤ PORTS }
        requires register { register < registers self.now }
        ensures { result.now ≡ written_below self.now port register start.now }
    {
        match self.flags_of(register).highest_write_below(port) {
            Some(top) => self.value_at(top, register),
            None => start,
        }
    }

    // Adds the accesses of a rule log to one register.
    fn join_register(&mut self, rule: &Log, register: usize)
        requires within { register < registers self.old }
        requires registers { registers rule.now ≡ registers self.old }
        ensures here { JoinedAt self.old rule.now self.new register }
        ensures elsewhere { (other : ℕ) → other ≢ register → SameAt self.old self.new other }
        ensures registers { registers self.new ≡ registers self.old }
    {
        let flags = rule.flags_of(register);
        self.join_values(rule, flags, register);
        self.mark(register, flags);
    }

    // Takes the values of a rule log's writes of a register, of which it has these flags.
    fn join_values(&mut self, rule: &Log, flags: PortFlags, register: usize)
        requires within { register < registers self.old }
        requires registers { registers rule.now ≡ registers self.old }
        requires flags { (write : Bool) (port : ℕ) → has flags write port ≡ is_set rule.now write port register }
        ensures flags { self.new.flags ≡ self.old.flags }
        ensures here { (port : ℕ) → IsPort port → written self.new port register ≡ (if is_set rule.now true port register then written rule.now port register else written self.old port register) }
        ensures elsewhere { (port other : ℕ) → IsPort port → other ≢ register → written self.new port other ≡ written self.old port other }
    {
        if flags.has_write_from(0) {
            for port in 0..PORTS {
                self.join_value(rule, flags, port, register);
            }
        }
    }

    // Takes the value of a rule log's write at a port of a register, of which it has these flags.
    fn join_value(&mut self, rule: &Log, flags: PortFlags, port: u32, register: usize)
        requires port { IsPort port }
        requires within { register < registers self.old }
        requires registers { registers rule.now ≡ registers self.old }
        requires flags { (write : Bool) (port : ℕ) → has flags write port ≡ is_set rule.now write port register }
        ensures flags { self.new.flags ≡ self.old.flags }
        ensures here { written self.new port register ≡ (if is_set rule.now true port register then written rule.now port register else written self.old port register) }
        ensures elsewhere { (at other : ℕ) → IsPort at → is_same_place at other port register ≡ false → written self.new at other ≡ written self.old at other }
    {
        if flags.has_write(port) {
            self.set_value(port, register, *rule.value_at(port, register));
        }
    }

    // Keeps the value of a write at a port of a register.
    fn set_value(&mut self, port: u32, register: usize, value: Bits)
        requires port { IsPort port }
        requires within { register < registers self.old }
        ensures flags { self.new.flags ≡ self.old.flags }
        ensures here { written self.new port register ≡ value }
        ensures elsewhere { (at other : ℕ) → IsPort at → is_same_place at other port register ≡ false → written self.new at other ≡ written self.old at other }
    {
        self.values.set(value_index(port, register), value);
    }

    // Adds flags to those of a register.
    fn mark(&mut self, register: usize, flags: PortFlags)
        requires { register < registers self.old }
        ensures here { (write : Bool) (port : ℕ) → is_set self.new write port register ≡ (is_set self.old write port register || has flags write port) }
        ensures elsewhere { (write : Bool) (port other : ℕ) → other ≢ register → is_set self.new write port other ≡ is_set self.old write port other }
        ensures registers { registers self.new ≡ registers self.old }
        ensures values { self.new.values ≡ self.old.values }
    {
        let before = self.flags[register];
        let both = before.and_also(flags);
        self.flags.set(register, both);
        if before.is_empty() && !both.is_empty() {
            self.touched.push_reserved(register as u32);
        }
    }
}

/// Whether no access of the scheduler log refuses a read of a register at a port below `PORTS`.
pub fn may_read(sched: &Log, port: u32, register: u32) -> bool
    requires port { IsPort port }
    requires register { register < registers sched.now }
    ensures { (widths : List ℕ) (events : List Event) → StandsFor widths sched.now events
        → result ≡ not (is_refused events (record { write = false; port = port; register = register })) }
{
    !sched.flags_of(register as usize).has_write_from(port)
}

/// Whether no access of the rule log and none of the scheduler log refuses a write of a register at a port below
/// `PORTS`.
pub fn may_write(rule: &Log, sched: &Log, port: u32, register: u32) -> bool
    requires port { IsPort port }
    requires rule { register < registers rule.now }
    requires sched { register < registers sched.now }
    ensures { (widths : List ℕ) (rule_events sched_events : List Event) → StandsFor widths rule.now rule_events → StandsFor widths sched.now sched_events
        → let access : Access = record { write = true; port = port; register = register } in
        result ≡ not (is_refused sched_events access || is_refused rule_events access) }
{
    let register = register as usize;
    let flags = sched.flags_of(register).and_also(rule.flags_of(register));
    let is_written = flags.has_write_from(port);
    let is_read = flags.has_read_above(port);
    !(is_written || is_read)
}

/// What a read of a register at a port below `PORTS` sees: the value of the rule's last write at a port below, else
/// that of the scheduler log's, else the start value.
pub fn seen(rule: &Log, sched: &Log, start: Bits, port: u32, register: u32) -> Bits
    requires port { IsPort port }
    requires rule { register < registers rule.now }
    requires sched { register < registers sched.now }
    ensures { (widths : List ℕ) (rule_events sched_events : List Event) → StandsFor widths rule.now rule_events → StandsFor widths sched.now sched_events
        → result ≡ seen port register rule_events (seen port register sched_events start) }
{
    let register = register as usize;
    *rule.value_below(port, register, sched.value_below(port, register, &start))
}

// Where the value stands that was written at a port of a register.
fn value_index(port: u32, register: usize) -> usize
    requires port { IsPort port }
    requires register { register < 2 ^ 32 }
    ensures { result ≡ PORTS * register + port }
{
    PORTS as usize * register + port as usize
}

// Takes the flags of these registers away.
fn clear_flags(flags: &mut Reserved<PortFlags>, touched: &[u32])
    requires { All (λ register. register < length flags.old.items) touched.now }
    ensures length { length flags.new.items ≡ length flags.old.items }
    ensures capacity { flags.new.capacity ≡ flags.old.capacity }
    ensures cleared { (register : ℕ) → list_any (λ t. t == register) touched.now ≡ true → slice_index_or flags.new.items register (record { 0 = 0 }) ≡ record { 0 = 0 } }
    ensures kept { (register : ℕ) → list_any (λ t. t == register) touched.now ≡ false → slice_index_or flags.new.items register (record { 0 = 0 }) ≡ slice_index_or flags.old.items register (record { 0 = 0 }) }
{
    for register in touched {
        flags.set(*register as usize, PortFlags::NONE);
    }
}

// A list of that many items, all the same.
fn filled<T: Copy>(alloc: Global, item: T, count: usize) -> Result<Reserved<T>, NoMemory>
    ensures { IfOk result (λ list. list.items ≡ replicate count item) }
{
    let mut list = Reserved::with_capacity(alloc, count)?;
    for _ in 0..count {
        list.push(item);
    }
    Ok(list)
}
