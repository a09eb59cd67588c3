//! A board that keeps lists of whole attempts, and looks through all of them each time.

use attempt_log::{Attempt, Taken};
use kw_bits::{Bits, NoMemory};
use one_rule::first_values;
use std::alloc::Global;
use std::process::Abort;
use typed_core::{Access, Design, Event, Next, Node, Outcome};

/// An answer with its rule, and of a stale read its register, its port and its values.
#[derive(Clone, Copy, Debug, PartialEq, Eq)]
pub(crate) enum Told {
    Committed(u32),
    Skipped(u32),
    Stale(u32, u32, u32, u128, u128),
    Closed,
    Waiting(u32),
    Finished,
}

/// An attempt: its cycle and rule, and what the rule did.
#[derive(Drop)]
pub(crate) struct Kept {
    cycle: u32,
    rule: u32,
    events: Vec<Event>,
    is_done: bool,
}

impl Kept {
    pub(crate) fn of(alloc: Global, made: &Attempt) -> Result<Kept, NoMemory> {
        Ok(Kept {
            cycle: made.cycle(),
            rule: made.rule(),
            events: Vec::from_slice(alloc, made.events().as_slice())?,
            is_done: *made.outcome() == Outcome::Done,
        })
    }

    // Whether an access can't follow those of this attempt.
    fn refuses(&self, access: Access) -> bool {
        self.events.iter().any(|event| access.register == event.access.register
            && clash(access, event.access))
    }
}

// A read sees what was written below its port, and a write is seen above its port alone.
fn clash(later: Access, earlier: Access) -> bool {
    if earlier.write {
        later.port <= earlier.port
    } else {
        later.write && later.port < earlier.port
    }
}

#[derive(Drop)]
pub(crate) struct SlowBoard {
    nodes: Vec<Node>,
    last: u32,
    window: u32,
    cycle: u32,
    head: usize,
    regs: Vec<Bits>,
    fired: Vec<Kept>,
    settled: Vec<u32>,
    slots: Vec<Kept>,
}

impl SlowBoard {
    pub(crate) fn begin(
        alloc: Global,
        design: &Design,
        last: u32,
        window: u32,
    ) -> Result<SlowBoard, NoMemory> {
        Ok(SlowBoard {
            nodes: Vec::from_slice(alloc, design.nodes.as_slice())?,
            last,
            window,
            cycle: 1,
            head: 0,
            regs: Vec::from_slice(alloc, first_values(alloc, design)?.as_slice())?,
            fired: Vec::new(alloc),
            settled: Vec::new(alloc),
            slots: Vec::new(alloc),
        })
    }

    pub(crate) fn regs(&self) -> &[Bits] {
        self.regs.as_slice()
    }

    // Where the attempt at a rule in a cycle stands.
    fn slot(&self, cycle: u32, rule: u32) -> Option<usize> {
        self.slots
            .iter()
            .position(|slot| slot.cycle == cycle && slot.rule == rule)
    }

    pub(crate) fn submit(&mut self, made: Kept) -> Result<Taken, NoMemory> {
        let (cycle, rule) = (made.cycle, made.rule);
        if cycle < self.cycle || cycle == self.cycle && self.settled.contains(&rule) {
            return Ok(Taken::Late);
        }
        if self.cycle.saturating_add(self.window) <= cycle || self.last < cycle {
            return Ok(Taken::Ahead);
        }
        if self.slot(cycle, rule).is_some() {
            return Ok(Taken::Twice);
        }
        self.slots.push(made)?;
        Ok(Taken::Stored)
    }

    pub(crate) fn settle(&mut self, rt: &impl Abort) -> Result<Told, NoMemory> {
        if self.last < self.cycle {
            return Ok(Told::Finished);
        }
        if self.head == self.nodes.len() {
            self.close();
            return Ok(Told::Closed);
        }
        assert!(rt; self.head < self.nodes.len());
        let node = self.nodes[self.head];
        match self.slot(self.cycle, node.rule) {
            None => Ok(Told::Waiting(node.rule)),
            Some(at) => {
                assert!(rt; at < self.slots.len());
                let made = self.slots.remove(at);
                self.judge(rt, node, made)
            }
        }
    }

    // The next cycle begins.
    fn close(&mut self) {
        self.cycle = self.cycle.saturating_add(1);
        self.head = 0;
        self.fired.clear();
        self.settled.clear();
    }

    fn judge(&mut self, rt: &impl Abort, node: Node, made: Kept) -> Result<Told, NoMemory> {
        let told = self.decision(rt, &made);
        match told {
            Told::Committed(_) => {
                self.write(rt, &made);
                self.fired.push(made)?;
                self.go_on(node.rule, node.yes)?;
            }
            Told::Skipped(_) => self.go_on(node.rule, node.no)?,
            _ => {}
        }
        Ok(told)
    }

    // The rule is settled, and the walk goes on, or comes after the last node.
    fn go_on(&mut self, rule: u32, next: Next) -> Result<(), NoMemory> {
        self.settled.push(rule)?;
        self.head = match next {
            Next::Node(number) => number as usize,
            Next::End => self.nodes.len(),
        };
        Ok(())
    }

    fn write(&mut self, rt: &impl Abort, made: &Kept) {
        for event in &made.events {
            if event.access.write {
                let register = event.access.register as usize;
                assert!(rt; register < self.regs.len());
                self.regs[register] = event.value;
            }
        }
    }

    // What the first event decides that decides, and else the end of the rule.
    fn decision(&self, rt: &impl Abort, made: &Kept) -> Told {
        for (number, event) in made.events.iter().enumerate() {
            let access = event.access;
            if self.fired.iter().any(|fired| fired.refuses(access)) {
                return Told::Skipped(made.rule);
            }
            let now = self.seen(rt, made, number, access);
            if !access.write && event.value != now {
                let (register, port) = (access.register, access.port);
                return Told::Stale(
                    made.rule,
                    register,
                    port,
                    event.value.number(),
                    now.number(),
                );
            }
        }
        if made.is_done {
            Told::Committed(made.rule)
        } else {
            Told::Skipped(made.rule)
        }
    }

    // What a read would see now, after that many events of its own attempt.
    fn seen(&self, rt: &impl Abort, made: &Kept, before: usize, access: Access) -> Bits {
        let register = access.register as usize;
        assert!(rt; register < self.regs.len());
        let mut value = self.regs[register];
        for event in made.events.iter().take(before) {
            let other = event.access;
            if other.write && other.register == access.register && other.port < access.port {
                value = event.value;
            }
        }
        value
    }
}
