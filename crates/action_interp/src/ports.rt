//! Engines: the ports of a rule that runs after a scheduler log.

ghost use Rattle.std.specs.Prelude.{◌≡◌, length};
ghost use Rattle.rule_log.specs.StandsFor.{registers};
ghost use Rattle.action_interp.specs.inner.ByLog.{IsRunning, ports_by, widths_of};

use kw_bits::Bits;
use one_rule::{Interrupt, Ports, Regs};
use rule_log::{Log, may_read, may_write, seen};
use typed_core::{Access, Event, Stopped};

/// The ports of a rule that runs after a scheduler log, in a cycle that began on these registers, and its own log.
#[derive(Drop)]
pub(crate) struct RulePorts<'a> {
    pub(crate) regs: &'a Regs,
    pub(crate) sched: &'a Log,
    pub(crate) log: Box<Log>,
    ghost sched_fits: { registers sched.now ≡ length regs.now },
    ghost log_fits: { registers log.value ≡ length regs.now },
}

impl Ports for RulePorts<'_> {
    ghost stands_for = { λ ports events. IsRunning ports.regs.now ports.sched.now ports.log.value events };

    ghost reading = { λ ports. ports_by ports.sched.now ports.regs.now };

    ghost widths = { λ ports. widths_of ports.regs.now };

    fn read(&mut self, port: u32, register: u32) -> Result<Bits, Interrupt> {
        let access = Access {
            write: false,
            port,
            register,
        };
        if !may_read(self.sched, port, register) {
            return Err(Interrupt::Stop(Stopped::Refused(access)));
        }
        let start = self.regs.get(register as usize);
        let value = seen(&self.log, self.sched, *start, port, register);
        self.log.note(Event { access, value });
        Ok(value)
    }

    fn write(&mut self, port: u32, register: u32, value: Bits) -> Result<(), Interrupt> {
        let access = Access {
            write: true,
            port,
            register,
        };
        if !may_write(&self.log, self.sched, port, register) {
            return Err(Interrupt::Stop(Stopped::Refused(access)));
        }
        // It is a bit vector of this width, as a log's values are.
        let _width = value.width();
        self.log.note(Event { access, value });
        Ok(())
    }
}
