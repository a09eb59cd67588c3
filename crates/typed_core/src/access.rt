//! Core: accesses of registers, events and what they leave of registers, and which access cannot follow which.

ghost use Rattle.std.specs.Prelude.{◌≡◌, length};
ghost use Rattle.typed_core.specs.Alone.{after};
ghost use Rattle.typed_core.specs.Clash.{clashes};
ghost use Rattle.typed_core.specs.Fits.{AreOf};

use kw_bits::{Bits, Sequence};

/// A read or a write of a register at a port.
#[derive(Clone, Copy, Debug, PartialEq, Eq)]
pub struct Access {
    /// Whether it is a write.
    pub write: bool,
    /// The port, below `PORTS`.
    pub port: u32,
    /// The register's number.
    pub register: u32,
}

impl Access {
    /// Whether this access cannot follow an earlier one in a cycle.
    pub fn clashes_after(&self, earlier: &Access) -> bool
        ensures { result ≡ clashes self.now earlier.now }
    {
        self.register == earlier.register
            && match (self.write, earlier.write) {
                (false, false) => false,
                (true, false) => self.port < earlier.port,
                (false, true) | (true, true) => self.port <= earlier.port,
            }
    }
}

/// An access that a rule made, with the value that was read or written.
#[derive(Clone, Copy, Debug, PartialEq, Eq)]
pub struct Event {
    pub access: Access,
    pub value: Bits,
}

/// The events of a rule, in order.
pub type Events = Sequence<Event>;

/// Gives each register that was written the value of its last write.
pub fn apply(regs: &mut Sequence<Bits>, events: &Events)
    requires { AreOf (length regs.old) events.now }
    ensures { regs.new ≡ after events.now regs.old }
{
    for event in events.as_slice() {
        if event.access.write {
            regs.set(event.access.register as usize, event.value);
        }
    }
}
