//! Engines: the ports at which a register was read and written, as bits of a byte.

ghost use Rattle.std.specs.Prelude.{◌≡◌, ◌+◌, ◌<◌, ◌≤◌, ◌↔◌, ℕ, Bool, true, false, ◌||◌, ◌==◌, MatchOption};
ghost use Rattle.typed_core.specs.Valid.{IsPort};
ghost use Rattle.typed_core.specs.declared.limits.TheConstants.{PORTS};
ghost use Rattle.rule_log.specs.Flags.{has, is_some, place};

use bitflags::{Flag, Flags, bitflag_items};
use typed_core::limits::PORTS;

/// The ports at which a register was read, and those at which it was written.
#[derive(Clone, Copy, Debug, PartialEq, Eq)]
pub struct PortFlags(u8);

bitflag_items! {
    impl PortFlags: u8 {
        const READ0 = 1;
        const READ1 = 2;
        const READ2 = 4;
        const READ3 = 8;
        const WRITE0 = 16;
        const WRITE1 = 32;
        const WRITE2 = 64;
        const WRITE3 = 128;
    }
}

impl Flags for PortFlags {
    ghost use Rattle.std.specs.Prelude.{⊤, [], ◌∷◌, codes};

    type Bits = u8;

    ghost exact = { ⊤ };

    ghost table = { (codes "READ0", 1) ∷ (codes "READ1", 2) ∷ (codes "READ2", 4) ∷ (codes "READ3", 8) ∷ (codes "WRITE0", 16) ∷ (codes "WRITE1", 32) ∷ (codes "WRITE2", 64) ∷ (codes "WRITE3", 128) ∷ [] };

    ghost set_of = { λ p. p.0 };

    fn flags<'a>() -> &'a [Flag<PortFlags>] {
        PortFlags::FLAGS
    }

    fn bits(&self) -> u8 {
        self.0
    }

    fn from_bits_retain(bits: u8) -> PortFlags {
        PortFlags(bits)
    }
}

impl PortFlags {
    /// No port.
    pub const NONE: PortFlags = PortFlags(0);

    /// The flag of one access at a port below `PORTS`.
    pub fn of(write: bool, port: u32) -> PortFlags
        requires { IsPort port }
        ensures { (kind : Bool) (at : ℕ) → IsPort at → has result kind at ≡ (place kind at == place write port) }
    {
        let place = if write { PORTS + port } else { port };
        PortFlags(1 << place)
    }

    /// The flags of both.
    pub fn and_also(self, other: PortFlags) -> PortFlags
        ensures flags { (write : Bool) (port : ℕ) → has result write port ≡ (has self write port || has other write port) }
        ensures some { is_some self ≡ true → is_some result ≡ true }
    {
        self.union(other)
    }

    /// Whether there is a write at this port, which is below `PORTS`.
    pub fn has_write(self, port: u32) -> bool
        requires { IsPort port }
        ensures { result ≡ has self true port }
    {
        (self.0 >> (PORTS + port)) % 2 == 1
    }

    /// Whether there is a write at this port or above, which is below `PORTS`.
    pub fn has_write_from(self, port: u32) -> bool
        requires { IsPort port }
        ensures { (result ≡ false) ↔ ((at : ℕ) → port ≤ at → IsPort at → has self true at ≡ false) }
    {
        self.0 >> (PORTS + port) != 0
    }

    /// Whether there is a read at a port above this one, which is below `PORTS`.
    pub fn has_read_above(self, port: u32) -> bool
        requires { IsPort port }
        ensures { (result ≡ false) ↔ ((at : ℕ) → port < at → IsPort at → has self false at ≡ false) }
    {
        (self.0 % (1 << PORTS)) >> (port + 1) != 0
    }

    /// The highest port below this one, at most `PORTS`, at which there is a write.
    pub fn highest_write_below(self, port: u32) -> Option<u32>
        requires { port ≤ PORTS }
        ensures below { MatchOption result ((at : ℕ) → at < port → has self true at ≡ false) (λ top. (top < port) × (has self true top ≡ true)) }
        ensures highest { MatchOption result ((at : ℕ) → at < port → has self true at ≡ false) (λ top. (at : ℕ) → top < at → at < port → has self true at ≡ false) }
    {
        let writes = (self.0 >> PORTS) % (1 << port);
        if writes == 0 {
            None
        } else {
            Some(writes.ilog2())
        }
    }
}
