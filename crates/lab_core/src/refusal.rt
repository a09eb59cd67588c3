//! The lab: refusals as a table finds them.

ghost use Rattle.std.specs.Prelude.{◌≡◌, ◌<◌, Some, None, IfSome};
ghost use Rattle.lab_core.specs.inner.Counting.{access_at, cause_at, refusal_if};

use attempt_log::Cause;
use typed_core::Access;

/// An access, found by hash.
#[derive(Clone, Copy, PartialEq, Eq, Hash)]
pub(crate) struct Place {
    write: bool,
    port: u32,
    register: u32,
}

/// A refusal by an own access or by one of an earlier rule, found by hash.
#[derive(Clone, Copy, PartialEq, Eq, Hash)]
pub(crate) enum Refusal {
    Own(Place),
    Clash(Place, u32, Place),
}

/// How often a refusal came, and in which cycle first.
#[derive(Clone, Copy)]
pub(crate) struct Seen {
    pub(crate) count: u32,
    pub(crate) first: u32,
}

impl Refusal {
    /// The refusal of a cause, if it is one.
    pub(crate) fn of(cause: &Cause) -> Option<Refusal>
        ensures { result ≡ refusal_if cause.now }
    {
        match cause {
            Cause::Abort => None,
            Cause::OwnClash(access) => Some(Refusal::Own(Place::of(access))),
            Cause::Clash {
                access,
                rule,
                earlier,
            } => Some(Refusal::Clash(Place::of(access), *rule, Place::of(earlier))),
        }
    }

    /// The cause again.
    pub(crate) fn cause(&self) -> Cause
        ensures { result ≡ cause_at self.now }
    {
        match self {
            Refusal::Own(place) => Cause::OwnClash(place.access()),
            Refusal::Clash(place, rule, earlier) => Cause::Clash {
                access: place.access(),
                rule: *rule,
                earlier: earlier.access(),
            },
        }
    }
}

impl Place {
    fn of(access: &Access) -> Place
        ensures { access_at result ≡ access.now }
    {
        Place {
            write: access.write,
            port: access.port,
            register: access.register,
        }
    }

    fn access(&self) -> Access
        ensures { result ≡ access_at self.now }
    {
        Access {
            write: self.write,
            port: self.port,
            register: self.register,
        }
    }
}
