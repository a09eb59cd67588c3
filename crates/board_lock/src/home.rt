//! The board in the lock's slot.
ghost use Rattle.std.specs.Prelude.{◌≡◌, IfOk};

use board_core::Core;
use kw_bits::NoMemory;
use std::alloc::Global;
use std::marker::Model;

/// A board in a box, so that a pointer alone moves between the slot and the seat whose turn it is. Contracts see the
/// board.
#[derive(Drop)]
pub struct Home {
    core: Box<Core>,
}

impl Model for Home {
    ghost use Rattle.std.specs.Coded.{codes};
    ghost use Rattle.typed_core.specs.contracts.action.Action as action;
    ghost use Rattle.board_core.specs.Kept.{Kept};

    ghost Value = { Kept };

    ghost coded = { Prim.hlevel (codes, action.the_row.coded) };

    ghost view = { λ h. h.core.value };
}

impl Home {
    pub(crate) fn boxed(alloc: Global, core: Core) -> Result<Home, NoMemory>
        ensures { IfOk result (λ h. h ≡ core) }
    {
        let Ok(core) = Box::new(alloc, core) else {
            return Err(NoMemory);
        };
        Ok(Home { core })
    }

    pub(crate) fn new(core: Box<Core>) -> Home
        ensures { result ≡ core.value }
    {
        Home { core }
    }

    pub(crate) fn into_core(self) -> Box<Core>
        ensures { result.value ≡ self }
    {
        self.core
    }
}
