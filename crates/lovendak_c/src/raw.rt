// A desk that C keeps, as its address.
ghost use Rattle.std.specs.Prelude.{◌≡◌, Option, Some, None, true};
ghost use Rattle.lovendak_c_desk.specs.declared.desk.Desk.{Desk as DeskState};
ghost use Rattle.std.specs.Coded.{coded_option};
ghost use Rattle.lovendak_c_desk.specs.contracts.desk.Desk as desk_row;
ghost use Rattle.lovendak_c.specs.Held.{is_there};

use lovendak_c_box::Loose;
use lovendak_c_desk::Desk;
use std::alloc::Global;
use std::marker::Model;

/// The address of a desk, or of none.
#[repr(C)]
#[derive(Drop)]
pub struct Raw {
    at: *mut u8,
    pub ghost desk: { Option DeskState } by { coded_option desk_row.the_row.coded },
}

impl Model for Raw {
    ghost use Rattle.lovendak_c.specs.Held.{held};

    ghost also_owns = { λ r. held r.at r.desk };
}

impl Raw {
    /// None.
    pub fn none() -> Raw
        ensures { result.desk ≡ None }
    {
        Raw {
            at: std::ptr::null_mut(),
        }
    }

    /// The address of this desk, which is owned by whoever has it.
    pub fn of(desk: Loose<Desk, Global>) -> Raw
        ensures { result.desk ≡ Some desk.value }
    {
        let Loose { at, alloc: _ } = desk;
        Raw { at: at as *mut u8 }
    }

    /// The desk that is there.
    pub fn into_loose(self, alloc: Global) -> Loose<Desk, Global>
        requires { is_there self.desk ≡ true }
        ensures { self.desk ≡ Some result.value }
    {
        let Raw { at } = self;
        Loose {
            at: at as *mut Desk,
            alloc,
        }
    }
}

// Another thread may have it, in turn: C orders that, and gives a handle to one call at a time.
unsafe impl Send for Raw {}
