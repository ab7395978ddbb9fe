// A handle, which C keeps.
ghost use Rattle.std.specs.Prelude.{◌≡◌, ◌==◌, Some, None, MatchOption};
ghost use Rattle.lovendak_c.specs.Held.{is_there};
ghost use Rattle.lovendak_c.specs.declared.handle.TheConstants.{MAGIC};

use crate::raw::Raw;
use lovendak_c_box::Loose;
use lovendak_c_desk::Desk;
use std::alloc::Global;
use std::mem;

/// What stands in a handle that has a vat, and not by chance in memory that nobody wrote.
const MAGIC: u32 = 0x4c6f_7665;

/// A vat with its desk; or none, if the magic number does not stand in it: only if it does is the address followed. C
/// keeps it, and neither changes nor copies it.
#[repr(C)]
#[derive(Drop)]
pub struct Handle {
    magic: u32,
    pub raw: Raw,
    pub ghost agrees: { (magic == MAGIC) ≡ is_there raw.desk },
}

impl Handle {
    /// An empty one.
    pub fn none() -> Handle
        ensures { result.raw.desk ≡ None }
    {
        Handle {
            magic: 0,
            raw: Raw::none(),
        }
    }

    /// One that has this desk.
    pub fn of(desk: Box<Desk>) -> Handle
        ensures { result.raw.desk ≡ Some desk.value }
    {
        Handle {
            magic: MAGIC,
            raw: Raw::of(Loose::of(desk)),
        }
    }

    /// Takes the desk out, if it has one.
    pub fn take(&mut self, alloc: Global) -> Option<Box<Desk>>
        ensures taken { MatchOption result (self.old.raw.desk ≡ None) (λ desk. self.old.raw.desk ≡ Some desk.value) }
        ensures left { self.new.raw.desk ≡ None }
    {
        let Handle { magic, raw } = mem::replace(self, Handle::none());
        if magic != MAGIC {
            return None;
        }
        Some(raw.into_loose(alloc).into_box())
    }

    /// Whether it has one.
    pub fn is_full(&self) -> bool
        ensures { result ≡ is_there self.now.raw.desk }
    {
        self.magic == MAGIC
    }
}
