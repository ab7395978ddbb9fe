ghost use Rattle.std.specs.Prelude.{◌≡◌, ◌≤◌, ◌<◌, ℕ, suc, length, OnOk};
ghost use Rattle.core_step_settles.specs.Ends.{end_at, Falls, IsKept, KeepsEnds, FindsEnd, IsBefore};

use rpc_msg::Memory;
use std::alloc::Global;
use std::marker::Model;

/// Of each capability of an outcome that stands, where the walk from it comes to, if to one that did not stand yet when it
/// was put in place: that one's index, which is a lower one. What nobody kept is none.
#[derive(Drop)]
pub(crate) struct Ends {
    ends: Vec<Option<usize>>,
}

impl Model for Ends {
    ghost use Rattle.std.specs.Prelude.{List, Option, ℕ};

    ghost Value = { List (Option ℕ) };

    ghost view = { λ a. a.ends.items };
}

impl Ends {
    ghost use Rattle.std.specs.Prelude.{[]};

    /// Nothing is kept. Takes no memory.
    pub(crate) fn new(alloc: Global) -> Self
        ensures { result ≡ [] }
    {
        Ends {
            ends: Vec::new(alloc),
        }
    }

    // Where the walk from that capability came to.
    fn at(&self, index: usize) -> Option<usize>
        ensures { result ≡ end_at self.now index }
    {
        match self.ends.get(index) {
            Some(end) => *end,
            None => None,
        }
    }

    /// Keeps where the walk from a capability came to. Takes no memory if that is none.
    pub(crate) fn keep(&mut self, index: usize, end: Option<usize>) -> Result<(), Memory>
        ensures { OnOk result (IsKept index end self.old self.new) }
    {
        if index >= self.ends.len() {
            if end.is_none() {
                return Ok(());
            }
            self.grow(index)?;
        }
        self.put(index, end);
        Ok(())
    }

    // Makes room for what is kept of the capabilities up to that one.
    fn grow(&mut self, index: usize) -> Result<(), Memory>
        ensures long { OnOk result (index < length self.new) }
        ensures same { OnOk result ((j : ℕ) → end_at self.new j ≡ end_at self.old j) }
    {
        while self.ends.len() <= index {
            let Ok(()) = self.ends.push(None) else {
                return Err(Memory);
            };
        }
        Ok(())
    }

    fn put(&mut self, index: usize, end: Option<usize>)
        requires { index < length self.old }
        ensures { IsKept index end self.old self.new }
    {
        self.ends[index] = end;
    }

    /// Where the walk from a field of that capability ends, if those behind `at` stand. If it was long, it is shorter
    /// from now on. Takes no memory.
    pub(crate) fn end_of(&mut self, at: usize, index: usize) -> Option<usize>
        requires { Falls self.old }
        ensures end { FindsEnd (suc at) self.old index result }
        ensures known { KeepsEnds (suc at) self.old self.new }
        ensures falls { Falls self.new }
    {
        let mut found = index;
        while found > at {
            let Some(further) = self.shorten(at, found) else {
                return None;
            };
            found = further;
        }
        Some(found)
    }

    // Where the walk from that capability came to. If that one stands, what is kept from now on is where the walk came to
    // from there.
    fn shorten(&mut self, at: usize, index: usize) -> Option<usize>
        requires falls { Falls self.old }
        requires stands { at < index }
        ensures end { result ≡ end_at self.old index }
        ensures before { IsBefore index result }
        ensures known { KeepsEnds (suc at) self.old self.new }
        ensures falls { Falls self.new }
    {
        let Some(further) = self.at(index) else {
            return None;
        };
        if further <= at {
            return Some(further);
        }
        let end = self.at(further);
        self.put(index, end);
        Some(further)
    }
}
