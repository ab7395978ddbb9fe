ghost use Rattle.std.specs.Prelude.{◌≡◌, ◌++◌, [], ◌∷◌, ℕ, cond, nat_eq, OnOk, Some, None, IsTrue};
ghost use Rattle.std.specs.BTreeMap.{get};
ghost use Rattle.std.specs.Ordering.{nat_cmp};
ghost use Rattle.rpc_check.specs.Kept.{line_at, with_made, takes, taken};

use rpc_msg::{Memory, ObjectId, Vat};
use std::alloc::Global;
use std::collections::{BTreeMap, VecDeque};

/// Where a call was delivered.
#[derive(Clone, Copy, PartialEq, Eq, Drop)]
pub(crate) struct Place {
    pub(crate) vat: Vat,
    pub(crate) object: ObjectId,
}

/// What is known of a reference: the indices of its calls that were made and not delivered, in order, and the place of
/// its first delivery.
#[derive(Drop)]
pub(crate) struct Line {
    pub(crate) waiting: VecDeque<u64>,
    pub(crate) place: Option<Place>,
}

/// The references of a vat through which calls were made, by their numbers.
#[derive(Drop)]
pub(crate) struct Lines {
    pub(crate) by_number: BTreeMap<u64, Line>,
}

impl Lines {
    pub(crate) fn new(alloc: Global) -> Self
        ensures { (q : ℕ) → line_at result q ≡ record { waiting = []; place = None } }
    {
        Lines {
            by_number: BTreeMap::new(alloc),
        }
    }

    /// A call was made. After a refusal nothing is known of the rest.
    pub(crate) fn make(&mut self, alloc: Global, number: u64, index: u64) -> Result<(), Memory>
        ensures { OnOk result ((q : ℕ) → line_at self.new q ≡ cond (nat_eq q number) (with_made (line_at self.old q) index) (line_at self.old q)) }
    {
        if let Some(line) = self.by_number.get_mut(&number) {
            line.waiting.push_back(index)?;
            return Ok(());
        }
        self.make_first(alloc, number, index)
    }

    fn make_first(&mut self, alloc: Global, number: u64, index: u64) -> Result<(), Memory>
        requires { get nat_cmp self.old.by_number number ≡ None }
        ensures { OnOk result ((q : ℕ) → line_at self.new q ≡ cond (nat_eq q number) (with_made (line_at self.old q) index) (line_at self.old q)) }
    {
        let mut line = Line {
            waiting: VecDeque::new(alloc),
            place: None,
        };
        line.waiting.push_back(index)?;
        self.by_number.insert(number, line)?;
        Ok(())
    }

    /// A call was delivered; whether it was the next one, and at its reference's place. If not, nothing is known of the
    /// rest.
    pub(crate) fn deliver(&mut self, number: u64, index: u64, place: Place) -> bool
        ensures fits { result ≡ takes (line_at self.old number) index place }
        ensures taken { IsTrue result → (q : ℕ) → line_at self.new q ≡ cond (nat_eq q number) (taken (line_at self.old q) place) (line_at self.old q) }
    {
        let Some(line) = self.by_number.get_mut(&number) else {
            return false;
        };
        let Some(next) = line.waiting.pop_front() else {
            return false;
        };
        let fits = match line.place {
            Some(first) => first == place,
            None => true,
        };
        line.place = Some(place);
        index == next && fits
    }
}
