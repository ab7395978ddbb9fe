ghost use Rattle.std.specs.Prelude.{◌≡◌, OnOk, OnErr, option_copied};
ghost use Rattle.std.specs.FinMap as map;

use rising_table::Rising;
use rpc_msg::{Items, Memory, RefId};
use std::alloc::Global;
use std::marker::Model;

/// The references that were handed over with tasks, or with the outcomes of calls: seen by contracts as lists by number.
#[derive(Drop)]
pub(crate) struct Handed {
    lists: Rising<Items<RefId>>,
}

impl Model for Handed {
    ghost use Rattle.std.specs.Prelude.{List};
    ghost use Rattle.std.specs.Ordering.{nat_cmp};
    ghost use Rattle.std.specs.FinMap as map;
    ghost use Rattle.rpc_msg.specs.declared.ids.RefId.{RefId};
    ghost use Rattle.rpc_msg.specs.contracts.ids.RefId as ref;
    ghost use Rattle.std.specs.Coded.{coded_ℕ, coded_list};

    ghost Value = { map.FinMap nat_cmp (List RefId) };

    ghost coded = { map.code coded_ℕ (coded_list ref.the_row.coded) };

    ghost view = { λ a. a.lists.entries };
}

impl Handed {
    /// Nothing was handed over. Takes no memory.
    pub(crate) fn new(alloc: Global) -> Self
        ensures { result ≡ map.empty }
    {
        Handed {
            lists: Rising::new(alloc),
        }
    }

    /// What was handed over under that number. Takes no memory.
    pub(crate) fn get(&self, number: u64) -> Option<&Items<RefId>>
        ensures { option_copied result ≡ map.get self.now number }
    {
        self.lists.get(number)
    }

    /// Notes what was handed over under that number. `Memory` if a growth was refused; nothing is changed then.
    pub(crate) fn put(&mut self, number: u64, refs: Items<RefId>) -> Result<(), Memory>
        ensures ok { OnOk result (self.new ≡ map.insert self.old number refs) }
        ensures err { OnErr result (self.new ≡ self.old) }
    {
        if let Some(place) = self.lists.get_mut(number) {
            *place = refs;
            return Ok(());
        }
        match self.lists.add(number, refs) {
            Ok(()) => return Ok(()),
            Err(_) => return Err(Memory),
        }
    }
}
