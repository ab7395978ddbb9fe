ghost use Rattle.std.specs.Prelude.{◌≡◌, ◌+◌, ◌-◌, ◌*◌, ℕ, cond, nat_eq, OnOk, IfOk};
ghost use Rattle.rpc_check.specs.Counts.{count_of};
ghost use Rattle.rpc_check.specs.Kept.{amount};

use rpc_msg::{ExportId, Memory};
use std::alloc::Global;
use std::collections::BTreeMap;

/// Amounts by id. An id that has none takes no memory.
#[derive(Drop)]
pub(crate) struct Amounts {
    pub(crate) by_id: BTreeMap<u32, u64>,
}

impl Amounts {
    pub(crate) fn new(alloc: Global) -> Self
        ensures { (e : ℕ) → amount result e ≡ 0 }
    {
        Amounts {
            by_id: BTreeMap::new(alloc),
        }
    }

    pub(crate) fn of(&self, id: ExportId) -> u64
        ensures { result ≡ amount self.now id.0 }
    {
        match self.by_id.get(&id.0) {
            Some(amount) => *amount,
            None => 0,
        }
    }

    pub(crate) fn add(&mut self, id: ExportId, more: u64) -> Result<(), Memory>
        ensures { OnOk result ((e : ℕ) → amount self.new e ≡ amount self.old e + cond (nat_eq e id.0) more 0) }
    {
        if more == 0 {
            return Ok(());
        }
        let Some(sum) = self.of(id).checked_add(more) else {
            return Err(Memory);
        };
        self.by_id.insert(id.0, sum)?;
        Ok(())
    }

    pub(crate) fn take(&mut self, id: ExportId, less: u64)
        ensures { (e : ℕ) → amount self.new e ≡ amount self.old e - cond (nat_eq e id.0) less 0 }
    {
        let Some(amount) = self.by_id.get_mut(&id.0) else {
            return;
        };
        *amount = amount.saturating_sub(less);
        if *amount == 0 {
            self.by_id.remove(&id.0);
        }
    }

    /// Adds all these counts. After a refusal nothing is known of the amounts.
    pub(crate) fn add_all(&mut self, counts: &[(ExportId, u32)]) -> Result<(), Memory>
        ensures { OnOk result ((e : ℕ) → amount self.new e ≡ amount self.old e + count_of e counts.now) }
    {
        for (id, count) in counts {
            self.add(*id, u64::from(*count))?;
        }
        Ok(())
    }

    pub(crate) fn of_all(alloc: Global, counts: &[(ExportId, u32)]) -> Result<Self, Memory>
        ensures { IfOk result (λ amounts. (e : ℕ) → amount amounts e ≡ count_of e counts.now) }
    {
        let mut amounts = Amounts::new(alloc);
        amounts.add_all(counts)?;
        Ok(amounts)
    }

    /// Takes all these counts away; no amount goes below 0.
    pub(crate) fn take_all(&mut self, counts: &[(ExportId, u32)])
        ensures { (e : ℕ) → amount self.new e ≡ amount self.old e - count_of e counts.now }
    {
        for (id, count) in counts {
            self.take(*id, u64::from(*count));
        }
    }

    /// Adds all these counts so many times. After a refusal nothing is known of the amounts.
    pub(crate) fn add_times(&mut self, counts: &[(ExportId, u32)], times: u64) -> Result<(), Memory>
        ensures { OnOk result ((e : ℕ) → amount self.new e ≡ amount self.old e + times * count_of e counts.now) }
    {
        if times == 0 {
            return Ok(());
        }
        for (id, count) in counts {
            let Some(more) = times.checked_mul(u64::from(*count)) else {
                return Err(Memory);
            };
            self.add(*id, more)?;
        }
        Ok(())
    }

    /// Takes all these counts away so many times; no amount goes below 0. After a refusal nothing is known of the amounts.
    pub(crate) fn take_times(
        &mut self,
        counts: &[(ExportId, u32)],
        times: u64,
    ) -> Result<(), Memory>
        ensures { OnOk result ((e : ℕ) → amount self.new e ≡ amount self.old e - times * count_of e counts.now) }
    {
        if times == 0 {
            return Ok(());
        }
        for (id, count) in counts {
            let Some(less) = times.checked_mul(u64::from(*count)) else {
                return Err(Memory);
            };
            self.take(*id, less);
        }
        Ok(())
    }
}
