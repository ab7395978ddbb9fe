ghost use Rattle.std.specs.Prelude.{◌≡◌};
ghost use Rattle.rpc_machine.specs.Queries.{has_no_numbers, has_no_tables, has_nothing_else, holds, is_new};
ghost use Rattle.core_store.specs.Holding.{state_of};

use crate::vat::Core;
use core_store::Store;
use rpc_msg::{RefId, Vat};

impl Core {
    /// Whether a call that was made through that reference of that vat is held or embargoed here. Takes no memory.
    pub fn holds(&self, vat: Vat, reference: RefId) -> bool
        ensures { result ≡ holds self.now (record { vat = vat; number = reference.0 }) }
    {
        self.machine.step.store.waits.holds(vat, reference)
    }

    /// Whether nothing is left between it and its peer: no question, answer, import or export. Takes no memory.
    pub fn shares_nothing(&self) -> bool
        ensures { result ≡ has_no_tables self.now }
    {
        has_no_tables(&self.machine.step.store)
    }

    /// Whether its state is that of a new core: no number was given, no table has an entry, and it is not down. Takes no
    /// memory.
    pub fn is_new(&self) -> bool
        ensures { result ≡ is_new self.now }
    {
        let store = &self.machine.step.store;
        has_no_numbers(store)
            && has_no_tables(store)
            && has_nothing_else(store)
            && store.down.is_none()
    }
}

// Whether no reference, call, task or promise of its application was numbered.
fn has_no_numbers(store: &Store) -> bool
    ensures { result ≡ has_no_numbers (state_of store.now) }
{
    store.next_ref == 0 && store.next_call == 0 && store.next_task == 0 && store.next_promise == 0
}

// Whether the tables that it shares with its peer are empty.
fn has_no_tables(store: &Store) -> bool
    ensures { result ≡ has_no_tables (state_of store.now) }
{
    store.questions.is_empty()
        && store.answers.len() == 0
        && store.imports.len() == 0
        && store.exports.is_empty()
}

// Whether the tables of its own are empty.
fn has_nothing_else(store: &Store) -> bool
    ensures { result ≡ has_nothing_else (state_of store.now) }
{
    store.refs.is_empty()
        && store.calls.is_empty()
        && store.tasks.is_empty()
        && store.unsettled.is_empty()
        && store.waits.promises() == 0
        && store.waits.outcomes() == 0
        && store.waits.embargoes() == 0
}
