ghost use Rattle.std.specs.Prelude.{◌≡◌, ◌&&◌, not, is_some};
ghost use Rattle.std.specs.FinMap as map;
ghost use Rattle.rpc_uses.specs.Objects.{named_objects, names_object};
ghost use Rattle.rpc_uses.specs.Results.{cancelled};
ghost use Rattle.core_queries.specs.Peers.{names_import, names_question};
ghost use Rattle.core_queries.specs.Places.{embargoed_reference, import_kind, leads_to};
ghost use Rattle.core_queries.specs.Tasks.{task_caller};
ghost use Rattle.core_queries.specs.Sizes.{sizes_of};

use crate::vat::Core;
use core_queries::{ImportKind, Place, TableSizes};
use rpc_machine::{Caller, Refusal};
use rpc_msg::{EmbargoId, ExportId, ObjectId, QuestionId, RefId, TaskId};

impl Core {
    /// Whether a place of the vat names the object of its application. To an object that none names, and that is not the
    /// bootstrap object, no call is delivered until it is hosted again (docs/laws/released.md). Constant work; takes no memory.
    pub fn names_object(&self, object: ObjectId) -> bool
        ensures { result ≡ names_object self.now object }
    {
        core_queries::names_object(&self.machine.step.store, object)
    }

    /// Its bootstrap object, if it has one. Takes no memory.
    pub fn bootstrap_object(&self) -> Option<ObjectId>
        ensures { result ≡ self.now.bootstrap }
    {
        self.machine.step.store.bootstrap
    }

    /// How many objects of its application are named, each counted once. Who knows each object that is named, and no more
    /// objects than these, knows none that is not named (`objects_are_named_by_number` of `rpc_uses`). Constant work; takes
    /// no memory.
    pub fn named_objects(&self) -> usize
        ensures { result ≡ named_objects self.now }
    {
        core_queries::named_objects(&self.machine.step.store)
    }

    /// Takes out an object that lost its last name, perhaps, since it was asked last. This is a hint and no promise: the object
    /// may be named again, and objects may be missing, for example if nobody asks for a long time. Ask until there is none, and
    /// ask `names_object` of each: that finds most of what went, with no search. `named_objects` tells whether any was missed.
    /// Constant work; takes no memory.
    pub fn noted_object(&mut self) -> Option<ObjectId>
        ensures { self.new ≡ self.old }
    {
        core_queries::take_lost_object(&mut self.machine.step.store)
    }

    /// Whether the task is not answered yet and somebody has use for its results: who made the call, a call that waits for
    /// them, or a place that names a field of them. If nobody has, the task is still to be answered or failed, since a Return is
    /// owed; what it is answered with goes nowhere. Constant work; takes no memory.
    pub fn wants_results(&self, task: TaskId) -> bool
        ensures { result ≡ (is_some (map.get self.now.tasks task.0) && not (cancelled self.now task)) }
    {
        core_queries::wants_results(&self.machine.step.store, task)
    }

    /// Whether the task is not answered yet and nobody has use for its results: the other answer of `wants_results`, for a task that
    /// is not answered. Constant work; takes no memory.
    pub fn is_cancelled(&self, task: TaskId) -> bool
        ensures { result ≡ cancelled self.now task }
    {
        core_queries::is_cancelled(&self.machine.step.store, task)
    }

    /// Who made the call that the task is: the application, or the peer by a question. `None` if the task is answered, or failed,
    /// or never was. Constant work; takes no memory.
    pub fn task_caller(&self, task: TaskId) -> Option<Caller>
        ensures { result ≡ task_caller self.now task }
    {
        core_queries::task_caller(&self.machine.step.store, task)
    }

    /// Where calls through a reference go, which is where its head settles; and whether they wait under an embargo before.
    /// `Down` if the vat is down, else `UnknownRef` if there is no such reference. The work grows with the links on the way; it
    /// is constant once a call or an `advance` passed them, since these make the way short. Takes no memory.
    pub fn leads_to(&self, reference: RefId) -> Result<(Place, bool), Refusal>
        ensures { result ≡ leads_to self.now reference }
    {
        core_queries::leads_to(&self.machine.step.store, reference)
    }

    /// What the peer exports by that id, if there is such an import. Takes no memory.
    pub fn import_kind(&self, id: ExportId) -> Option<ImportKind>
        ensures { result ≡ import_kind (map.get self.now.imports id.0) }
    {
        core_queries::import_kind(&self.machine.step.store, id)
    }

    /// Whether a place of the vat names what the peer exports by that id. If none does, no reference leads to it. Constant
    /// work; takes no memory.
    pub fn names_import(&self, id: ExportId) -> bool
        ensures { result ≡ names_import self.now id }
    {
        core_queries::names_import(&self.machine.step.store, id)
    }

    /// Whether a place of the vat names anything of the results of a question to the peer. If none does, no reference leads
    /// there. Constant work; takes no memory.
    pub fn names_question(&self, id: QuestionId) -> bool
        ensures { result ≡ names_question self.now id }
    {
        core_queries::names_question(&self.machine.step.store, id)
    }

    /// The reference whose calls wait under the embargo, if there is such an embargo: its calls go on once the peer's
    /// Disembargo of that id comes back. Constant work; takes no memory.
    pub fn embargoed_reference(&self, id: EmbargoId) -> Option<RefId>
        ensures { result ≡ embargoed_reference (map.get self.now.embargoes id.0) }
    {
        core_queries::embargoed_reference(&self.machine.step.store, id)
    }

    /// How many questions, answers, exports and imports there are. Constant work; takes no memory.
    pub fn table_sizes(&self) -> TableSizes
        ensures { result ≡ sizes_of self.now }
    {
        core_queries::sizes_of(&self.machine.step.store)
    }
}
