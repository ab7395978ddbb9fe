ghost use Rattle.std.specs.Prelude.{◌≡◌, ◌==◌, ◌↔◌, ◌+◌, ◌^◌, ◌<◌, ℕ, length, IsOk, IsTrue, OnOk, OnErr};
ghost use Rattle.std.specs.FinMap as map;

use crate::counter::Counter;
use crate::object_counts::ObjectCounts;
use rpc_machine::Node;
use rpc_msg::{ExportId, Memory, ObjectId, QuestionId};
use std::alloc::Global;
use std::marker::Model;

/// How many places of a vat name each of its promises, outcomes, imports, questions and objects; and which of these, objects
/// apart, are noted: those that were named last by a place that went, and those that were noted besides. So what may have to
/// go is found with no search.
#[derive(Drop)]
pub struct Names {
    promises: Counter,
    outcomes: Counter,
    imports: Counter,
    questions: Counter,
    objects: ObjectCounts,
}

impl Model for Names {
    ghost use Rattle.core_refcounts.specs.Names.{Names, names_code, HasIds};

    ghost Value = { Names };

    ghost coded = { names_code };

    ghost view = { λ a. record { promises = a.promises; outcomes = a.outcomes; imports = a.imports; questions = a.questions; objects = a.objects } };

    ghost invariant = { λ a. HasIds a.imports.noted × HasIds a.questions.noted };
}

impl Names {
    ghost use Rattle.core_refcounts.specs.Names.{no_names, times, times_named, named, unnamed, named_all, unnamed_all, noting, Takes, HasRoom, HasSpare, CanCount, all_roomier, all_with_rooms, export_key, question_key, HasIds, HasNoZeros};

    /// Counts nothing. Takes no memory.
    pub fn new(alloc: Global) -> Self
        ensures { result ≡ no_names }
    {
        Names {
            promises: Counter::new(alloc),
            outcomes: Counter::new(alloc),
            imports: Counter::new(alloc),
            questions: Counter::new(alloc),
            objects: ObjectCounts::new(alloc),
        }
    }

    /// How many places name the promise. Takes no memory, as do the next seven.
    pub fn of_promise(&self, key: u64) -> u64
        ensures { result ≡ times self.now.promises.counts key }
    {
        self.promises.count(key)
    }

    /// How many places name a field of the outcome.
    pub fn of_outcome(&self, key: u64) -> u64
        ensures { result ≡ times self.now.outcomes.counts key }
    {
        self.outcomes.count(key)
    }

    /// How many places name the import.
    pub fn of_import(&self, id: ExportId) -> u64
        ensures { result ≡ times self.now.imports.counts id.0 }
    {
        self.imports.count(id.0 as u64)
    }

    /// How many places name a Pipe of the question.
    pub fn of_question(&self, id: QuestionId) -> u64
        ensures { result ≡ times self.now.questions.counts id.0 }
    {
        self.questions.count(id.0 as u64)
    }

    /// How many places name the object of the application.
    pub fn of_object(&self, id: ObjectId) -> u64
        ensures { result ≡ times self.now.objects.counts id.0 }
    {
        self.objects.count(id.0)
    }

    /// How many objects are named; each that has a count is.
    pub fn objects(&self) -> usize
        ensures value { result ≡ map.len self.now.objects.counts }
        ensures each { HasNoZeros self.now.objects.counts }
    {
        self.objects.len()
    }

    /// Whether no place names a Pipe of any question.
    pub fn names_no_question(&self) -> bool
        ensures { result ≡ (map.len self.now.questions.counts == 0) }
    {
        self.questions.is_empty()
    }

    /// How many places name the object, the promise, the import, fields of the outcome or Pipes of the question that the
    /// node is of. Broken nodes are not counted.
    pub fn of_node(&self, node: &Node) -> u64
        ensures { result ≡ times_named self.now node.now }
    {
        match *node {
            Node::Object(id) => self.of_object(id),
            Node::Promise(key) => self.of_promise(key),
            Node::Field(key, _) => self.of_outcome(key),
            Node::Import(id) => self.of_import(id),
            Node::Pipe(id, _) => self.of_question(id),
            Node::Broken(_) => 0,
        }
    }

    /// Makes room, so that so many nodes can be named and so many things of each kind noted, with none refused. `Err`
    /// if there was no room and a growth was refused. Counts and notes stay as they are.
    pub fn reserve(&mut self, more: usize) -> Result<(), Memory>
        ensures same { self.new ≡ all_with_rooms self.old self.new }
        ensures room { OnOk result (HasRoom more self.new) }
        ensures spare { OnOk result (HasSpare more self.new) }
        ensures keeps_room { (n : ℕ) → HasRoom n self.old → HasRoom n self.new }
        ensures had_room { HasRoom more self.old → HasSpare more self.old → IsOk result }
    {
        self.promises.reserve(more)?;
        self.outcomes.reserve(more)?;
        self.imports.reserve(more)?;
        self.questions.reserve(more)?;
        self.objects.make_room(more)
    }

    // Makes room for so many names, and leaves what may be noted besides.
    fn make_room(&mut self, more: usize) -> Result<(), Memory>
        ensures ok { OnOk result (self.new ≡ all_roomier more self.old) }
        ensures had_room { HasRoom more self.old → IsOk result }
        ensures same { self.new ≡ all_with_rooms self.old self.new }
    {
        self.promises.make_room(more)?;
        self.outcomes.make_room(more)?;
        self.imports.make_room(more)?;
        self.questions.make_room(more)?;
        self.objects.make_room(more)
    }

    /// One more place names the node. `Err` if it is named for the first time, there was no room and the growth was
    /// refused, or if its count would not fit 64 bits; nothing is changed then.
    pub fn add(&mut self, node: Node) -> Result<(), Memory>
        ensures ok { OnOk result (self.new ≡ named self.old node) }
        ensures had_room { HasRoom 1 self.old → times_named self.old node + 1 < 2 ^ 64 → IsOk result }
        ensures same { OnErr result (self.new ≡ self.old) }
    {
        // A look at a field: without one, a body that only calls methods does not see the invariant of its type.
        let _ = &self.promises;
        match node {
            Node::Object(id) => self.objects.raise(id.0),
            Node::Promise(key) => self.promises.raise(key),
            Node::Field(key, _) => self.outcomes.raise(key),
            Node::Import(id) => self.imports.raise(id.0 as u64),
            Node::Pipe(id, _) => self.questions.raise(id.0 as u64),
            Node::Broken(_) => Ok(()),
        }
    }

    /// One place less names the node. If that was the last, what the node is of is noted. Takes no memory.
    pub fn sub(&mut self, node: Node)
        ensures { self.new ≡ unnamed self.old node }
    {
        // A look at a field: without one, a body that only calls methods does not see the invariant of its type.
        let _ = &self.promises;
        match node {
            Node::Object(id) => self.objects.lower(id.0),
            Node::Promise(key) => self.promises.lower(key),
            Node::Field(key, _) => self.outcomes.lower(key),
            Node::Import(id) => self.imports.lower(id.0 as u64),
            Node::Pipe(id, _) => self.questions.lower(id.0 as u64),
            Node::Broken(_) => {}
        }
    }

    /// Whether each of these nodes can be named so many times more as there are nodes, with its count in 64 bits. Takes
    /// no memory.
    pub fn can_add(&self, nodes: &[Node]) -> bool
        ensures { IsTrue result ↔ CanCount self.now nodes.now }
    {
        let most = u64::MAX - nodes.len() as u64;
        for node in nodes {
            if most < self.of_node(node) {
                return false;
            }
        }
        true
    }

    /// One more place names each of these nodes. `Err` if there was no room for so many and a growth was refused, or
    /// `can_add` says no; no count is changed then.
    #[inline(always)]
    pub fn add_all(&mut self, nodes: &[Node]) -> Result<(), Memory>
        ensures ok { OnOk result (self.new ≡ named_all (all_roomier (length nodes.now) self.old) nodes.now) }
        ensures in_room { HasRoom (length nodes.now) self.old → OnOk result (self.new ≡ named_all self.old nodes.now) }
        ensures had_room { HasRoom (length nodes.now) self.old → CanCount self.old nodes.now → IsOk result }
        ensures same { OnErr result (self.new ≡ all_with_rooms self.old self.new) }
    {
        if nodes.is_empty() {
            return Ok(());
        }
        self.add_each(nodes)
    }

    // The same, also if there are none.
    fn add_each(&mut self, nodes: &[Node]) -> Result<(), Memory>
        ensures ok { OnOk result (self.new ≡ named_all (all_roomier (length nodes.now) self.old) nodes.now) }
        ensures in_room { HasRoom (length nodes.now) self.old → OnOk result (self.new ≡ named_all self.old nodes.now) }
        ensures had_room { HasRoom (length nodes.now) self.old → CanCount self.old nodes.now → IsOk result }
        ensures same { OnErr result (self.new ≡ all_with_rooms self.old self.new) }
    {
        if !self.can_add(nodes) {
            return Err(Memory);
        }
        self.make_room(nodes.len())?;
        for node in nodes {
            let Ok(()) = self.add(*node) else {
                unreachable!()
            };
        }
        Ok(())
    }

    /// One place less names each of these nodes. What was named last is noted. Takes no memory.
    pub fn sub_all(&mut self, nodes: &[Node])
        ensures { self.new ≡ unnamed_all self.old nodes.now }
    {
        for node in nodes {
            self.sub(*node);
        }
    }

    /// Notes a promise that may have to go, whatever names it. `Err` if no place was spare and the growth was refused;
    /// nothing is changed then.
    pub fn note_promise(&mut self, key: u64) -> Result<(), Memory>
        ensures ok { OnOk result (self.new ≡ record self.old { promises = noting self.old.promises key }) }
        ensures had_spare { 0 < self.old.promises.spare → IsOk result }
        ensures same { OnErr result (self.new ≡ self.old) }
    {
        self.promises.note(key)
    }

    /// Notes an outcome that may have to go, as `note_promise` does a promise.
    #[inline(always)]
    pub fn note_outcome(&mut self, key: u64) -> Result<(), Memory>
        ensures ok { OnOk result (self.new ≡ record self.old { outcomes = noting self.old.outcomes key }) }
        ensures had_spare { 0 < self.old.outcomes.spare → IsOk result }
        ensures same { OnErr result (self.new ≡ self.old) }
    {
        self.outcomes.note(key)
    }

    /// Notes an import that may have to go, as `note_promise` does a promise.
    pub fn note_import(&mut self, id: ExportId) -> Result<(), Memory>
        ensures ok { OnOk result (self.new ≡ record self.old { imports = noting self.old.imports id.0 }) }
        ensures had_spare { 0 < self.old.imports.spare → IsOk result }
        ensures same { OnErr result (self.new ≡ self.old) }
    {
        self.imports.note(id.0 as u64)
    }

    /// Notes a question that may be over, as `note_promise` does a promise.
    #[inline(always)]
    pub fn note_question(&mut self, id: QuestionId) -> Result<(), Memory>
        ensures ok { OnOk result (self.new ≡ record self.old { questions = noting self.old.questions id.0 }) }
        ensures had_spare { 0 < self.old.questions.spare → IsOk result }
        ensures same { OnErr result (self.new ≡ self.old) }
    {
        self.questions.note(id.0 as u64)
    }

    /// The promises that are noted, some perhaps more than once. Takes no memory, as do the next three.
    pub fn noted_promises(&self) -> &[u64]
        ensures { result.now ≡ self.now.promises.noted }
    {
        self.promises.noted()
    }

    /// The outcomes that are noted.
    pub fn noted_outcomes(&self) -> &[u64]
        ensures { result.now ≡ self.now.outcomes.noted }
    {
        self.outcomes.noted()
    }

    /// The ids of the imports that are noted.
    pub fn noted_imports(&self) -> &[u64]
        ensures value { result.now ≡ self.now.imports.noted }
        ensures ids { HasIds result.now }
    {
        self.imports.noted()
    }

    /// The ids of the questions that are noted.
    pub fn noted_questions(&self) -> &[u64]
        ensures value { result.now ≡ self.now.questions.noted }
        ensures ids { HasIds result.now }
    {
        self.questions.noted()
    }

    /// Takes out the promise that was noted last. Takes no memory, as do the next three.
    pub fn take_promise(&mut self) -> Option<u64>
        ensures { Takes self.old.promises result self.new.promises (self.new ≡ record self.old { promises = self.new.promises }) }
    {
        self.promises.take_noted()
    }

    /// Takes out the outcome that was noted last.
    pub fn take_outcome(&mut self) -> Option<u64>
        ensures { Takes self.old.outcomes result self.new.outcomes (self.new ≡ record self.old { outcomes = self.new.outcomes }) }
    {
        self.outcomes.take_noted()
    }

    /// Takes out the import that was noted last.
    pub fn take_import(&mut self) -> Option<ExportId>
        ensures { Takes self.old.imports (export_key result) self.new.imports (self.new ≡ record self.old { imports = self.new.imports }) }
    {
        let key = self.imports.take_noted()?;
        Some(ExportId(key as u32))
    }

    /// Takes out the question that was noted last.
    pub fn take_question(&mut self) -> Option<QuestionId>
        ensures { Takes self.old.questions (question_key result) self.new.questions (self.new ≡ record self.old { questions = self.new.questions }) }
    {
        let key = self.questions.take_noted()?;
        Some(QuestionId(key as u32))
    }

    /// Takes out an object that lost its last name, perhaps, since it was asked last. It may be named again, and some may be
    /// missing.
    #[inline(always)]
    pub fn take_lost_object(&mut self) -> Option<ObjectId>
        ensures { self.new ≡ self.old }
    {
        let object = self.objects.take_lost()?;
        Some(ObjectId(object))
    }
}
