ghost use Rattle.std.specs.Prelude.{◌≡◌, IsTrue, OnOk};

use crate::tally::Tally;
use rpc_machine::Node;
use rpc_msg::{Memory, QuestionId};
use std::alloc::Global;
use std::marker::Model;

/// How often each object, promise, outcome, import and question was counted, until all counts are cleared.
#[derive(Drop)]
pub struct Tallies {
    promises: Tally,
    outcomes: Tally,
    imports: Tally,
    questions: Tally,
    objects: Tally,
}

impl Model for Tallies {
    ghost use Rattle.core_refcounts.specs.Names.{Names, names_code};

    ghost Value = { Names };

    ghost coded = { names_code };

    ghost view = { λ a. record { promises = a.promises; outcomes = a.outcomes; imports = a.imports; questions = a.questions; objects = record { counts = a.objects.counts; room = a.objects.room } } };
}

impl Tallies {
    ghost use Rattle.core_refcounts.specs.Names.{no_names, named, times, times_named};

    /// Counts nothing. Takes no memory.
    pub fn new(alloc: Global) -> Self
        ensures { result ≡ no_names }
    {
        Tallies {
            promises: Tally::new(alloc),
            outcomes: Tally::new(alloc),
            imports: Tally::new(alloc),
            questions: Tally::new(alloc),
            objects: Tally::new(alloc),
        }
    }

    /// How often the object, the promise, the import, fields of the outcome or Pipes of the question that the node is of were counted.
    /// Takes no memory.
    pub fn of_node(&self, node: &Node) -> u64
        ensures { result ≡ times_named self.now node.now }
    {
        match *node {
            Node::Object(id) => self.objects.count(id.0),
            Node::Promise(key) => self.promises.count(key),
            Node::Field(key, _) => self.outcomes.count(key),
            Node::Import(id) => self.imports.count(id.0 as u64),
            Node::Pipe(id, _) => self.questions.count(id.0 as u64),
            Node::Broken(_) => 0,
        }
    }

    /// How often Pipes of the question were counted. Takes no memory.
    pub fn of_question(&self, id: QuestionId) -> u64
        ensures { result ≡ times self.now.questions.counts id.0 }
    {
        self.questions.count(id.0 as u64)
    }

    /// The node is counted once more. `Err` if a growth was refused, or its count would not fit 64 bits.
    pub fn add(&mut self, node: Node) -> Result<(), Memory>
        ensures { OnOk result (self.new ≡ named self.old node) }
    {
        match node {
            Node::Object(id) => self.objects.raise(id.0),
            Node::Promise(key) => self.promises.raise(key),
            Node::Field(key, _) => self.outcomes.raise(key),
            Node::Import(id) => self.imports.raise(id.0 as u64),
            Node::Pipe(id, _) => self.questions.raise(id.0 as u64),
            Node::Broken(_) => Ok(()),
        }
    }

    // Whether nothing is counted.
    fn is_clear(&self) -> bool
        ensures { IsTrue result → self.now ≡ no_names }
    {
        self.promises.is_clear()
            && self.outcomes.is_clear()
            && self.imports.is_clear()
            && self.questions.is_clear()
            && self.objects.is_clear()
    }

    /// Counts nothing any more. Takes no memory, and keeps what it has.
    pub fn clear(&mut self)
        ensures { self.new ≡ no_names }
    {
        if self.is_clear() {
            return;
        }
        self.promises.clear();
        self.outcomes.clear();
        self.imports.clear();
        self.questions.clear();
        self.objects.clear();
    }
}
