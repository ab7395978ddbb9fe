ghost use Rattle.std.specs.Prelude.{◌≡◌, ◌<◌, ◌∷◌, ◌++◌, None, [], option_to_list, MatchBool, IsOk, OnOk, IfOk, IfNone};
ghost use Rattle.core_refcounts.specs.Names.{named, named_all, times_named, no_names};
ghost use Rattle.core_step_sweeps.specs.Thinking.{asked_by};
ghost use Rattle.rpc_machine.specs.Places.{nodes};

use crate::tallies::Tallies;
use rpc_machine::Node;
use rpc_msg::{Descriptor, Memory, QuestionId};
use std::alloc::Global;

/// Memory for a step that is only thought, to find which questions are over; it is kept from step to step.
#[derive(Drop)]
pub struct Thought {
    /// The questions that are over, by rising id.
    pub over: Vec<QuestionId>,
    // Nodes of what went in the thought, except for the last.
    pub(crate) gone: Vec<Node>,
    // The last of them. It is marked once another is looked at.
    pub(crate) last: Option<Node>,
    // How often each thing is among `gone`.
    pub(crate) marks: Tallies,
    // How many of the places that named each thing went.
    pub(crate) less: Tallies,
    // What may have to go.
    pub(crate) pending: Vec<Node>,
}

impl Thought {
    /// Thinks of nothing. Takes no memory.
    pub fn new(alloc: Global) -> Self
        ensures { result.over.items ≡ [] }
    {
        Thought {
            over: Vec::new(alloc),
            gone: Vec::new(alloc),
            last: None,
            marks: Tallies::new(alloc),
            less: Tallies::new(alloc),
            pending: Vec::new(alloc),
        }
    }

    // Nothing went.
    pub(crate) fn clear(&mut self)
        ensures over { self.new.over.items ≡ [] }
        ensures gone { self.new.gone.items ≡ [] }
        ensures last { self.new.last ≡ None }
        ensures marks { self.new.marks ≡ no_names }
        ensures less { self.new.less ≡ no_names }
        ensures pending { self.new.pending.items ≡ [] }
    {
        self.over.clear();
        self.pending.clear();
        self.gone.clear();
        self.last = None;
        self.marks.clear();
        self.less.clear();
    }

    // The next node that is looked at.
    pub(crate) fn next(&mut self) -> Option<Node>
        ensures items { self.old.pending.items ≡ self.new.pending.items ++ option_to_list result }
        ensures none { IfNone result (self.old.pending.items ≡ []) }
        ensures same { self.new ≡ record self.old { pending = self.new.pending } }
    {
        self.pending.pop()
    }

    // Whether what the node is of went.
    pub(crate) fn is_gone(&mut self, node: &Node) -> Result<bool, Memory>
        ensures gone { OnOk result (self.new.gone.items ≡ self.old.gone.items ++ option_to_list self.old.last) }
        ensures last { OnOk result (self.new.last ≡ None) }
        ensures marks { OnOk result (self.new.marks ≡ named_all self.old.marks (option_to_list self.old.last)) }
        ensures over { OnOk result (self.new.over.items ≡ self.old.over.items) }
        ensures less { OnOk result (self.new.less ≡ self.old.less) }
        ensures pending { OnOk result (self.new.pending.items ≡ self.old.pending.items) }
        ensures value { IfOk result (λ gone. MatchBool gone (0 < times_named self.new.marks node.now) (times_named self.new.marks node.now ≡ 0)) }
        ensures never { self.old.last ≡ None → IsOk result }
    {
        self.mark()?;
        Ok(0 < self.marks.of_node(node))
    }

    // The last of what went is marked.
    fn mark(&mut self) -> Result<(), Memory>
        ensures gone { OnOk result (self.new.gone.items ≡ self.old.gone.items ++ option_to_list self.old.last) }
        ensures last { OnOk result (self.new.last ≡ None) }
        ensures marks { OnOk result (self.new.marks ≡ named_all self.old.marks (option_to_list self.old.last)) }
        ensures over { OnOk result (self.new.over.items ≡ self.old.over.items) }
        ensures less { OnOk result (self.new.less ≡ self.old.less) }
        ensures pending { OnOk result (self.new.pending.items ≡ self.old.pending.items) }
        ensures never { self.old.last ≡ None → IsOk result }
    {
        let Some(node) = self.last else {
            return Ok(());
        };
        self.last = None;
        // A copy: what is passed by value can't be used again, though its type is `Copy`.
        let again = node;
        self.gone.push(again)?;
        self.marks.add(node)
    }

    // A question goes with the others that are over.
    pub(crate) fn ask(&mut self, node: &Node) -> Result<(), Memory>
        ensures over { OnOk result (self.new ≡ record self.old { over = self.new.over }) }
        ensures items { OnOk result (self.new.over.items ≡ self.old.over.items ++ asked_by node.now) }
    {
        match *node {
            Node::Pipe(id, _) => {
                self.over.push(id)?;
                Ok(())
            }
            _ => Ok(()),
        }
    }
}

// One place less names the node, and its thing may have to go.
fn lose_one(less: &mut Tallies, pending: &mut Vec<Node>, node: &Node) -> Result<(), Memory>
    ensures less { OnOk result (less.new ≡ named less.old node.now) }
    ensures pending { OnOk result (pending.new.items ≡ pending.old.items ++ node.now ∷ []) }
{
    less.add(*node)?;
    pending.push(*node)?;
    Ok(())
}

// One place less names each of these nodes.
pub(crate) fn lose_each(
    less: &mut Tallies,
    pending: &mut Vec<Node>,
    nodes: &[Node],
) -> Result<(), Memory>
    ensures less { OnOk result (less.new ≡ named_all less.old nodes.now) }
    ensures pending { OnOk result (pending.new.items ≡ pending.old.items ++ nodes.now) }
{
    for node in nodes {
        lose_one(less, pending, node)?;
    }
    Ok(())
}

// One place less names each of the nodes beside these descriptors.
pub(crate) fn lose_beside(
    less: &mut Tallies,
    pending: &mut Vec<Node>,
    caps: &[(Descriptor, Node)],
) -> Result<(), Memory>
    ensures less { OnOk result (less.new ≡ named_all less.old (nodes caps.now)) }
    ensures pending { OnOk result (pending.new.items ≡ pending.old.items ++ nodes caps.now) }
{
    for cap in caps {
        lose_one(less, pending, &cap.1)?;
    }
    Ok(())
}
