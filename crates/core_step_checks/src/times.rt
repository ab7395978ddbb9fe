ghost use Rattle.std.specs.Prelude.{◌≡◌, ◌+◌, if◌then◌else◌, IfOk, OnOk};
ghost use Rattle.vat_tables.specs.Exports.{node_eq};
ghost use Rattle.rpc_machine.specs.declared.node.Node.{Node as ANode};
ghost use Rattle.core_step_checks.specs.Counted.{times_of};

use rpc_machine::Node;
use rpc_msg::Memory;
use std::alloc::Global;
use std::collections::HashMap;

/// How often nodes are sent.
#[derive(Drop)]
pub(crate) struct Times {
    pub(crate) by_node: HashMap<Node, usize>,
}

impl Times {
    /// None so far. Takes no memory.
    pub(crate) fn new(alloc: Global) -> Self
        ensures { (n : ANode) → times_of result n ≡ 0 }
    {
        Times {
            by_node: HashMap::new(alloc),
        }
    }

    fn of(&self, node: &Node) -> usize
        ensures { result ≡ times_of self.now node.now }
    {
        match self.by_node.get(node) {
            Some(times) => *times,
            None => 0,
        }
    }

    /// Counts a node once more, and says how often it was counted before. `Err` if memory or numbers run out; nothing
    /// is known of the times then.
    pub(crate) fn count(&mut self, node: &Node) -> Result<usize, Memory>
        ensures before { IfOk result (λ before. before ≡ times_of self.old node.now) }
        ensures more { OnOk result ((n : ANode) → times_of self.new n ≡ times_of self.old n + (if node_eq node.now n then 1 else 0)) }
    {
        let before = self.of(node);
        let Some(more) = before.checked_add(1) else {
            return Err(Memory);
        };
        self.by_node.insert(*node, more)?;
        Ok(before)
    }
}
