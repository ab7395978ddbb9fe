ghost use Rattle.std.specs.Prelude.{◌≡◌, ◌≤◌, ◌<◌, ℕ, Some, [], length, IfSome};
ghost use Rattle.rpc_machine.specs.Nodes.{field_link, field_of, node_of_cap};
ghost use Rattle.core_waits.specs.Links.{hop_in, cap_hop, value_hop, IsHopFrom, IsKept, IsKeptAt, IsPlaceOf};

use crate::entries::{OutcomeEntry, PromiseEntry};
use rpc_machine::{Node, Reason, Value};
use rpc_msg::{CapAt, Op};
use std::alloc::Global;
use std::marker::Model;

/// A way along links: so many of them, one after the other, lead there.
#[derive(Clone, Copy, Drop)]
pub struct Hop {
    pub to: Node,
    pub far: u64,
}

/// The short cuts that are kept of an entry's links: of a settled promise's at the place 0, of a known outcome's at the
/// places of its capabilities. A short cut begins with the link, and says where so many links lead. It names nothing, and
/// nobody sees it; if there was no memory for one, there is none.
#[derive(Drop)]
pub(crate) struct Hops {
    hops: Vec<Option<Hop>>,
}

impl Model for Hops {
    ghost use Rattle.std.specs.Prelude.{List, Option};
    ghost use Rattle.core_waits.specs.declared.hops.Hop.{Hop};

    ghost Value = { List (Option Hop) };

    ghost view = { λ a. a.hops.items };
}

impl Hops {
    /// No short cuts. Takes no memory.
    pub(crate) fn new(alloc: Global) -> Self
        ensures { result ≡ [] }
    {
        Hops {
            hops: Vec::new(alloc),
        }
    }

    /// Forgets all of them. Takes no memory.
    pub(crate) fn clear(&mut self)
        ensures { self.new ≡ [] }
    {
        self.hops.clear();
    }

    // The one at that place.
    fn at(&self, index: usize) -> Option<Hop>
        ensures { result ≡ hop_in self.now index }
    {
        match self.hops.get(index) {
            Some(hop) => *hop,
            None => None,
        }
    }

    /// The one at that place, if it is not longer than that. Takes no memory.
    pub(crate) fn within(&self, index: usize, left: u64) -> Option<Hop>
        ensures { IfSome result (λ hop. (hop_in self.now index ≡ Some hop) × (hop.far ≤ left)) }
    {
        let hop = self.at(index)?;
        if hop.far > left {
            return None;
        }
        Some(hop)
    }

    /// Keeps one at a place of so many, if there is memory for these; the others stay.
    pub(crate) fn keep(&mut self, index: usize, count: usize, hop: Hop)
        ensures { IsKeptAt index hop self.old self.new }
    {
        self.grow(count);
        if index < self.hops.len() {
            self.put(index, hop);
        }
    }

    // Makes so many places, if there is memory.
    fn grow(&mut self, count: usize)
        ensures { (i : ℕ) → hop_in self.new i ≡ hop_in self.old i }
    {
        if self.hops.len() < count {
            let _ = self.hops.resize(count, None);
        }
    }

    fn put(&mut self, index: usize, hop: Hop)
        requires { index < length self.old }
        ensures { IsKept index hop self.old self.new }
    {
        self.hops[index] = Some(hop);
    }
}

/// The way from a promise: the short cut that is kept, if it is not longer than that, or else its link alone.
pub(crate) fn from_promise(entry: &PromiseEntry, left: u64) -> Option<Hop>
    ensures { IsHopFrom entry.now.to (hop_in entry.now.hops 0) left result }
{
    let to = entry.to?;
    match entry.hops.within(0, left) {
        Some(hop) => Some(hop),
        None => Some(Hop { to, far: 1 }),
    }
}

/// The way from what stands at a path of an outcome, likewise.
pub(crate) fn from_field(entry: &OutcomeEntry, path: &[Op], left: u64) -> Option<Hop>
    ensures { IsHopFrom (field_link path.now entry.now.value) (value_hop entry.now.hops path.now entry.now.value) left result }
{
    match &entry.value {
        Some(value) => Some(from_value(value, &entry.hops, path, left)),
        None => None,
    }
}

fn from_value(value: &Value, hops: &Hops, path: &[Op], left: u64) -> Hop
    ensures { IsHopFrom (Some (field_of value.now path.now)) (value_hop hops.now path.now (Some value.now)) left (Some result) }
{
    match value {
        Value::Results(payload, caps) => from_cap(payload.cap_at(path), caps, hops, left),
        Value::Exception(_) => Hop {
            to: Node::Broken(Reason::BrokenPromise),
            far: 1,
        },
    }
}

fn from_cap(cap: CapAt, caps: &[Node], hops: &Hops, left: u64) -> Hop
    ensures { IsHopFrom (Some (node_of_cap caps.now cap)) (cap_hop hops.now cap) left (Some result) }
{
    if let Some(hop) = kept_of(cap, hops, left) {
        return hop;
    }
    Hop {
        to: node_of(cap, caps),
        far: 1,
    }
}

fn kept_of(cap: CapAt, hops: &Hops, left: u64) -> Option<Hop>
    ensures { IfSome result (λ hop. (cap_hop hops.now cap ≡ Some hop) × (hop.far ≤ left)) }
{
    match cap {
        CapAt::Cap(index) => hops.within(index as usize, left),
        CapAt::Null => None,
        CapAt::NotCap => None,
    }
}

fn node_of(cap: CapAt, caps: &[Node]) -> Node
    ensures { result ≡ node_of_cap caps.now cap }
{
    match cap {
        CapAt::Cap(index) => match caps.get(index as usize) {
            Some(node) => *node,
            None => Node::Broken(Reason::NotACapability),
        },
        CapAt::Null => Node::Broken(Reason::NullCapability),
        CapAt::NotCap => Node::Broken(Reason::NotACapability),
    }
}

/// The place of the capability that stands at a path of an outcome, if one does, and how many there are.
pub(crate) fn place_of(value: &Option<Value>, path: &[Op]) -> Option<(usize, usize)>
    ensures { IfSome result (λ place. IsPlaceOf place.0 path.now value.now) }
{
    let Some(Value::Results(payload, caps)) = value else {
        return None;
    };
    let CapAt::Cap(index) = payload.cap_at(path) else {
        return None;
    };
    let count = caps.len();
    if index as usize >= count {
        return None;
    }
    Some((index as usize, count))
}

/// What a known outcome fixes its field at that path to. Takes no memory.
pub fn field_of(value: &Value, path: &[Op]) -> Node
    ensures { result ≡ field_of value.now path.now }
{
    match value {
        Value::Results(payload, caps) => node_of(payload.cap_at(path), caps),
        Value::Exception(_) => Node::Broken(Reason::BrokenPromise),
    }
}
