ghost use Rattle.std.specs.Prelude.{◌≡◌, ◌≢◌, ◌↔◌, ◌+◌, ◌≤◌, ◌<◌, ◌-◌, List, [], None, Some, Err, IsTrue, IsOk, IsSome, IfOk, OnOk, OnErr, MatchBool, option_copied};
ghost use Rattle.std.specs.FinMap as map;
ghost use Rattle.rpc_msg.specs.Op.{Op};
ghost use Rattle.rpc_machine.specs.declared.node.Node.{Node};
ghost use Rattle.rpc_machine.specs.declared.node.Node.TheVariants as node;
ghost use Rattle.rpc_machine.specs.declared.calls.Promise.TheVariants as promise;
ghost use Rattle.std.specs.List.{list_any};
ghost use Rattle.core_waits.specs.Through.{is_by, stamps_waiting};

use crate::entries::{EmbargoEntry, OutcomeEntry, PromiseEntry};
use crate::hops::{Hop, Hops, from_field, from_promise, place_of};
use crate::lists::put;
use crate::through::{embargoes_hold, outcomes_hold, promises_hold};
use rpc_machine::{Caller, HeldCall, Node, Value, WaitingCall};
use rpc_msg::{EmbargoId, Memory, Path, RefId, Vat};
use std::alloc::Global;
use std::marker::Model;
use vat_tables::{HeldPool, ListKey, POOL_LIMIT, Picked, TableFault};

/// The promises of a vat's own, the outcomes that it keeps and its embargoes, each with the calls that wait there; and the
/// calls that were taken out to be routed. All calls stand in one pool, in which each place has a list of its own, so a list
/// is routed call by call while others grow, and none is moved to be taken out. Each call is constant work, except for
/// `holds`, and except when memory grows.
#[derive(Drop)]
pub struct Waits {
    promises: Picked<PromiseEntry>,
    outcomes: Picked<OutcomeEntry>,
    embargoes: Picked<EmbargoEntry>,
    taken: Option<ListKey>,
    pool: HeldPool<HeldCall>,
    alloc: Global,
    // So many more entries of each kind, and as many calls, need no more memory.
    room: usize,
}

impl Model for Waits {
    ghost use Rattle.core_waits.specs.Waiting.{Waiting, waiting_code, waiting_of, HasRoom};
    ghost use Rattle.core_waits.specs.Owned.{IsOwned, list_at};
    ghost use Rattle.core_waits.specs.Links.{HopsHold};

    ghost Value = { Waiting };

    ghost coded = { waiting_code };

    ghost view = { λ a. waiting_of a.promises.entries a.outcomes.entries a.embargoes.entries a.taken a.pool.lists a.room };

    ghost invariant = { λ a.
        IsOwned (list_at a.promises.entries a.outcomes.entries a.embargoes.entries a.taken) a.pool.lists
        × HasRoom a.promises a.outcomes a.embargoes a.pool a.room
        × HopsHold a.promises.entries a.outcomes.entries };
}

impl Waits {
    ghost use Rattle.rpc_machine.specs.Nodes.{promise_link, value_of};
    ghost use Rattle.core_waits.specs.Links.{IsHop, Leads, link_of};
    ghost use Rattle.core_waits.specs.Changes.{HeldForPromise, HeldForField, HeldUnder, IsOpen, Fixes, Knows, TakesHeld, outcome_parts, caller_of, HasNoneWaiting, Lifts, TakesNext, embargo_parts};

    /// Nothing waits. Takes no memory.
    pub fn new(alloc: Global) -> Self
        ensures { result ≡ record { promises = map.empty; outcomes = map.empty; embargoes = map.empty; taken = []; held = 0; room = 0 } }
    {
        Waits {
            promises: Picked::new(alloc),
            outcomes: Picked::new(alloc),
            embargoes: Picked::new(alloc),
            taken: None,
            pool: HeldPool::new(alloc),
            alloc,
            room: 0,
        }
    }

    /// How many calls wait, with those that were taken out and not yet handed out: at most 65,536. Takes no memory, as
    /// none of the look-ups does.
    pub fn held(&self) -> usize
        ensures value { result ≡ self.now.held }
        ensures within { result ≤ POOL_LIMIT }
    {
        self.pool.len()
    }

    /// How many promises there are, open or settled.
    pub fn promises(&self) -> usize
        ensures { result ≡ map.len self.now.promises }
    {
        self.promises.len()
    }

    /// How many outcomes there are.
    pub fn outcomes(&self) -> usize
        ensures { result ≡ map.len self.now.outcomes }
    {
        self.outcomes.len()
    }

    /// How many embargoes there are.
    pub fn embargoes(&self) -> usize
        ensures { result ≡ map.len self.now.embargoes }
    {
        self.embargoes.len()
    }

    /// Whether a call that waits for a promise, an outcome or the end of an embargo was made through that reference of that
    /// vat. Looks at each entry and each call that waits there. Takes no memory.
    pub fn holds(&self, vat: Vat, reference: RefId) -> bool
        ensures { result ≡ list_any (is_by vat reference) (stamps_waiting self.now) }
    {
        promises_hold(&self.promises, &self.pool, vat, reference)
            || outcomes_hold(&self.outcomes, &self.pool, vat, reference)
            || embargoes_hold(&self.embargoes, &self.pool, vat, reference)
    }

    /// Makes room, so that so many more entries of each kind can be opened and so many calls held, with none refused for
    /// running out of memory. `Err` if there was no room and a growth was refused; there may be less room then. What waits
    /// stays as it is.
    pub fn reserve(&mut self, more: usize) -> Result<(), Memory>
        ensures same { self.new ≡ record self.old { room = self.new.room } }
        ensures ok { OnOk result (more ≤ self.new.room) }
        ensures had_room { more ≤ self.old.room → IsOk result }
    {
        if more <= self.room {
            return Ok(());
        }
        self.room = 0;
        self.promises.reserve(more)?;
        self.outcomes.reserve(more)?;
        self.embargoes.reserve(more)?;
        self.pool.reserve(more)?;
        self.room = more;
        Ok(())
    }

    /// Opens a new promise, and gives its key, which was free. `Err` if there was no room and the growth was refused;
    /// nothing is changed then.
    pub fn open_promise(&mut self) -> Result<u64, Memory>
        ensures free { IfOk result (λ key. map.get self.old.promises key ≡ None) }
        ensures ok { IfOk result (λ key. self.new ≡ record self.old { promises = map.insert self.old.promises key (promise.Open []); room = self.old.room - 1 }) }
        ensures had_room { 0 < self.old.room → IsOk result }
        ensures same { OnErr result (self.new ≡ self.old) }
    {
        let entry = PromiseEntry {
            to: None,
            list: None,
            hops: Hops::new(self.alloc),
        };
        let Ok(key) = self.promises.add(entry) else {
            return Err(Memory);
        };
        self.room = self.room.saturating_sub(1);
        Ok(key as u64)
    }

    /// Lets a call wait for an open promise, behind those that wait already. `Full` at 65,536 calls, and only then;
    /// `Memory` if there is no such open promise, or there was no room and the growth was refused. A call that is
    /// refused is dropped, and nothing is changed then.
    pub fn hold_for_promise(&mut self, key: u64, call: WaitingCall) -> Result<(), TableFault>
        ensures ok { OnOk result (HeldForPromise self.old key call (map.get self.old.promises key) self.new) }
        ensures at_limit { IsOpen (map.get self.old.promises key) → self.old.held ≡ POOL_LIMIT → result ≡ Err TableFault.Full }
        ensures full { result ≡ Err TableFault.Full → self.old.held ≡ POOL_LIMIT }
        ensures had_room { IsOpen (map.get self.old.promises key) → 0 < self.old.room → self.old.held ≢ POOL_LIMIT → IsOk result }
        ensures same { OnErr result (self.new ≡ self.old) }
    {
        let Some(entry) = self.promises.get(key) else {
            return Err(TableFault::Memory);
        };
        let None = entry.to else {
            return Err(TableFault::Memory);
        };
        let list = entry.list;
        let held = HeldCall {
            path: Path::root(),
            call,
        };
        let list = put(&mut self.pool, list, held)?;
        let Some(place) = self.promises.get_mut(key) else {
            unreachable!()
        };
        place.list = Some(list);
        self.room = self.room.saturating_sub(1);
        Ok(())
    }

    /// Settles an open promise: it leads there from now on, and the calls that waited for it are taken out. `Err` if
    /// there is no such open promise, or calls that were taken out before are not all handed out; nothing is changed
    /// then. Takes no memory.
    pub fn fix(&mut self, key: u64, to: Node) -> Result<(), Memory>
        ensures ok { OnOk result (Fixes self.old key to (map.get self.old.promises key) self.new) }
        ensures handed_out { OnOk result (self.old.taken ≡ []) }
        ensures never { IsOpen (map.get self.old.promises key) → self.old.taken ≡ [] → IsOk result }
        ensures same { OnErr result (self.new ≡ self.old) }
    {
        let None = self.taken else {
            return Err(Memory);
        };
        let Some(entry) = self.promises.get(key) else {
            return Err(Memory);
        };
        let None = entry.to else {
            return Err(Memory);
        };
        let list = entry.list;
        let Some(place) = self.promises.get_mut(key) else {
            unreachable!()
        };
        place.to = Some(to);
        place.list = None;
        place.hops.clear();
        self.taken = list;
        Ok(())
    }

    /// Takes out the promise with that key, which must not be open, and to which no link may lead, and says where it led.
    /// Takes no memory.
    pub fn remove_promise(&mut self, key: u64) -> Option<Node>
        requires settled { ¬ (IsOpen (map.get self.old.promises key)) }
        requires no_link { (n : Node) → link_of self.old n ≢ Some (node.Promise key) }
        ensures value { result ≡ promise_link (map.get self.old.promises key) }
        ensures removed { self.new ≡ record self.old { promises = map.remove self.old.promises key } }
    {
        self.promises.remove(key)?.to
    }

    /// Whether there is a promise with that key, open or settled.
    pub fn has_promise(&self, key: u64) -> bool
        ensures { IsTrue result ↔ IsSome (map.get self.now.promises key) }
    {
        self.promises.contains(key)
    }

    /// Where a promise leads, if it is there and was settled.
    pub fn promise_link(&self, key: u64) -> Option<Node>
        ensures { result ≡ promise_link (map.get self.now.promises key) }
    {
        self.promises.get(key)?.to
    }

    /// The same, where it stands.
    pub fn promise_to(&self, key: u64) -> Option<&Node>
        ensures { option_copied result ≡ promise_link (map.get self.now.promises key) }
    {
        self.promises.get(key)?.to.as_ref()
    }

    /// Opens an outcome that is not known yet, of which that caller is to be told, and gives its key, which was free.
    /// `Err` if there was no room and the growth was refused; nothing is changed then.
    pub fn new_outcome(&mut self, caller: Caller) -> Result<u64, Memory>
        ensures free { IfOk result (λ key. map.get self.old.outcomes key ≡ None) }
        ensures ok { IfOk result (λ key. self.new ≡ record self.old { outcomes = map.insert self.old.outcomes key (record { caller = caller; value = None; waiting = [] }); room = self.old.room - 1 }) }
        ensures had_room { 0 < self.old.room → IsOk result }
        ensures same { OnErr result (self.new ≡ self.old) }
    {
        let entry = OutcomeEntry {
            caller,
            value: None,
            list: None,
            hops: Hops::new(self.alloc),
        };
        let Ok(key) = self.outcomes.add(entry) else {
            return Err(Memory);
        };
        self.room = self.room.saturating_sub(1);
        Ok(key as u64)
    }

    /// Lets a call wait for what will stand at a path of an outcome, behind those that wait already. `Full` at 65,536
    /// calls, and only then; `Memory` if there is no such outcome, or there was no room and the growth was refused. A
    /// call that is refused is dropped, and nothing is changed then.
    pub fn hold_for_field(
        &mut self,
        key: u64,
        path: Path,
        call: WaitingCall,
    ) -> Result<(), TableFault>
        ensures ok { OnOk result (HeldForField self.old key path call (map.get self.old.outcomes key) self.new) }
        ensures at_limit { IsSome (map.get self.old.outcomes key) → self.old.held ≡ POOL_LIMIT → result ≡ Err TableFault.Full }
        ensures full { result ≡ Err TableFault.Full → self.old.held ≡ POOL_LIMIT }
        ensures had_room { IsSome (map.get self.old.outcomes key) → 0 < self.old.room → self.old.held ≢ POOL_LIMIT → IsOk result }
        ensures same { OnErr result (self.new ≡ self.old) }
    {
        let Some(entry) = self.outcomes.get(key) else {
            return Err(TableFault::Memory);
        };
        let list = entry.list;
        let list = put(&mut self.pool, list, HeldCall { path, call })?;
        let Some(place) = self.outcomes.get_mut(key) else {
            unreachable!()
        };
        place.list = Some(list);
        self.room = self.room.saturating_sub(1);
        Ok(())
    }

    /// Notes what an outcome is that was not known before. `Err` if there is no such outcome, or it is known; nothing is
    /// changed then. Takes no memory.
    pub fn know(&mut self, key: u64, value: Value) -> Result<(), Memory>
        ensures ok { OnOk result (Knows self.old key value (map.get self.old.outcomes key) self.new) }
        ensures never { IsSome (map.get self.old.outcomes key) → value_of (map.get self.old.outcomes key) ≡ None → IsOk result }
        ensures same { OnErr result (self.new ≡ self.old) }
    {
        let Some(entry) = self.outcomes.get(key) else {
            return Err(Memory);
        };
        let None = entry.value else {
            return Err(Memory);
        };
        let Some(place) = self.outcomes.get_mut(key) else {
            unreachable!()
        };
        place.value = Some(value);
        place.hops.clear();
        Ok(())
    }

    /// Takes out the calls that wait for an outcome. `Err` if there is no such outcome, or calls that were taken out
    /// before are not all handed out; nothing is changed then. Takes no memory.
    pub fn take_held(&mut self, key: u64) -> Result<(), Memory>
        ensures ok { OnOk result (TakesHeld self.old key (map.get self.old.outcomes key) self.new) }
        ensures handed_out { OnOk result (self.old.taken ≡ []) }
        ensures never { IsSome (map.get self.old.outcomes key) → self.old.taken ≡ [] → IsOk result }
        ensures same { OnErr result (self.new ≡ self.old) }
    {
        let None = self.taken else {
            return Err(Memory);
        };
        let Some(entry) = self.outcomes.get(key) else {
            return Err(Memory);
        };
        let list = entry.list;
        let Some(place) = self.outcomes.get_mut(key) else {
            unreachable!()
        };
        place.list = None;
        self.taken = list;
        Ok(())
    }

    /// Takes out the outcome with that key, for which no call may wait, and to a field of which no link may lead, and says
    /// whose it was and what. Takes no memory.
    pub fn remove_outcome(&mut self, key: u64) -> Option<(Caller, Option<Value>)>
        requires none_waiting { HasNoneWaiting (map.get self.old.outcomes key) }
        requires no_link { (n : Node) (path : List Op) → link_of self.old n ≢ Some (node.Field key path) }
        ensures value { result ≡ outcome_parts (map.get self.old.outcomes key) }
        ensures removed { self.new ≡ record self.old { outcomes = map.remove self.old.outcomes key } }
    {
        let OutcomeEntry {
            caller,
            value,
            list: _,
            hops: _,
        } = self.outcomes.remove(key)?;
        Some((caller, value))
    }

    /// Who is to be told of an outcome, if it is there.
    pub fn caller(&self, key: u64) -> Option<Caller>
        ensures { result ≡ caller_of (map.get self.now.outcomes key) }
    {
        Some(self.outcomes.get(key)?.caller)
    }

    /// Whether some call waits for an outcome.
    pub fn is_awaited(&self, key: u64) -> bool
        ensures { MatchBool result (¬ (HasNoneWaiting (map.get self.now.outcomes key))) (HasNoneWaiting (map.get self.now.outcomes key)) }
    {
        let Some(entry) = self.outcomes.get(key) else {
            return false;
        };
        entry.list.is_some()
    }

    /// What an outcome is, if it is known.
    pub fn value(&self, key: u64) -> Option<&Value>
        ensures { option_copied result ≡ value_of (map.get self.now.outcomes key) }
    {
        self.outcomes.get(key)?.value.as_ref()
    }

    /// A way along the links from a node: at most so many as are left, and all that can be followed at once. None if it
    /// has no link, or none is left. Takes no memory.
    pub fn hop(&self, node: Node, left: u64) -> Option<Hop>
        ensures { IsHop (link_of self.now) left node result }
    {
        if left == 0 {
            return None;
        }
        match node {
            Node::Promise(key) => from_promise(self.promises.get(key)?, left),
            Node::Field(key, path) => from_field(self.outcomes.get(key)?, path.as_slice(), left),
            Node::Object(_) => None,
            Node::Import(_) => None,
            Node::Pipe(_, _) => None,
            Node::Broken(_) => None,
        }
    }

    /// Has `hop` lead that way from a node, as far as there is memory for it. What waits stays as it is.
    pub fn shorten(&mut self, node: Node, hop: Hop)
        requires some { 0 < hop.far }
        requires way { Leads (link_of self.old) hop.far node hop.to }
        ensures { self.new ≡ self.old }
    {
        match node {
            Node::Promise(key) => self.shorten_promise(key, hop),
            Node::Field(key, path) => self.shorten_field(key, path, hop),
            Node::Object(_) => {}
            Node::Import(_) => {}
            Node::Pipe(_, _) => {}
            Node::Broken(_) => {}
        }
    }

    // The same of a promise.
    fn shorten_promise(&mut self, key: u64, hop: Hop)
        requires some { 0 < hop.far }
        requires way { Leads (link_of self.old) hop.far (node.Promise key) hop.to }
        ensures { self.new ≡ self.old }
    {
        let Some(place) = self.promises.get_mut(key) else {
            return;
        };
        place.hops.keep(0, 1, hop);
    }

    // The same of what stands at a path of an outcome, if that is one of its capabilities.
    fn shorten_field(&mut self, key: u64, path: Path, hop: Hop)
        requires some { 0 < hop.far }
        requires way { Leads (link_of self.old) hop.far (node.Field key path) hop.to }
        ensures { self.new ≡ self.old }
    {
        let Some(place) = self.outcomes.get_mut(key) else {
            return;
        };
        let Some((index, count)) = place_of(&place.value, path.as_slice()) else {
            return;
        };
        place.hops.keep(index, count, hop);
    }

    /// Puts the calls of a reference that leads to that node under a new embargo, and gives its id, which was free. `Err`
    /// if there was no room and the growth was refused; nothing is changed then.
    pub fn open_embargo(&mut self, reference: RefId, node: Node) -> Result<EmbargoId, Memory>
        ensures free { IfOk result (λ id. map.get self.old.embargoes id.0 ≡ None) }
        ensures ok { IfOk result (λ id. self.new ≡ record self.old { embargoes = map.insert self.old.embargoes id.0 (record { reference = reference; node = node; waiting = [] }); room = self.old.room - 1 }) }
        ensures had_room { 0 < self.old.room → IsOk result }
        ensures same { OnErr result (self.new ≡ self.old) }
    {
        let entry = EmbargoEntry {
            reference,
            node,
            list: None,
        };
        let Ok(id) = self.embargoes.add(entry) else {
            return Err(Memory);
        };
        self.room = self.room.saturating_sub(1);
        Ok(EmbargoId(id))
    }

    /// Lets a call wait for the end of an embargo, behind those that wait already. `Full` at 65,536 calls, and only
    /// then; `Memory` if there is no such embargo, or there was no room and the growth was refused. A call that is
    /// refused is dropped, and nothing is changed then.
    pub fn hold_under(&mut self, id: EmbargoId, call: WaitingCall) -> Result<(), TableFault>
        ensures ok { OnOk result (HeldUnder self.old id.0 call (map.get self.old.embargoes id.0) self.new) }
        ensures at_limit { IsSome (map.get self.old.embargoes id.0) → self.old.held ≡ POOL_LIMIT → result ≡ Err TableFault.Full }
        ensures full { result ≡ Err TableFault.Full → self.old.held ≡ POOL_LIMIT }
        ensures had_room { IsSome (map.get self.old.embargoes id.0) → 0 < self.old.room → self.old.held ≢ POOL_LIMIT → IsOk result }
        ensures same { OnErr result (self.new ≡ self.old) }
    {
        let key = id.0 as u64;
        let Some(entry) = self.embargoes.get(key) else {
            return Err(TableFault::Memory);
        };
        let list = entry.list;
        let held = HeldCall {
            path: Path::root(),
            call,
        };
        let list = put(&mut self.pool, list, held)?;
        let Some(place) = self.embargoes.get_mut(key) else {
            unreachable!()
        };
        place.list = Some(list);
        self.room = self.room.saturating_sub(1);
        Ok(())
    }

    /// Ends an embargo: it goes, the calls that waited for that are taken out, and its reference and node are handed out.
    /// `Err` if there is no such embargo, or calls that were taken out before are not all handed out; nothing is
    /// changed then. Takes no memory.
    pub fn lift(&mut self, id: EmbargoId) -> Result<(RefId, Node), Memory>
        ensures ok { IfOk result (λ parts. Lifts self.old id.0 parts.0 parts.1 (map.get self.old.embargoes id.0) self.new) }
        ensures handed_out { OnOk result (self.old.taken ≡ []) }
        ensures never { IsSome (map.get self.old.embargoes id.0) → self.old.taken ≡ [] → IsOk result }
        ensures same { OnErr result (self.new ≡ self.old) }
    {
        let None = self.taken else {
            return Err(Memory);
        };
        let key = id.0 as u64;
        let Some(entry) = self.embargoes.get(key) else {
            return Err(Memory);
        };
        let (reference, node, list) = (entry.reference, entry.node, entry.list);
        self.embargoes.remove(key);
        self.taken = list;
        Ok((reference, node))
    }

    /// The reference and the node of an embargo, if it is there.
    pub fn embargo(&self, id: EmbargoId) -> Option<(RefId, Node)>
        ensures { result ≡ embargo_parts (map.get self.now.embargoes id.0) }
    {
        let entry = self.embargoes.get(id.0 as u64)?;
        Some((entry.reference, entry.node))
    }

    /// Hands out the first of the calls that were taken out. Takes no memory.
    pub fn next_taken(&mut self) -> Option<HeldCall>
        ensures { TakesNext self.old result self.new }
    {
        let list = self.taken?;
        let Some((call, goes_on)) = self.pool.pop(list) else {
            unreachable!()
        };
        if goes_on {
            return Some(call);
        }
        self.taken = None;
        Some(call)
    }
}
