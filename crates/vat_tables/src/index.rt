ghost use Rattle.std.specs.Prelude.{◌≡◌, ◌≤◌, ◌<◌, ◌+◌, ℕ, Some, None, IsOk, OnOk, OnErr};
ghost use Rattle.std.specs.FinMap as map;
ghost use Rattle.std.specs.HashMap as hash;
ghost use Rattle.std.specs.HashMap.{Updates, spare};
ghost use Rattle.vat_tables.specs.Exports.{node_eq};
ghost use Rattle.vat_tables.specs.Index.{found, index_room, FindsNone, FindsSame, Refinds, number_of, OneMore, OneFewer, fields_found, FieldsSame, FieldsMore, FieldsFewer};

use crate::numbered::Numbered;
use rpc_machine::Node;
use rpc_machine::rpc_msg::Memory;
use std::alloc::Global;
use std::collections::HashMap;

/// Ids of nodes. A number is found quicker than a whole node, so the nodes that are one number are kept by it, each kind
/// apart.
#[derive(Drop)]
pub(crate) struct NodeIndex {
    objects: Numbered<u32>,
    promises: Numbered<u32>,
    imports: Numbered<u32>,
    hashed: HashMap<Node, u32>,
    // How many fields of each outcome are among the hashed, if there are any.
    fields: Numbered<u32>,
}

#[cold]
#[inline(never)]
fn get_hashed(hashed: &HashMap<Node, u32>, node: &Node) -> Option<u32>
    ensures { result ≡ hash.get node_eq hashed.now node.now }
{
    hashed.get(node).copied()
}

#[cold]
#[inline(never)]
fn add_hashed(hashed: &mut HashMap<Node, u32>, node: &Node, id: u32) -> Result<(), Memory>
    ensures updates { OnOk result (Updates node_eq hashed.old hashed.new node.now (Some id)) }
    ensures succeeds { 0 < spare hashed.old → IsOk result }
    ensures spare { spare hashed.old ≤ spare hashed.new + 1 }
    ensures same { OnErr result (hashed.new.entries ≡ hashed.old.entries) }
{
    match hashed.insert(*node, id) {
        Ok(_) => Ok(()),
        Err(_) => Err(Memory),
    }
}

#[cold]
#[inline(never)]
fn remove_hashed(hashed: &mut HashMap<Node, u32>, node: &Node)
    ensures updates { Updates node_eq hashed.old hashed.new node.now None }
    ensures spare { spare hashed.old ≤ spare hashed.new }
{
    hashed.remove(node);
}

fn add_number(numbers: &mut Numbered<u32>, number: u64, id: u32) -> Result<(), Memory>
    requires { map.get numbers.old.entries number ≡ None }
    ensures ok { OnOk result (numbers.new.entries ≡ map.insert numbers.old.entries number id) }
    ensures had_room { 0 < numbers.old.room → IsOk result }
    ensures room { numbers.old.room ≤ numbers.new.room + 1 }
    ensures same { OnErr result (numbers.new.entries ≡ numbers.old.entries) }
{
    match numbers.add(number, id) {
        Ok(()) => Ok(()),
        Err(_) => Err(Memory),
    }
}

// Fields are named seldom, so what counts them stands apart.
#[cold]
#[inline(never)]
fn add_field(
    hashed: &mut HashMap<Node, u32>,
    fields: &mut Numbered<u32>,
    node: &Node,
    outcome: u64,
    id: u32,
) -> Result<(), Memory>
    requires { number_of (map.get fields.old.entries outcome) < 4294967295 }
    ensures updates { OnOk result (Updates node_eq hashed.old hashed.new node.now (Some id)) }
    ensures counted { OnOk result (OneMore fields.old.entries fields.new.entries outcome) }
    ensures succeeds { 0 < spare hashed.old → 0 < fields.old.room → IsOk result }
    ensures spare { spare hashed.old ≤ spare hashed.new + 1 }
    ensures room { fields.old.room ≤ fields.new.room + 1 }
    ensures same { OnErr result (hashed.new.entries ≡ hashed.old.entries) }
    ensures same_fields { OnErr result (fields.new.entries ≡ fields.old.entries) }
{
    fields.reserve(1)?;
    add_hashed(hashed, node, id)?;
    count_field(fields, outcome);
    Ok(())
}

#[cold]
#[inline(never)]
fn remove_field(
    hashed: &mut HashMap<Node, u32>,
    fields: &mut Numbered<u32>,
    node: &Node,
    outcome: u64,
)
    ensures updates { Updates node_eq hashed.old hashed.new node.now None }
    ensures counted { OneFewer fields.old.entries fields.new.entries outcome }
    ensures spare { spare hashed.old ≤ spare hashed.new }
    ensures room { fields.old.room ≤ fields.new.room }
{
    remove_hashed(hashed, node);
    uncount_field(fields, outcome);
}

fn count_field(fields: &mut Numbered<u32>, outcome: u64)
    requires room { 0 < fields.old.room }
    requires fits { number_of (map.get fields.old.entries outcome) < 4294967295 }
    ensures counted { OneMore fields.old.entries fields.new.entries outcome }
    ensures room { fields.old.room ≤ fields.new.room + 1 }
{
    let Some(count) = fields.get(outcome) else {
        let Ok(()) = fields.add(outcome, 1) else {
            unreachable!()
        };
        return;
    };
    let more = count.saturating_add(1);
    fields.set(outcome, more);
}

fn uncount_field(fields: &mut Numbered<u32>, outcome: u64)
    ensures counted { OneFewer fields.old.entries fields.new.entries outcome }
    ensures room { fields.old.room ≤ fields.new.room }
{
    let Some(count) = fields.get(outcome) else {
        return;
    };
    let fewer = count.saturating_sub(1);
    if fewer == 0 {
        fields.remove(outcome);
        return;
    }
    fields.set(outcome, fewer);
}

impl NodeIndex {
    pub(crate) fn new(alloc: Global) -> Self
        ensures none { FindsNone (found result) }
        ensures no_fields { (outcome : ℕ) → fields_found result outcome ≡ 0 }
    {
        NodeIndex {
            objects: Numbered::new(alloc),
            promises: Numbered::new(alloc),
            imports: Numbered::new(alloc),
            hashed: HashMap::new(alloc),
            fields: Numbered::new(alloc),
        }
    }

    /// Makes room for so many more nodes of each kind.
    pub(crate) fn reserve(&mut self, more: usize) -> Result<(), Memory>
        ensures same { FindsSame (found self.old) (found self.new) }
        ensures same_fields { FieldsSame (fields_found self.old) (fields_found self.new) }
        ensures ok { OnOk result (more ≤ index_room self.new) }
    {
        self.objects.reserve(more)?;
        self.promises.reserve(more)?;
        self.imports.reserve(more)?;
        self.fields.reserve(more)?;
        match self.hashed.reserve(more) {
            Ok(()) => Ok(()),
            Err(_) => Err(Memory),
        }
    }

    pub(crate) fn get(&self, node: &Node) -> Option<u32>
        ensures { result ≡ found self.now node.now }
    {
        match node {
            Node::Object(object) => self.objects.get(object.0).copied(),
            Node::Promise(key) => self.promises.get(*key).copied(),
            Node::Import(id) => self.imports.get(id.0 as u64).copied(),
            _ => get_hashed(&self.hashed, node),
        }
    }

    /// How many fields of the outcome have an id.
    pub(crate) fn fields_of(&self, outcome: u64) -> usize
        ensures { result ≡ fields_found self.now outcome }
    {
        match self.fields.get(outcome) {
            Some(count) => *count as usize,
            None => 0,
        }
    }

    /// Gives a node an id that has none.
    pub(crate) fn add(&mut self, node: &Node, id: u32) -> Result<(), Memory>
        requires free { found self.old node.now ≡ None }
        requires fits { (outcome : ℕ) → fields_found self.old outcome < 4294967295 }
        ensures ok { OnOk result (Refinds (found self.old) (found self.new) node.now (Some id)) }
        ensures fields { OnOk result (FieldsMore (fields_found self.old) (fields_found self.new) node.now) }
        ensures had_room { 0 < index_room self.old → IsOk result }
        ensures room { index_room self.old ≤ index_room self.new + 1 }
        ensures same { OnErr result (FindsSame (found self.old) (found self.new)) }
        ensures same_fields { OnErr result (FieldsSame (fields_found self.old) (fields_found self.new)) }
    {
        match node {
            Node::Object(object) => add_number(&mut self.objects, object.0, id),
            Node::Promise(key) => add_number(&mut self.promises, *key, id),
            Node::Import(import) => add_number(&mut self.imports, import.0 as u64, id),
            Node::Field(outcome, _) => {
                add_field(&mut self.hashed, &mut self.fields, node, *outcome, id)
            }
            _ => add_hashed(&mut self.hashed, node, id),
        }
    }

    pub(crate) fn remove(&mut self, node: &Node)
        ensures removed { Refinds (found self.old) (found self.new) node.now None }
        ensures fields { FieldsFewer (fields_found self.old) (fields_found self.new) node.now }
        ensures room { index_room self.old ≤ index_room self.new }
    {
        match node {
            Node::Object(object) => {
                self.objects.remove(object.0);
            }
            Node::Promise(key) => {
                self.promises.remove(*key);
            }
            Node::Import(id) => {
                self.imports.remove(id.0 as u64);
            }
            Node::Field(outcome, _) => {
                remove_field(&mut self.hashed, &mut self.fields, node, *outcome);
            }
            _ => remove_hashed(&mut self.hashed, node),
        }
    }
}
