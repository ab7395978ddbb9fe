//! The nodes of a request, and the names of interfaces and methods.
ghost use Rattle.std.specs.Prelude.{◌≡◌, ◌<◌, ℕ, List, length, drop, Some, None, MatchOption, IfOk, IfErr, OnOk};
ghost use Rattle.std.specs.BTreeMap.{get};
ghost use Rattle.std.specs.Ordering.{nat_cmp};
ghost use Rattle.capn_reading.specs.Reading.{tree_read};
ghost use Rattle.capn_trees.specs.Views.{view, structs_view};
ghost use Rattle.rpc_codec_parts.specs.Blocks.{seen};
ghost use Rattle.look_names.specs.Names as names;

use crate::error::SchemaError;
use crate::part::{part_of, rows_at, text_at, utf8_of};
use capn_reading::{Document, MOST_COUNTED};
use capn_trees::{Fields, Tree};
use rpc_codec_parts::Block;
use std::alloc::Global;
use std::collections::BTreeMap;

/// `Node`: the numbers of kinds in the union.
const STRUCT: u16 = 1;

const ENUM: u16 = 2;

const INTERFACE: u16 = 3;

/// What a schema says of names.
#[derive(Drop)]
pub struct Schema {
    pub(crate) request: Tree,
    places: BTreeMap<u64, usize>,
}

/// A method, by its name and the ids of the structs of its parameters and results.
#[derive(Clone, Copy, Debug, PartialEq, Eq, Drop)]
pub struct Method<'s> {
    /// Its name.
    pub name: &'s str,
    /// The struct of its parameters.
    pub params: u64,
    /// The struct of its results.
    pub results: u64,
}

/// The nodes of a request.
fn nodes_of(request: &Tree) -> &[Fields]
    ensures { structs_view result.now ≡ names.nodes_of (view request.now) }
{
    rows_at(&part_of(request), 0)
}

/// A row of a list of structs.
fn row_at(rows: &[Fields], number: usize) -> Option<Block<'_>>
    ensures { MatchOption result (names.row_at (structs_view rows.now) number ≡ None) (λ row. names.row_at (structs_view rows.now) number ≡ Some (seen row.words.now row.pointers.now)) }
{
    if number < rows.len() {
        Some(Block::of_fields(&rows[number]))
    } else {
        None
    }
}

/// What is behind a prefix of so many bytes, or the whole text if that is no text.
fn behind(text: &str, prefix: u32) -> &str
    ensures { result.now ≡ names.behind text.now prefix }
{
    let bytes = text.as_bytes();
    if bytes.len() < prefix as usize {
        return "";
    }
    match utf8_of(&bytes[prefix as usize..]) {
        Some(rest) => rest,
        None => text,
    }
}

/// Keeps the place of a node, instead of what was kept of its id.
fn note(
    places: &mut BTreeMap<u64, usize>,
    nodes: &[Fields],
    place: usize,
) -> Result<(), SchemaError>
    requires { place < length nodes.now }
    ensures { OnOk result ((id : ℕ) → get nat_cmp places.new id ≡ names.noted (names.id_in (structs_view (drop place nodes.now))) place (get nat_cmp places.old id) id) }
{
    let id = Block::of_fields(&nodes[place]).number::<u64>(0);
    places.insert(id, place)?;
    Ok(())
}

/// Where the first node of each id stands.
fn places_of(alloc: Global, nodes: &[Fields]) -> Result<BTreeMap<u64, usize>, SchemaError>
    ensures { IfOk result (λ places. (id : ℕ) → get nat_cmp places id ≡ names.place_from (structs_view nodes.now) id 0) }
{
    let mut places = BTreeMap::new(alloc);
    let mut place = nodes.len();
    while place > 0 {
        place -= 1;
        note(&mut places, nodes, place)?;
    }
    Ok(places)
}

/// The tree of a request.
fn request_in(alloc: Global, bytes: &[u8]) -> Result<Tree, SchemaError>
    ensures read { IfOk result (λ request. view request ≡ tree_read (names.request_in bytes.now)) }
    ensures why_not { IfErr result (λ why. names.WhyNot bytes.now why) }
{
    let document = match Document::read(bytes, 0, MOST_COUNTED) {
        Ok(document) => document,
        Err(fault) => return Err(SchemaError::Encoding(fault)),
    };
    let Ok(request) = document.tree(alloc) else {
        return Err(SchemaError::Memory);
    };
    Ok(request)
}

impl Schema {
    /// Reads a `CodeGeneratorRequest`, as `capnp compile -o-` writes it, of at most [`MOST_COUNTED`] words. `Encoding` if the
    /// bytes are no message, `NoNodes` if the message has no nodes.
    pub fn read(alloc: Global, bytes: &[u8]) -> Result<Schema, SchemaError>
        ensures read { IfOk result (λ schema. names.IsIndexed schema × (view schema.request ≡ tree_read (names.request_in bytes.now))) }
        ensures why_not { IfErr result (λ why. names.WhyNot bytes.now why) }
    {
        let request = match request_in(alloc, bytes) {
            Ok(request) => request,
            Err(why) => return Err(why),
        };
        let nodes = nodes_of(&request);
        if nodes.is_empty() {
            return Err(SchemaError::NoNodes);
        }
        let Ok(places) = places_of(alloc, nodes) else {
            return Err(SchemaError::Memory);
        };
        Ok(Schema { request, places })
    }

    /// The first node with that id.
    pub(crate) fn node(&self, id: u64) -> Option<Block<'_>>
        ensures { names.IsIndexed self.now → MatchOption result (names.node_of (view self.now.request) id ≡ None) (λ node. names.node_of (view self.now.request) id ≡ Some (seen node.words.now node.pointers.now)) }
    {
        let place = self.places.get(&id)?;
        row_at(nodes_of(&self.request), *place)
    }

    /// The name of the node with that id, without what it is declared in.
    pub fn name(&self, id: u64) -> Option<&str>
        ensures { names.IsIndexed self.now → MatchOption result (names.name_in (names.node_of (view self.now.request) id) ≡ None) (λ name. names.name_in (names.node_of (view self.now.request) id) ≡ Some name.now) }
    {
        let node = self.node(id)?;
        Some(behind(text_at(&node, 0), node.number(2)))
    }

    /// The method of that number of the interface with that id.
    pub fn method(&self, interface: u64, method: u16) -> Option<Method<'_>>
        ensures { names.IsIndexed self.now → MatchOption result (names.method_of (view self.now.request) interface method ≡ None) (λ found. names.method_of (view self.now.request) interface method ≡ Some (record { name = found.name.now; params = found.params; results = found.results })) }
    {
        let node = self.node(interface)?;
        let row = row_at(rows_by(INTERFACE, &node), usize::from(method))?;
        Some(Method {
            name: text_at(&row, 0),
            params: row.number(1),
            results: row.number(2),
        })
    }

    /// The rows of a node of that kind, if it is one.
    fn rows(&self, id: u64, kind: u16) -> &[Fields] {
        match self.node(id) {
            Some(node) => rows_by(kind, &node),
            None => &[],
        }
    }

    /// The fields of a struct or a group.
    pub(crate) fn fields(&self, id: u64) -> &[Fields] {
        self.rows(id, STRUCT)
    }

    /// The name of the enumerant of that number.
    pub(crate) fn enumerant(&self, id: u64, number: u16) -> Option<&str> {
        let row = row_at(self.rows(id, ENUM), usize::from(number))?;
        Some(text_at(&row, 0))
    }
}

/// The fields, enumerants or methods of a node of that kind; one of another kind has none.
fn rows_by<'s>(kind: u16, node: &Block<'s>) -> &'s [Fields]
    ensures { structs_view result.now ≡ names.rows_by kind (seen node.now.words.now node.now.pointers.now) }
{
    if node.number::<u16>(6) == kind {
        rows_at(node, 3)
    } else {
        &[]
    }
}
