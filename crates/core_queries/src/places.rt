ghost use Rattle.std.specs.Prelude.{◌≡◌};
ghost use Rattle.std.specs.FinMap as map;
ghost use Rattle.core_store.specs.Holding.{state_of, IsSound};
ghost use Rattle.core_queries.specs.Places.{embargoed_reference, import_kind, is_unresolved, kind_as_given, kind_of, leads_to, place_of};

use core_store::{Store, settle};
use rpc_machine::{Import, Node, Reason, Refusal, SenderKind};
use rpc_msg::{EmbargoId, ExportId, ObjectId, Path, QuestionId, RefId};

/// Where calls through a reference go.
#[derive(Clone, Copy, Debug, PartialEq, Eq, Drop)]
pub enum Place {
    /// To an object of this vat's application.
    Own(ObjectId),
    /// They wait for a promise that this vat's application did not settle yet.
    OwnPromise,
    /// They wait for the results of a call that went to this vat's application.
    OwnCall,
    /// To what the peer exports by that id; and whether that is a promise that no Resolve has settled yet. Two references that
    /// lead to one import lead to one object of the peer.
    Import(ExportId, bool),
    /// To what stands at that path of the results of a question to the peer.
    Answer(QuestionId, Path),
    /// Nowhere: each call through it fails.
    Broken(Reason),
}

/// What the peer exports by an id.
#[derive(Clone, Copy, Debug, PartialEq, Eq, Drop)]
pub enum ImportKind {
    /// An object.
    Hosted,
    /// A promise that no Resolve has settled yet.
    Unresolved,
    /// A promise that a Resolve has settled, or broken.
    Resolved,
}

/// Where calls through a reference go, which is where its head settles; and whether they wait under an embargo before. `Down`
/// if the vat is down, else `UnknownRef` if there is no such reference. The work grows with the links on the way; it is constant
/// once the way was made short.
pub fn leads_to(store: &Store, reference: RefId) -> Result<(Place, bool), Refusal>
    requires { IsSound store.now }
    ensures { result ≡ leads_to (state_of store.now) reference }
{
    let None = store.down else {
        return Err(Refusal::Down);
    };
    let Some(entry) = store.refs.get(reference.0) else {
        return Err(Refusal::UnknownRef);
    };
    let end = settle(store, entry.head);
    Ok((place_of(store, end), entry.embargo.is_some()))
}

/// What the peer exports by that id, if there is such an import.
pub fn import_kind(store: &Store, id: ExportId) -> Option<ImportKind>
    ensures { result ≡ import_kind (map.get (state_of store.now).imports id.0) }
{
    let import = store.imports.get(id.0)?;
    Some(kind_of(import))
}

/// The reference whose calls wait under the embargo, if there is such an embargo. Constant work.
pub fn embargoed_reference(store: &Store, id: EmbargoId) -> Option<RefId>
    ensures { result ≡ embargoed_reference (map.get (state_of store.now).embargoes id.0) }
{
    let (reference, _) = store.waits.embargo(id)?;
    Some(reference)
}

fn kind_of(import: &Import) -> ImportKind
    ensures { result ≡ kind_of import.now.kind import.now.resolution }
{
    match &import.resolution {
        Some(_) => ImportKind::Resolved,
        None => kind_as_given(import.kind),
    }
}

fn kind_as_given(kind: SenderKind) -> ImportKind
    ensures { result ≡ kind_as_given kind }
{
    match kind {
        SenderKind::Hosted => ImportKind::Hosted,
        SenderKind::Promise => ImportKind::Unresolved,
    }
}

// Whether it is a promise that no Resolve has settled yet.
fn is_unresolved(store: &Store, id: ExportId) -> bool
    ensures { result ≡ is_unresolved (import_kind (map.get (state_of store.now).imports id.0)) }
{
    matches!(import_kind(store, id), Some(ImportKind::Unresolved))
}

// What the application is told of where a node settles.
fn place_of(store: &Store, node: Node) -> Place
    ensures { result ≡ place_of (state_of store.now) node }
{
    match node {
        Node::Object(object) => Place::Own(object),
        Node::Promise(_) => Place::OwnPromise,
        Node::Field(_, _) => Place::OwnCall,
        Node::Import(id) => Place::Import(id, is_unresolved(store, id)),
        Node::Pipe(question, path) => Place::Answer(question, path),
        Node::Broken(reason) => Place::Broken(reason),
    }
}
