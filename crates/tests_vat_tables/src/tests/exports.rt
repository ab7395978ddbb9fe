//! Exports that are named, released and closed, and names at the limit.
use rpc_machine::Node;
use rpc_msg::{ExportId, ObjectId, Path};
use std::alloc::Global;
use std::process::Abort;
use vat_tables::{Exports, PeerFault, TABLE_LIMIT, TableFault};

#[derive(Clone, Copy)]
enum Step {
    IsEmpty,
    Reserve(usize),
    Name(Node, Result<ExportId, TableFault>),
    Count(ExportId, Option<u32>),
    Len(usize),
    Release(ExportId, u32, Result<Option<Node>, PeerFault>),
    Close(ExportId, Node),
}

fn holds(exports: &mut Exports, step: &Step) -> bool {
    match step {
        Step::IsEmpty => exports.is_empty(),
        Step::Reserve(more) => exports.reserve(*more).is_ok(),
        Step::Name(node, wanted) => exports.name(node) == *wanted,
        Step::Count(id, wanted) => count(exports, *id) == *wanted,
        Step::Len(wanted) => exports.len() == *wanted,
        Step::Release(id, count, wanted) => exports.release(*id, *count) == *wanted,
        Step::Close(id, wanted) => closes(exports, *id, wanted),
    }
}

fn count(exports: &Exports, id: ExportId) -> Option<u32> {
    match exports.get(id) {
        Some(export) => Some(export.count),
        None => None,
    }
}

fn closes(exports: &mut Exports, id: ExportId, node: &Node) -> bool {
    match exports.close(id) {
        Some(export) => export.node == *node,
        None => false,
    }
}

fn hold(rt: &impl Abort, exports: &mut Exports, steps: &[Step]) {
    for (at, step) in steps.iter().enumerate() {
        assert!(rt; holds(exports, step), "step {at}");
    }
}

fn name(exports: &mut Exports, node: &Node) -> Option<ExportId> {
    exports.name(node).ok()
}

fn meets_limit(exports: &Exports, nodes: &[Node]) -> bool {
    exports.meets_limit(nodes)
}

fn counts_are(alloc: Global, exports: &Exports, wanted: &[(ExportId, u32)]) -> bool {
    match exports.counts(alloc) {
        Ok(counts) => counts.as_slice() == wanted,
        Err(_) => false,
    }
}

const OBJECT: Node = Node::Object(ObjectId(0));

const NEW: Node = Node::Promise(1);

/// An object is named twice and a field once; what is released too often, and what is named again.
#[test]
fn a_node_keeps_its_export(rt: HostRuntime) {
    let mut exports = Exports::new(rt.alloc());
    keeps_its_export(&rt, rt.alloc(), &mut exports);
}

fn keeps_its_export(rt: &impl Abort, alloc: Global, exports: &mut Exports) {
    let field = Node::Field(3, Path::root());
    hold(rt, exports, &[Step::IsEmpty, Step::Reserve(1)]);
    let Some(id) = name(exports, &OBJECT) else {
        panic!(rt; "refused");
    };
    hold(rt, exports, &[Step::Name(OBJECT, Ok(id))]);
    let Some(other) = name(exports, &field) else {
        panic!(rt; "refused");
    };
    assert!(rt; other != id);
    assert!(rt; counts_are(alloc, exports, &[(id, 2), (other, 1)]));
    let steps = [
        Step::Release(id, 1, Ok(None)),
        Step::Count(id, Some(1)),
        Step::Release(id, 0, Err(PeerFault::OverRelease)),
        Step::Release(id, 2, Err(PeerFault::OverRelease)),
        Step::Release(ExportId(9), 1, Err(PeerFault::UnknownExport)),
        Step::Release(id, 1, Ok(Some(OBJECT))),
        Step::Release(id, 1, Err(PeerFault::UnknownExport)),
        Step::Close(other, field),
    ];
    hold(rt, exports, &steps);
    let Some(again) = name(exports, &field) else {
        panic!(rt; "refused");
    };
    hold(rt, exports, &[Step::Count(again, Some(1))]);
}

/// Names so many objects, and says by which id the first.
fn name_objects(exports: &mut Exports, objects: usize) -> Option<ExportId> {
    let mut first = None;
    for object in 0..objects {
        let id = name(exports, &Node::Object(ObjectId(object as u64)))?;
        first = first.or(Some(id));
    }
    first
}

#[test]
fn a_full_table_names_what_it_has(rt: HostRuntime) {
    let mut exports = Exports::new(rt.alloc());
    let Some(first) = name_objects(&mut exports, TABLE_LIMIT) else {
        panic!(rt; "refused");
    };
    let steps = [
        Step::Name(NEW, Err(TableFault::Full)),
        Step::Len(TABLE_LIMIT),
        Step::Name(OBJECT, Ok(first)),
        Step::Count(first, Some(2)),
    ];
    hold(&rt, &mut exports, &steps);
    assert!(rt; meets_limit(&exports, &[OBJECT, NEW]));
    assert!(rt; !meets_limit(&exports, &[OBJECT, OBJECT]));
}

#[test]
fn a_limit_is_met_by_what_comes_first(rt: HostRuntime) {
    let mut exports = Exports::new(rt.alloc());
    assert!(rt; name_objects(&mut exports, TABLE_LIMIT - 1).is_some());
    assert!(rt; !meets_limit(&exports, &[NEW, OBJECT, NEW]));
    assert!(rt; meets_limit(&exports, &[NEW, Node::Promise(2)]));
}
