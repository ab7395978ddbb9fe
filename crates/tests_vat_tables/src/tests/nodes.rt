//! The nodes by which exports are kept.
use rpc_machine::{Node, Reason};
use rpc_msg::{ExportId, ObjectId, Path, QuestionId};

#[test]
fn nodes_of_two_kinds_are_two(rt: HostRuntime) {
    let nodes = [
        Node::Object(ObjectId(1)),
        Node::Promise(1),
        Node::Field(1, Path::root()),
        Node::Import(ExportId(1)),
        Node::Pipe(QuestionId(1), Path::root()),
        Node::Broken(Reason::NullCapability),
    ];
    for (i, left) in nodes.iter().enumerate() {
        for (j, right) in nodes.iter().enumerate() {
            assert!(rt; (left == right) == (i == j), "at {i} and {j}");
        }
    }
}
