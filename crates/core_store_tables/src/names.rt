ghost use Rattle.std.specs.Prelude.{◌≡◌, ◌+◌, ◌<◌, ◌^◌, ℕ, cond, length, Some};
ghost use Rattle.rpc_machine.specs.declared.node.Node.{Node as AnyNode};
ghost use Rattle.rpc_machine.specs.Places.{nodes, imports_of, named_by_returned, named_by_resolution, named_by_taken};
ghost use Rattle.core_refcounts.specs.Names.{HasRoom, times_named, named, named_all, unnamed_all};
ghost use Rattle.core_store_tables.specs.Peer.{relay_noted, outcome_noted, import_noted};

use core_refcounts::Names;
use rpc_machine::{AnswerEntry, Node, Resolution, Returned, Role};
use rpc_msg::{Descriptor, ExportId, QuestionId};

// Each of these capabilities is named once more.
fn name_beside(names: &mut Names, caps: &[(Descriptor, Node)])
    requires room { HasRoom (length (nodes caps.now)) names.old }
    requires fits { (n : AnyNode) → times_named names.old n + length (nodes caps.now) < 2 ^ 64 }
    ensures { names.new ≡ named_all names.old (nodes caps.now) }
{
    for cap in caps {
        let Ok(()) = names.add(cap.1) else {
            unreachable!()
        };
    }
}

// Each of these capabilities is named once less. Apart, since a Return mostly names nothing.
#[inline(never)]
fn unname_beside(names: &mut Names, caps: &[(Descriptor, Node)])
    ensures { names.new ≡ unnamed_all names.old (nodes caps.now) }
{
    for cap in caps {
        names.sub(cap.1);
    }
}

/// What a Return said is named once more. Takes no memory if there is room for so many names.
pub fn name_returned(names: &mut Names, said: &Returned)
    requires room { HasRoom (length (named_by_returned (Some said.now))) names.old }
    requires fits { (n : AnyNode) → times_named names.old n + length (named_by_returned (Some said.now)) < 2 ^ 64 }
    ensures { names.new ≡ named_all names.old (named_by_returned (Some said.now)) }
{
    match said {
        Returned::Results(_, caps) => name_beside(names, caps),
        Returned::Exception(_) => {}
    }
}

/// What a Return said, if it came, is named once less.
#[inline(always)]
pub fn unname_returned(names: &mut Names, said: &Option<Returned>)
    ensures { names.new ≡ unnamed_all names.old (named_by_returned said.now) }
{
    match said {
        Some(Returned::Results(_, caps)) => {
            if !caps.is_empty() {
                unname_beside(names, caps);
            }
        }
        Some(Returned::Exception(_)) => {}
        None => {}
    }
}

fn count_beside(caps: &[(Descriptor, Node)]) -> usize
    ensures { result ≡ length (nodes caps.now) }
{
    caps.len()
}

/// How many capabilities a Return names.
pub fn count_returned(said: &Returned) -> usize
    ensures { result ≡ length (named_by_returned (Some said.now)) }
{
    match said {
        Returned::Results(_, caps) => count_beside(caps),
        Returned::Exception(_) => 0,
    }
}

/// Each of these imports is named once more. Takes no memory if there is room for so many names.
pub fn name_imports(names: &mut Names, ids: &[ExportId])
    requires room { HasRoom (length ids.now) names.old }
    requires fits { (n : AnyNode) → times_named names.old n + length ids.now < 2 ^ 64 }
    ensures { names.new ≡ named_all names.old (imports_of ids.now) }
{
    for id in ids {
        let Ok(()) = names.add(Node::Import(*id)) else {
            unreachable!()
        };
    }
}

/// Each of these imports is named once less.
pub fn unname_imports(names: &mut Names, ids: &[ExportId])
    ensures { names.new ≡ unnamed_all names.old (imports_of ids.now) }
{
    for id in ids {
        names.sub(Node::Import(*id));
    }
}

/// What a Resolve said is named once more. Takes no memory if there is room for one name.
pub fn name_resolution(names: &mut Names, said: &Resolution)
    requires room { HasRoom 1 names.old }
    requires fits { (n : AnyNode) → times_named names.old n + 1 < 2 ^ 64 }
    ensures { names.new ≡ named_all names.old (named_by_resolution (Some said.now)) }
{
    match said {
        Resolution::To(_, node) => name_one(names, node),
        Resolution::Exception(_) => {}
    }
}

fn name_one(names: &mut Names, node: &Node)
    requires room { HasRoom 1 names.old }
    requires fits { times_named names.old node.now + 1 < 2 ^ 64 }
    ensures { names.new ≡ named names.old node.now }
{
    let Ok(()) = names.add(*node) else {
        unreachable!()
    };
}

/// What a Resolve said, if it came, is named once less.
pub fn unname_resolution(names: &mut Names, said: &Option<Resolution>)
    ensures { names.new ≡ unnamed_all names.old (named_by_resolution said.now) }
{
    match said {
        Some(Resolution::To(_, node)) => names.sub(*node),
        Some(Resolution::Exception(_)) => {}
        None => {}
    }
}

/// What an answer names is named once less.
pub fn unname_answer(names: &mut Names, answer: &AnswerEntry)
    ensures { names.new ≡ unnamed_all names.old (named_by_taken answer.now.taken answer.now.returned) }
{
    match answer.returned {
        Some(_) => {}
        None => unname_imports(names, &answer.taken),
    }
}

/// Notes a relay's question. Takes no memory if a note has its place.
pub fn note_relay(names: &mut Names, q: QuestionId, role: Role)
    requires { 0 < names.old.questions.spare }
    ensures { names.new ≡ relay_noted names.old q.0 role }
{
    match role {
        Role::Relay(_) => {
            let Ok(()) = names.note_question(q) else {
                unreachable!()
            };
        }
        Role::Direct(_) => {}
    }
}

/// Notes an outcome that may have to go, if no place names a field of it.
pub fn note_outcome(names: &mut Names, key: u64)
    requires { 0 < names.old.outcomes.spare }
    ensures { names.new ≡ outcome_noted names.old key }
{
    if names.of_outcome(key) == 0 {
        let Ok(()) = names.note_outcome(key) else {
            unreachable!()
        };
    }
}

/// Notes an import that may have to go, if no place names it.
pub fn note_import(names: &mut Names, e: ExportId)
    requires { 0 < names.old.imports.spare }
    ensures { names.new ≡ import_noted names.old e.0 }
{
    if names.of_import(e) == 0 {
        let Ok(()) = names.note_import(e) else {
            unreachable!()
        };
    }
}

/// The node is named once more, if that is so. Takes no memory if there is room for one name.
pub fn name_if(names: &mut Names, more: bool, node: Node)
    requires room { HasRoom 1 names.old }
    requires fits { times_named names.old node + 1 < 2 ^ 64 }
    ensures { names.new ≡ cond more (named names.old node) names.old }
{
    if more {
        name_one(names, &node);
    }
}
