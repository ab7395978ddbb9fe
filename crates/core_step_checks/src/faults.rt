ghost use Rattle.std.specs.Prelude.{◌≡◌, None, Some, [], true, false, nat_eq, length, OnOk, IfErr};
ghost use Rattle.std.specs.FinMap as map;
ghost use Rattle.rpc_msg.specs.declared.message.PlainMessage.TheVariants as plain;
ghost use Rattle.rpc_machine.specs.declared.fault.Fault.TheVariants as fault;
ghost use Rattle.rpc_machine.specs.Numbers.{fault_number};
ghost use Rattle.rpc_machine.specs.Payloads.{caps_in};
ghost use Rattle.rpc_machine.specs.Nodes.{settle, is_wire};
ghost use Rattle.rpc_machine.specs.Faults.{target_fault, target_node, plain_fault, held_fault};
ghost use Rattle.core_store.specs.Holding.{state_of, IsSound};
ghost use Rattle.core_step_checks.specs.Parts.{before_call, before_body, before_return, before_finish, may_not_resolve};

use crate::descriptors::{fault_of_only, has_answer, has_export};
use core_store::{Store, settle};
use rpc_machine::{Fault, Node, Reason, SenderKind};
use rpc_msg::{
    Call, Descriptor, Disembargo, DisembargoContext, EmbargoId, ExportId, Finish, Items, Payload,
    QuestionId, Release, Resolve, ResolvedTo, Return, ReturnBody, Target,
};
use vat_tables::POOL_LIMIT;

// ---- Single checks

fn is_no_answer(store: &Store, id: QuestionId) -> Result<(), Fault>
    ensures ok { OnOk result (map.contains_key store.now.answers.entries id.0 ≡ false) }
    ensures err { IfErr result (λ f. (f ≡ fault.QuestionInUse) × (map.contains_key store.now.answers.entries id.0 ≡ true)) }
{
    match store.answers.get(id.0) {
        None => Ok(()),
        Some(_) => Err(Fault::QuestionInUse),
    }
}

// What the target names is there.
fn has_target(store: &Store, target: &Target) -> Result<(), Fault>
    ensures ok { OnOk result (target_fault (state_of store.now) target.now ≡ None) }
    ensures err { IfErr result (λ f. target_fault (state_of store.now) target.now ≡ Some (fault_number f)) }
{
    match target {
        Target::ImportedCap(id) => has_export(store, *id),
        Target::PromisedAnswer(id, _) => has_answer(store, *id),
    }
}

/// The node for which a target stands; a broken one if what it names is not there.
pub fn target_node(store: &Store, target: &Target) -> Node
    ensures { result ≡ target_node (state_of store.now) target.now }
{
    match target {
        Target::ImportedCap(id) => {
            let Some(export) = store.exports.get(*id) else {
                return Node::Broken(Reason::NullCapability);
            };
            export.node
        }
        Target::PromisedAnswer(id, path) => {
            let Some(answer) = store.answers.get(id.0) else {
                return Node::Broken(Reason::NullCapability);
            };
            Node::Field(answer.outcome, path.fields())
        }
    }
}

// As many capabilities as descriptors.
fn has_descriptors(payload: &Payload, descriptors: &Items<Descriptor>) -> Result<(), Fault>
    ensures ok { OnOk result (nat_eq (caps_in payload.now) (length descriptors.now) ≡ true) }
    ensures err { IfErr result (λ f. (f ≡ fault.BadPayload) × (nat_eq (caps_in payload.now) (length descriptors.now) ≡ false)) }
{
    if payload.caps() as usize == descriptors.len() {
        Ok(())
    } else {
        Err(Fault::BadPayload)
    }
}

fn has_embargo(store: &Store, id: EmbargoId) -> Result<(), Fault>
    ensures ok { OnOk result (map.contains_key store.now.waits.embargoes id.0 ≡ true) }
    ensures err { IfErr result (λ f. (f ≡ fault.UnknownEmbargo) × (map.contains_key store.now.waits.embargoes id.0 ≡ false)) }
{
    match store.waits.embargo(id) {
        Some(_) => Ok(()),
        None => Err(Fault::UnknownEmbargo),
    }
}

// The target leads back to the peer's side.
fn settles_to_wire(store: &Store, target: &Target) -> Result<(), Fault>
    requires { IsSound store.now }
    ensures ok { OnOk result (is_wire (settle (state_of store.now) (target_node (state_of store.now) target.now)) ≡ true) }
    ensures err { IfErr result (λ f. (f ≡ fault.DisembargoNotLoopback) × (is_wire (settle (state_of store.now) (target_node (state_of store.now) target.now)) ≡ false)) }
{
    match settle(store, target_node(store, target)) {
        Node::Import(_) => Ok(()),
        Node::Pipe(_, _) => Ok(()),
        _ => Err(Fault::DisembargoNotLoopback),
    }
}

// An import that may still have a Resolve, or none.
fn may_resolve(store: &Store, id: ExportId) -> Result<(), Fault>
    ensures ok { OnOk result (may_not_resolve (map.get store.now.imports.entries id.0) ≡ None) }
    ensures err { IfErr result (λ f. may_not_resolve (map.get store.now.imports.entries id.0) ≡ Some (fault_number f)) }
{
    let Some(import) = store.imports.get(id.0) else {
        return Ok(());
    };
    match import.kind {
        SenderKind::Hosted => Err(Fault::NotAPromise),
        SenderKind::Promise => match import.resolution {
            None => Ok(()),
            Some(_) => Err(Fault::ResolvedTwice),
        },
    }
}

// ---- Messages

/// The fault of a Bootstrap, if it is one.
pub fn fault_of_bootstrap(store: &Store, question: QuestionId) -> Result<(), Fault>
    ensures ok { OnOk result (plain_fault (state_of store.now) (plain.Bootstrap question) ≡ None) }
    ensures err { IfErr result (λ f. plain_fault (state_of store.now) (plain.Bootstrap question) ≡ Some (fault_number f)) }
{
    is_no_answer(store, question)
}

/// The fault of a Call before its descriptors are looked at.
pub fn fault_before_call(store: &Store, call: &Call) -> Result<(), Fault>
    ensures ok { OnOk result (before_call (state_of store.now) call.now ≡ None) }
    ensures err { IfErr result (λ f. before_call (state_of store.now) call.now ≡ Some (fault_number f)) }
{
    is_no_answer(store, call.question)?;
    has_target(store, &call.target)?;
    has_descriptors(&call.payload, &call.descriptors)
}

/// The fault of a Call behind its descriptors: it would have to wait although no more may.
pub fn fault_behind_call(store: &Store, target: &Target) -> Result<(), Fault>
    requires sound { IsSound store.now }
    requires handed_out { store.now.waits.taken ≡ [] }
    ensures ok { OnOk result (held_fault (state_of store.now) target.now ≡ None) }
    ensures err { IfErr result (λ f. held_fault (state_of store.now) target.now ≡ Some (fault_number f)) }
{
    if store.waits.held() < POOL_LIMIT {
        return Ok(());
    }
    match settle(store, target_node(store, target)) {
        Node::Promise(_) => Err(Fault::HeldLimit),
        Node::Field(_, _) => Err(Fault::HeldLimit),
        _ => Ok(()),
    }
}

fn fault_before_body(body: &ReturnBody) -> Result<(), Fault>
    ensures ok { OnOk result (before_body body.now ≡ None) }
    ensures err { IfErr result (λ f. before_body body.now ≡ Some (fault_number f)) }
{
    match body {
        ReturnBody::Results(payload, descriptors) => has_descriptors(payload, descriptors),
        ReturnBody::Exception(_) => Ok(()),
        ReturnBody::Canceled => Ok(()),
    }
}

/// The fault of a Return before its descriptors and its flag are looked at.
pub fn fault_before_return(store: &Store, said: &Return) -> Result<(), Fault>
    ensures ok { OnOk result (before_return said.now.body (map.get store.now.questions.entries said.now.answer.0) ≡ None) }
    ensures err { IfErr result (λ f. before_return said.now.body (map.get store.now.questions.entries said.now.answer.0) ≡ Some (fault_number f)) }
{
    let Some(question) = store.questions.get(said.answer) else {
        return Err(Fault::UnknownQuestion);
    };
    match question.returned {
        Some(_) => Err(Fault::UnknownQuestion),
        None => fault_before_body(&said.body),
    }
}

/// The fault of a Finish before its flag is looked at.
pub fn fault_before_finish(store: &Store, question: QuestionId) -> Result<(), Fault>
    ensures ok { OnOk result (before_finish (map.get store.now.answers.entries question.0) ≡ None) }
    ensures err { IfErr result (λ f. before_finish (map.get store.now.answers.entries question.0) ≡ Some (fault_number f)) }
{
    match store.answers.get(question.0) {
        Some(answer) => {
            if answer.finished {
                Err(Fault::UnknownAnswer)
            } else {
                Ok(())
            }
        }
        None => Err(Fault::UnknownAnswer),
    }
}

/// The fault of a Resolve, if it is one.
pub fn fault_of_resolve(store: &Store, resolve: &Resolve) -> Result<(), Fault>
    ensures ok { OnOk result (plain_fault (state_of store.now) (plain.Resolve resolve.now) ≡ None) }
    ensures err { IfErr result (λ f. plain_fault (state_of store.now) (plain.Resolve resolve.now) ≡ Some (fault_number f)) }
{
    may_resolve(store, resolve.promise)?;
    match &resolve.to {
        ResolvedTo::Cap(descriptor) => fault_of_only(store, *descriptor),
        ResolvedTo::Exception(_) => Ok(()),
    }
}

/// The fault of a Release, if it is one.
pub fn fault_of_release(store: &Store, release: Release) -> Result<(), Fault>
    ensures ok { OnOk result (plain_fault (state_of store.now) (plain.Release release) ≡ None) }
    ensures err { IfErr result (λ f. plain_fault (state_of store.now) (plain.Release release) ≡ Some (fault_number f)) }
{
    let Some(export) = store.exports.get(release.export) else {
        return Err(Fault::UnknownExport);
    };
    if release.count == 0 || export.count < release.count {
        Err(Fault::OverRelease)
    } else {
        Ok(())
    }
}

/// The fault of a Disembargo, if it is one.
pub fn fault_of_disembargo(store: &Store, disembargo: Disembargo) -> Result<(), Fault>
    requires { IsSound store.now }
    ensures ok { OnOk result (plain_fault (state_of store.now) (plain.Disembargo disembargo) ≡ None) }
    ensures err { IfErr result (λ f. plain_fault (state_of store.now) (plain.Disembargo disembargo) ≡ Some (fault_number f)) }
{
    match disembargo.context {
        DisembargoContext::SenderLoopback(_) => {
            has_target(store, &disembargo.target)?;
            settles_to_wire(store, &disembargo.target)
        }
        DisembargoContext::ReceiverLoopback(id) => has_embargo(store, id),
    }
}
