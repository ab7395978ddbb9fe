ghost use Rattle.std.specs.Prelude.{◌≡◌, None, Some, [], OnOk, IfErr};
ghost use Rattle.std.specs.List.{list_any};
ghost use Rattle.std.specs.FinMap as map;
ghost use Rattle.rpc_machine.specs.Numbers.{fault_number, unknown_export};
ghost use Rattle.rpc_machine.specs.Faults.{is_foreign, is_missing, given_by};
ghost use Rattle.rpc_journal.specs.History.{if_so};
ghost use Rattle.core_store.specs.Holding.{state_of, IsSound};
ghost use Rattle.core_step_checks.specs.Parts.{before_echoed, before_unimplemented, before_plain, fault_before, fault_behind};

use crate::descriptors::has_export;
use crate::faults::{
    fault_before_call, fault_before_finish, fault_before_return, fault_behind_call,
    fault_of_bootstrap, fault_of_disembargo, fault_of_release, fault_of_resolve,
};
use core_store::Store;
use rpc_machine::{Fault, Level};
use rpc_msg::{Descriptor, Message, PlainMessage, QuestionId, ResolvedTo};

/// Whether a vat of that level doesn't understand a message: it sends it back.
pub fn is_foreign(level: Level, message: &PlainMessage) -> bool
    ensures { result ≡ is_foreign level message.now }
{
    match level {
        Level::One => false,
        Level::Zero => match message {
            PlainMessage::Resolve(_) => true,
            PlainMessage::Release(_) => true,
            PlainMessage::Disembargo(_) => true,
            _ => false,
        },
    }
}

fn fault_before_plain(store: &Store, message: &PlainMessage) -> Result<(), Fault>
    requires { IsSound store.now }
    ensures ok { OnOk result (before_plain (state_of store.now) message.now ≡ None) }
    ensures err { IfErr result (λ f. before_plain (state_of store.now) message.now ≡ Some (fault_number f)) }
{
    match message {
        PlainMessage::Abort(_) => Err(Fault::PeerAbort),
        PlainMessage::Bootstrap(question) => fault_of_bootstrap(store, *question),
        PlainMessage::Call(call) => fault_before_call(store, call),
        PlainMessage::Return(said) => fault_before_return(store, said),
        PlainMessage::Finish(finish) => fault_before_finish(store, finish.question),
        PlainMessage::Resolve(resolve) => fault_of_resolve(store, resolve),
        PlainMessage::Release(release) => fault_of_release(store, *release),
        PlainMessage::Disembargo(disembargo) => fault_of_disembargo(store, *disembargo),
        PlainMessage::Other(_) => Ok(()),
    }
}

/// The fault of a question that came back, before the ids that it gave are looked at.
pub fn fault_before_echoed(store: &Store, question: QuestionId) -> Result<(), Fault>
    ensures ok { OnOk result (before_echoed (map.get store.now.questions.entries question.0) ≡ None) }
    ensures err { IfErr result (λ f. before_echoed (map.get store.now.questions.entries question.0) ≡ Some (fault_number f)) }
{
    let Some(found) = store.questions.get(question) else {
        return Err(Fault::UnknownQuestion);
    };
    match found.returned {
        Some(_) => Err(Fault::UnknownQuestion),
        None => Ok(()),
    }
}

// The export that a Resolve gave is still there.
fn fault_before_resolved(store: &Store, to: &ResolvedTo) -> Result<(), Fault>
    ensures ok { OnOk result (if_so (list_any (is_missing (state_of store.now)) (given_by to.now)) unknown_export ≡ None) }
    ensures err { IfErr result (λ f. if_so (list_any (is_missing (state_of store.now)) (given_by to.now)) unknown_export ≡ Some (fault_number f)) }
{
    match to {
        ResolvedTo::Cap(Descriptor::SenderHosted(id)) => has_export(store, *id),
        ResolvedTo::Cap(Descriptor::SenderPromise(id)) => has_export(store, *id),
        ResolvedTo::Cap(_) => Ok(()),
        ResolvedTo::Exception(_) => Ok(()),
    }
}

fn fault_before_unimplemented(store: &Store, message: &PlainMessage) -> Result<(), Fault>
    ensures ok { OnOk result (before_unimplemented (state_of store.now) message.now ≡ None) }
    ensures err { IfErr result (λ f. before_unimplemented (state_of store.now) message.now ≡ Some (fault_number f)) }
{
    match message {
        PlainMessage::Bootstrap(question) => fault_before_echoed(store, *question),
        PlainMessage::Call(call) => fault_before_echoed(store, call.question),
        PlainMessage::Resolve(resolve) => fault_before_resolved(store, &resolve.to),
        PlainMessage::Release(_) => Ok(()),
        _ => Err(Fault::UnimplementedAnswer),
    }
}

/// The fault of a received message before its descriptors and its flag are looked at.
pub fn fault_before(store: &Store, message: &Message) -> Result<(), Fault>
    requires { IsSound store.now }
    ensures ok { OnOk result (fault_before (state_of store.now) message.now ≡ None) }
    ensures err { IfErr result (λ f. fault_before (state_of store.now) message.now ≡ Some (fault_number f)) }
{
    match message {
        Message::Plain(plain) => {
            if is_foreign(store.level, plain) {
                Ok(())
            } else {
                fault_before_plain(store, plain)
            }
        }
        Message::Unimplemented(plain) => fault_before_unimplemented(store, plain),
    }
}

/// The fault of a received message behind its descriptors, except for that of its flag: a Call would have to wait although no
/// more may.
pub fn fault_behind(store: &Store, message: &Message) -> Result<(), Fault>
    requires sound { IsSound store.now }
    requires handed_out { store.now.waits.taken ≡ [] }
    ensures ok { OnOk result (fault_behind (state_of store.now) message.now ≡ None) }
    ensures err { IfErr result (λ f. fault_behind (state_of store.now) message.now ≡ Some (fault_number f)) }
{
    match message {
        Message::Plain(PlainMessage::Call(call)) => fault_behind_call(store, &call.target),
        _ => Ok(()),
    }
}
