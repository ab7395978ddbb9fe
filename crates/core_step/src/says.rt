ghost use Rattle.std.specs.Prelude.{◌≡◌, ◌-◌, ◌<◌, [], ◌∷◌, Some, IfNone, IfSome};
ghost use Rattle.rpc_machine.specs.Progress.{send, echo, tell_delivery, tell_ended, arises};
ghost use Rattle.core_step.specs.InProgress.{progress_of, IsReady, with_slack};

use crate::step::Step;
use rpc_journal::{Delivery, Ended};
use rpc_machine::Value;
use rpc_msg::PlainMessage;

/// Sends a message. Takes no memory, but one of the slack, as all of these do.
pub fn send(step: &mut Step, message: PlainMessage)
    requires ready { IsReady step.old }
    requires slack { 0 < step.old.store.slack }
    ensures said { progress_of step.new ≡ send (progress_of step.old) message }
    ensures store { step.new.store ≡ with_slack step.old.store (step.old.store.slack - 1) }
    ensures ready { IsReady step.new }
{
    match step.outbox.send(message) {
        Ok(()) => step.store.slack -= 1,
        Err(_) => unreachable!(),
    }
}

/// Sends a message back as not understood.
pub fn echo(step: &mut Step, message: PlainMessage)
    requires ready { IsReady step.old }
    requires slack { 0 < step.old.store.slack }
    ensures said { progress_of step.new ≡ echo (progress_of step.old) message }
    ensures store { step.new.store ≡ with_slack step.old.store (step.old.store.slack - 1) }
    ensures ready { IsReady step.new }
{
    match step.outbox.echo(message) {
        Ok(()) => step.store.slack -= 1,
        Err(_) => unreachable!(),
    }
}

/// Tells the application of a call that reached one of its objects.
pub fn tell_delivery(step: &mut Step, delivery: Delivery)
    requires ready { IsReady step.old }
    requires slack { 0 < step.old.store.slack }
    ensures said { progress_of step.new ≡ tell_delivery (progress_of step.old) delivery }
    ensures store { step.new.store ≡ with_slack step.old.store (step.old.store.slack - 1) }
    ensures ready { IsReady step.new }
{
    match step.outbox.deliver(delivery) {
        Ok(()) => step.store.slack -= 1,
        Err(_) => unreachable!(),
    }
}

/// Tells the application how one of its calls ended.
pub fn tell_ended(step: &mut Step, ended: Ended)
    requires ready { IsReady step.old }
    requires slack { 0 < step.old.store.slack }
    ensures said { progress_of step.new ≡ tell_ended (progress_of step.old) ended }
    ensures store { step.new.store ≡ with_slack step.old.store (step.old.store.slack - 1) }
    ensures ready { IsReady step.new }
{
    match step.outbox.end(ended) {
        Ok(()) => step.store.slack -= 1,
        Err(_) => unreachable!(),
    }
}

/// Puts an outcome that is known now behind those that are to be settled.
pub fn arises(step: &mut Step, key: u64, value: Value)
    requires ready { IsReady step.old }
    requires slack { 0 < step.old.store.slack }
    ensures said { progress_of step.new ≡ arises (progress_of step.old) key value }
    ensures store { step.new.store ≡ with_slack step.old.store (step.old.store.slack - 1) }
    ensures ready { IsReady step.new }
{
    step.arisen.push(key, value);
    step.store.slack -= 1;
}

/// Takes out the next outcome that is to be settled, if there is one. Takes no memory, and nothing of the slack.
pub fn next_arisen(step: &mut Step) -> Option<(u64, Value)>
    requires { IsReady step.old }
    ensures some { IfSome result (λ next. progress_of step.old ≡ record (progress_of step.new) { arisen = next ∷ (progress_of step.new).arisen }) }
    ensures none { IfNone result ((progress_of step.new ≡ progress_of step.old) × ((progress_of step.old).arisen ≡ [])) }
    ensures store { step.new.store ≡ step.old.store }
    ensures ready { IsReady step.new }
{
    step.arisen.pop()
}
