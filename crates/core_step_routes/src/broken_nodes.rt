ghost use Rattle.std.specs.Prelude.{◌≡◌, ◌-◌, ◌<◌, ◌≤◌, [], length, string_bytes, string_len, string_capacity, IfOk};
ghost use Rattle.rpc_machine.specs.declared.calls.Value.TheVariants as value;
ghost use Rattle.rpc_machine.specs.Progress.{arises};
ghost use Rattle.rpc_machine.specs.Routing.{failed, reason_text};
ghost use Rattle.core_step_routes.specs.Prepared.{reason_limit};
ghost use Rattle.core_step.specs.InProgress.{progress_of, IsReady, with_slack};

use core_step::Step;
use rpc_machine::{Reason, Value, WaitingCall};
use rpc_msg::{Exception, ExceptionKind, Memory, Text};
use std::alloc::Global;

/// What the outcome of a call says that went to a node that is broken for this reason.
pub fn exception_of(reason: Reason, alloc: Global) -> Result<Exception, Memory>
    ensures { IfOk result (λ made. made ≡ failed (reason_text reason)) }
{
    let reason = Text::new(alloc, text_of(reason))?;
    Ok(Exception {
        kind: ExceptionKind::Failed,
        reason,
    })
}

/// The same, in a text that is empty and has room for it. Takes no memory.
pub(crate) fn exception_in(text: String, reason: Reason) -> Exception
    requires empty { string_bytes text ≡ [] }
    requires len { string_len text ≡ 0 }
    requires room { reason_limit ≤ string_capacity text }
    ensures { result ≡ failed (reason_text reason) }
{
    let mut said = text;
    let Ok(()) = said.push_str(text_of(reason)) else {
        unreachable!()
    };
    Exception {
        kind: ExceptionKind::Failed,
        reason: Text::from_string(said),
    }
}

fn text_of(reason: Reason) -> &'static str
    ensures value { result.now ≡ reason_text reason }
    ensures len { length result.now ≤ reason_limit }
{
    match reason {
        Reason::NullCapability => "null capability",
        Reason::NotACapability => "not a capability",
        Reason::BrokenPromise => "broken promise",
    }
}

/// A call that went to a broken node ends with that exception. Takes no memory, but one of the slack.
pub fn end_broken_kept(step: &mut Step, call: WaitingCall, exception: Exception)
    requires ready { IsReady step.old }
    requires slack { 0 < step.old.store.slack }
    ensures ended { progress_of step.new ≡ arises (progress_of step.old) call.outcome (value.Exception exception) }
    ensures store { step.new.store ≡ with_slack step.old.store (step.old.store.slack - 1) }
    ensures ready { IsReady step.new }
{
    core_step::arises(step, call.outcome, Value::Exception(exception));
}
