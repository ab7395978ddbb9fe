//! Which own calls are open.
ghost use Rattle.std.specs.Prelude.{◌≡◌, ◌<◌, [], ◌∷◌, ◌++◌, IsTrue, OnOk, IfSome, IfNone};
ghost use Rattle.vat_connection.specs.OwnCalls.{IsCutOff, IsReason, Rise, finished_by, followed, let_go, without};

use rpc_journal::{Ended, Outcome};
use rpc_machine::{Command, Granted};
use rpc_msg::{CallId, Exception, ExceptionKind, Items, Memory, Text};
use std::alloc::Global;
use std::collections::VecDeque;
use std::marker::Model;

/// The own calls that are open, in the order in which they were made: seen by contracts as their numbers, and how many more have
/// a place.
#[derive(Drop)]
pub(crate) struct OpenCalls {
    calls: VecDeque<CallId>,
    // Whether the numbers rise. A core gives out rising ones, so they do; a number is then found by halving.
    rise: bool,
}

impl Model for OpenCalls {
    ghost use Rattle.std.specs.Prelude.{◌≡◌, ℕ, ◌-◌, IsTrue, List};
    ghost use Rattle.std.specs.VecDeque.{deque_len, deque_capacity};
    ghost use Rattle.vat_connection.specs.OwnCalls.{Rise};
    ghost use Rattle.rpc_msg.specs.declared.ids.CallId.{CallId};

    ghost Value = { List CallId × ℕ };

    ghost view = { λ a. (a.calls.items, deque_capacity a.calls - deque_len a.calls) };

    ghost invariant = { λ a. IsTrue a.rise → Rise a.calls.items };
}

impl OpenCalls {
    /// None. Takes no memory.
    pub(crate) fn new(alloc: Global) -> Self
        ensures { result.0 ≡ [] }
    {
        OpenCalls {
            calls: VecDeque::new(alloc),
            rise: true,
        }
    }

    /// Makes a place for one more.
    pub(crate) fn reserve(&mut self) -> Result<(), Memory>
        ensures same { self.new.0 ≡ self.old.0 }
        ensures ok { OnOk result (0 < self.new.1) }
    {
        match self.calls.reserve(1) {
            Ok(()) => return Ok(()),
            Err(_) => return Err(Memory),
        }
    }

    /// A call was made, and has a place. Takes no memory.
    pub(crate) fn add(&mut self, id: CallId)
        requires { 0 < self.old.1 }
        ensures { self.new.0 ≡ self.old.0 ++ id ∷ [] }
    {
        self.rise = self.rise && is_last_below(&self.calls, id);
        self.calls.push_back_reserved(id);
    }

    /// A call is open no more, if it was. Those behind it or those before it move up, whichever are fewer.
    pub(crate) fn remove(&mut self, id: CallId)
        ensures { self.new.0 ≡ without id self.old.0 }
    {
        if self.rise {
            remove_by_halving(&mut self.calls, id);
        } else {
            remove_from_all(&mut self.calls, id);
        }
    }

    /// A command was done, that lets that call go, if any, and granted that; a call that it made has a place. Takes no memory.
    pub(crate) fn follow(&mut self, finished: Option<CallId>, granted: Granted)
        requires { 0 < self.old.1 }
        ensures { self.new.0 ≡ followed self.old.0 finished granted }
    {
        match granted {
            Granted::Call(id) => self.add(id),
            _other => self.let_go(finished),
        }
    }

    fn let_go(&mut self, finished: Option<CallId>)
        ensures { self.new.0 ≡ let_go self.old.0 finished }
    {
        if let Some(id) = finished {
            self.remove(id);
        }
    }

    /// Takes the oldest out, if there is one.
    pub(crate) fn pop(&mut self) -> Option<CallId>
        ensures oldest { IfSome result (λ id. self.old.0 ≡ id ∷ self.new.0) }
        ensures none { IfNone result ((self.old.0 ≡ []) × (self.new.0 ≡ [])) }
    {
        self.calls.pop_front()
    }
}

// Whether the last call has a lower number than this one, if there is one.
fn is_last_below(calls: &VecDeque<CallId>, id: CallId) -> bool
    ensures { Rise calls.now.items → IsTrue result → Rise (calls.now.items ++ id ∷ []) }
{
    match calls.back() {
        None => true,
        Some(last) => last.0 < id.0,
    }
}

fn remove_by_halving(calls: &mut VecDeque<CallId>, id: CallId)
    requires { Rise calls.old.items }
    ensures { calls.new.items ≡ without id calls.old.items }
{
    let Ok(at) = calls.binary_search_by_key(&id.0, |call| call.0) else {
        return;
    };
    let _ = calls.remove(at);
}

#[cold]
#[inline(never)]
fn remove_from_all(calls: &mut VecDeque<CallId>, id: CallId)
    ensures { calls.new.items ≡ without id calls.old.items }
{
    calls.retain(|call| call.0 != id.0);
}

/// The call that a command lets go, if it does.
pub(crate) fn finished_by(command: &Command) -> Option<CallId>
    ensures { result ≡ finished_by command.now }
{
    match command {
        Command::Finish(id) => Some(*id),
        _other => None,
    }
}

/// How a call ends whose vat went down.
pub(crate) fn cut_off(alloc: Global, call: CallId) -> Ended
    ensures is_cut_off { IsCutOff result }
    ensures call { result.call ≡ call }
{
    Ended {
        call,
        outcome: Outcome::Exception(Exception {
            kind: ExceptionKind::Disconnected,
            reason: reason(alloc),
        }),
        refs: Items::new(alloc),
    }
}

fn reason(alloc: Global) -> Text
    ensures { IsReason result }
{
    match Text::new(alloc, "the connection ended") {
        Ok(text) => text,
        Err(_) => Text::from_string(String::new(alloc)),
    }
}
