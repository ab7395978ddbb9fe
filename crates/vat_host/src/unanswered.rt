//! The calls of the peer that no Return answered.
ghost use Rattle.std.specs.Prelude.{◌≡◌, true, false, Some, IfSome, IfNone, OnOk, OnErr};
ghost use Rattle.std.specs.FinMap as map;
ghost use Rattle.rpc_uses.specs.Results.{cancelled};
ghost use Rattle.rpc_msg.specs.declared.ids.TaskId as id;
ghost use Rattle.vat_host.specs.Unanswered.{IsCancelledAt, NoneIsCancelledOf, answered, asked, closed, finished, followed, heard_at, none_unanswered, returned, served, served_for, told_of};

use rpc_journal::Delivery;
use rpc_machine::{Caller, Effects};
use rpc_msg::{Memory, Message, PlainMessage, QuestionId, TaskId};
use std::alloc::Global;
use std::collections::BTreeMap;
use std::marker::Model;
use vat_core::Core;
use vat_tables::Numbered;

/// The calls of the peer that no Return answered, by question.
#[derive(Drop)]
pub(crate) struct Unanswered {
    // Each with its task, once it was delivered.
    tasks: Numbered<Option<TaskId>>,
    // Those of which the Finish came, and that were not told as cancelled.
    over: BTreeMap<u64, ()>,
}

impl Model for Unanswered {
    ghost use Rattle.std.specs.FinMap as map;
    ghost use Rattle.vat_host.specs.Unanswered.{Unanswered, unanswered_code};

    ghost Value = { Unanswered };

    ghost coded = { unanswered_code };

    ghost view = { λ a. record { tasks = a.tasks.entries; over = map.from_entries a.over.entries } };
}

impl Unanswered {
    /// None. Takes no memory.
    pub(crate) fn new(alloc: Global) -> Unanswered
        ensures { result ≡ none_unanswered }
    {
        Unanswered {
            tasks: Numbered::new(alloc),
            over: BTreeMap::new(alloc),
        }
    }

    /// Notes a Call or a Finish of the peer, which comes to that core, if it is up. `Memory` leaves all as it was.
    pub(crate) fn hear(&mut self, message: &Message, core: &Core) -> Result<(), Memory>
        ensures ok { OnOk result (self.new ≡ heard_at core.now message.now self.old) }
        ensures err { OnErr result (self.new ≡ self.old) }
    {
        if core.down().is_some() {
            return Ok(());
        }
        match message {
            Message::Plain(PlainMessage::Call(call)) => self.ask(call.question),
            Message::Plain(PlainMessage::Finish(finish)) => self.finish(finish.question),
            _other => Ok(()),
        }
    }

    // A call comes.
    fn ask(&mut self, question: QuestionId) -> Result<(), Memory>
        ensures ok { OnOk result (self.new ≡ asked (map.get self.old.tasks question.0) question.0 self.old) }
        ensures err { OnErr result (self.new ≡ self.old) }
    {
        let number = question.0 as u64;
        if self.tasks.get(number).is_some() {
            return Ok(());
        }
        self.tasks.reserve(1)?;
        let Ok(()) = self.tasks.add(number, None) else {
            unreachable!()
        };
        Ok(())
    }

    // A Finish comes.
    fn finish(&mut self, question: QuestionId) -> Result<(), Memory>
        ensures ok { OnOk result (self.new ≡ finished (map.get self.old.tasks question.0) question.0 self.old) }
        ensures err { OnErr result (self.new ≡ self.old) }
    {
        let number = question.0 as u64;
        if self.tasks.get(number).is_none() {
            return Ok(());
        }
        self.over.insert(number, ())?;
        Ok(())
    }

    /// Notes what follows of a step of the core, which took it: tasks that were delivered, and Returns. Takes no memory.
    pub(crate) fn follow(&mut self, effects: &Effects, core: &Core)
        ensures { self.new ≡ followed effects.now core.now self.old }
    {
        self.serve_all(&effects.deliveries, core);
        self.answer_all(&effects.sends);
    }

    fn serve_all(&mut self, deliveries: &[Delivery], core: &Core)
        ensures { self.new ≡ served core.now deliveries.now self.old }
    {
        for delivery in deliveries {
            self.serve(core.task_caller(delivery.task), delivery.task);
        }
    }

    // A call of that caller was delivered as that task.
    fn serve(&mut self, caller: Option<Caller>, task: TaskId)
        ensures { self.new ≡ served_for caller task self.old }
    {
        let Some(Caller::Peer(question)) = caller else {
            return;
        };
        let number = question.0 as u64;
        if self.tasks.get(number).is_none() {
            return;
        }
        self.tasks.set(number, Some(task));
    }

    fn answer_all(&mut self, sends: &[Message])
        ensures { self.new ≡ answered sends.now self.old }
    {
        for message in sends {
            self.answer(message);
        }
    }

    // A message goes out.
    fn answer(&mut self, message: &Message)
        ensures { self.new ≡ returned message.now self.old }
    {
        match message {
            Message::Plain(PlainMessage::Return(said)) => self.close(said.answer.0 as u64),
            _other => {}
        }
    }

    // The call of that question is answered.
    fn close(&mut self, number: u64)
        ensures { self.new ≡ closed number self.old }
    {
        self.tasks.remove(number);
        self.over.remove(&number);
    }

    /// The first one that is cancelled, if there is one: its question, and its task. Looks at each before it that is over.
    pub(crate) fn first_cancelled(&self, core: &Core) -> Option<(u64, TaskId)>
        ensures some { IfSome result (λ found. IsCancelledAt core.now self.now found.0 found.1) }
        ensures none { IfNone result (NoneIsCancelledOf core.now self.now) }
    {
        for (number, _) in self.over.iter() {
            if let Some(task) = self.cancelled_at(core, *number) {
                return Some((*number, task));
            }
        }
        None
    }

    // The task of that question, if nobody has use for its results.
    fn cancelled_at(&self, core: &Core, number: u64) -> Option<TaskId>
        ensures some { IfSome result (λ task. (map.get self.now.tasks number ≡ Some (Some task)) × (cancelled core.now task ≡ true)) }
        ensures none { IfNone result ((task : id.TaskId) → map.get self.now.tasks number ≡ Some (Some task) → cancelled core.now task ≡ false) }
    {
        let Some(Some(task)) = self.tasks.get(number) else {
            return None;
        };
        if core.is_cancelled(*task) {
            return Some(*task);
        }
        None
    }

    /// The call of that question was told as cancelled. Takes no memory.
    pub(crate) fn tell(&mut self, number: u64)
        ensures { self.new ≡ told_of number self.old }
    {
        self.over.remove(&number);
    }
}
