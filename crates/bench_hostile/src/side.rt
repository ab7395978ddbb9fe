//! A core, and the messages that its peer sends.

use crate::astray::Astray;
use crate::contents::{fields, null_with};
use crate::played::Played;
use rpc_machine::{CallCommand, Effects, Level, Refusal};
use rpc_msg::{
    Call, CallId, Descriptor, ExportId, Finish, Items, Message, ObjectId, Path, Payload,
    PlainMessage, PromiseId, QuestionId, RefId, Release, Return, ReturnBody, Stamp, Target, TaskId,
    Vat,
};
use std::alloc::Global;
use vat_core::Core;

/// What the peer gives at first.
const OBJECT: ExportId = ExportId(7);

/// What `begin` plays.
pub(crate) const BEGUN: Played = Played {
    steps: 6,
    sent: 4,
    passed: 2,
    flags: 0,
    delivered: 1,
};

/// A core of vat a, and what it has played.
#[derive(Drop)]
pub(crate) struct Side {
    pub(crate) alloc: Global,
    pub(crate) played: Played,
    core: Core,
}

impl Side {
    pub(crate) fn new(alloc: Global) -> Result<Side, Astray> {
        let core = Core::new(alloc, Vat::A, Level::One, Some(ObjectId(0)))?;
        Ok(Side {
            alloc,
            played: Played::nothing(),
            core,
        })
    }

    // A step was taken.
    fn took(&mut self, effects: Effects) -> Result<(), Astray> {
        let down = effects.down;
        self.played.add(&effects);
        self.core.recycle(effects);
        match down {
            Some(number) => Err(Astray::Down(number)),
            None => Ok(()),
        }
    }

    // A step was taken, or refused.
    fn did(&mut self, done: Result<Effects, Refusal>) -> Result<(), Astray> {
        match done {
            Ok(effects) => self.took(effects),
            Err(refusal) => Err(Astray::Refused(refusal)),
        }
    }

    fn receive(&mut self, message: PlainMessage) -> Result<(), Astray> {
        let effects = self.core.receive(Message::Plain(message));
        self.took(effects)
    }

    /// The vat imports an object, to which its first reference leads; and the peer has an answer of it, 1, of which the field
    /// 0 leads to that object.
    pub(crate) fn begin(&mut self) -> Result<(), Astray> {
        self.import()?;
        self.receive(PlainMessage::Bootstrap(QuestionId(0)))?;
        self.calls(1, 0, Path::root(), Items::new(self.alloc))?;
        let payload = fields(self.alloc, 0, 1)?;
        let refs = Items::one(self.alloc, RefId(0))?;
        self.answer(TaskId(0), payload, refs)
    }

    // The vat asks for the peer's object, and gets it.
    fn import(&mut self) -> Result<(), Astray> {
        let (call, effects) = self.core.bootstrap()?;
        self.took(effects)?;
        let payload = Payload::root_capability(self.alloc)?;
        let object = Items::one(self.alloc, Descriptor::SenderHosted(OBJECT))?;
        self.returns(payload, object, false)?;
        self.finish(call)
    }

    /// The peer's call of that question, to a place of the answer of another.
    pub(crate) fn calls(
        &mut self,
        question: u32,
        of: u32,
        path: Path,
        descriptors: Items<Descriptor>,
    ) -> Result<(), Astray> {
        let payload = null_with(self.alloc, descriptors.len())?;
        self.receive(PlainMessage::Call(Call {
            question: QuestionId(question),
            target: Target::PromisedAnswer(QuestionId(of), path),
            interface: 1,
            method: 1,
            payload,
            descriptors,
            stamp: Stamp {
                vat: Vat::B,
                reference: RefId(0),
                index: 0,
            },
        }))
    }

    /// The peer's Return of the vat's only open question.
    pub(crate) fn returns(
        &mut self,
        payload: Payload,
        descriptors: Items<Descriptor>,
        release_param_caps: bool,
    ) -> Result<(), Astray> {
        self.receive(PlainMessage::Return(Return {
            answer: QuestionId(0),
            release_param_caps,
            body: ReturnBody::Results(payload, descriptors),
        }))
    }

    /// The peer's Return of that question of the vat.
    pub(crate) fn returns_to(
        &mut self,
        question: u32,
        payload: Payload,
        descriptors: Items<Descriptor>,
    ) -> Result<(), Astray> {
        self.receive(PlainMessage::Return(Return {
            answer: QuestionId(question),
            release_param_caps: false,
            body: ReturnBody::Results(payload, descriptors),
        }))
    }

    /// The peer's Finish of a question, whose results it keeps.
    pub(crate) fn finishes(&mut self, question: u32) -> Result<(), Astray> {
        self.receive(PlainMessage::Finish(Finish {
            question: QuestionId(question),
            release_result_caps: false,
        }))
    }

    /// The peer's Release of an export that was given once.
    pub(crate) fn releases(&mut self, export: ExportId) -> Result<(), Astray> {
        self.receive(PlainMessage::Release(Release { export, count: 1 }))
    }

    /// The application answers a task.
    pub(crate) fn answer(
        &mut self,
        task: TaskId,
        payload: Payload,
        refs: Items<RefId>,
    ) -> Result<(), Astray> {
        match self.core.answer(task, payload, refs) {
            Ok(effects) => self.took(effects),
            Err(refused) => Err(Astray::Refused(refused.refusal)),
        }
    }

    /// The application calls through a reference, and passes others.
    pub(crate) fn call(&mut self, reference: RefId, refs: Items<RefId>) -> Result<CallId, Astray> {
        let call = self.command(reference, refs)?;
        match self.core.call(call) {
            Ok((id, effects)) => {
                self.took(effects)?;
                Ok(id)
            }
            Err(refused) => Err(Astray::Refused(refused.refusal)),
        }
    }

    /// The same call, which has to be refused at a limit.
    pub(crate) fn call_in_vain(
        &mut self,
        reference: RefId,
        refs: Items<RefId>,
    ) -> Result<(), Astray> {
        match self.call(reference, refs) {
            Ok(_) => Err(Astray::NotRefused),
            Err(Astray::Refused(Refusal::Full)) => Ok(()),
            Err(astray) => Err(astray),
        }
    }

    fn command(&self, reference: RefId, refs: Items<RefId>) -> Result<CallCommand, Astray> {
        let payload = null_with(self.alloc, refs.len())?;
        Ok(CallCommand {
            reference,
            interface: 1,
            method: 1,
            payload,
            refs,
        })
    }

    /// The application has no more use for a call.
    pub(crate) fn finish(&mut self, call: CallId) -> Result<(), Astray> {
        let done = self.core.finish(call);
        self.did(done)
    }

    pub(crate) fn host(&mut self, object: u64) -> Result<RefId, Astray> {
        Ok(self.core.host(ObjectId(object))?)
    }

    pub(crate) fn drop_ref(&mut self, reference: RefId) -> Result<(), Astray> {
        let done = self.core.drop_ref(reference);
        self.did(done)
    }

    pub(crate) fn promise(&mut self) -> Result<(PromiseId, RefId), Astray> {
        Ok(self.core.promise()?)
    }

    pub(crate) fn resolve(&mut self, promise: PromiseId, reference: RefId) -> Result<(), Astray> {
        let done = self.core.resolve(promise, reference);
        self.did(done)
    }

    pub(crate) fn advance(&mut self, reference: RefId) -> Result<(), Astray> {
        let (_advanced, effects) = self.core.advance(reference)?;
        self.took(effects)
    }
}
