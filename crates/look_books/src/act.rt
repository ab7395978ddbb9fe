//! What a message does to the books.
ghost use Rattle.std.specs.Prelude.{◌≡◌, false};
ghost use Rattle.look_books.specs.Acts.{asks_of, answers_of, seen, kind_of, number_of, kind_of_act, plain_kind, waives_return, waives_finish, call_asks, return_answers, bare_answer, bare_question, plain_does, back_does, unknown_does, does};

use rpc_codec::{Envelope, Heading};
use rpc_msg::{
    Call, Descriptor, DisembargoContext, EmbargoId, ExportId, Message, PlainMessage, QuestionId,
    ResolvedTo, Return, ReturnBody, Target,
};

/// A method of an interface.
#[derive(Clone, Copy, Debug, PartialEq, Eq, Drop)]
pub struct Method {
    /// The number of the interface.
    pub interface: u64,
    /// The number of the method in it.
    pub number: u16,
}

/// What asked a question.
#[derive(Clone, Copy, Debug, PartialEq, Eq, Drop)]
pub enum Asked {
    /// A Bootstrap.
    Bootstrap,
    /// A Call of that method.
    Call(Method),
    /// A message that is not understood, with its number in the union.
    Unknown(u16),
}

/// What a Return says.
#[derive(Clone, Copy, Debug, PartialEq, Eq, Drop)]
pub enum Outcome {
    /// `results`.
    Results,
    /// `exception`.
    Exception,
    /// `canceled`.
    Canceled,
    /// `resultsSentElsewhere`.
    SentElsewhere,
    /// `takeFromOtherQuestion`: the question of its sender whose results it takes.
    TakenFrom(QuestionId),
    /// Anything else.
    Unknown,
}

/// The kind of a message.
#[derive(Clone, Copy, Debug, PartialEq, Eq, Drop)]
pub enum Kind {
    /// `unimplemented`.
    Unimplemented,
    /// `abort`.
    Abort,
    /// `bootstrap`.
    Bootstrap,
    /// `call`.
    Call,
    /// `return`.
    Return,
    /// `finish`.
    Finish,
    /// `resolve`.
    Resolve,
    /// `release`.
    Release,
    /// `disembargo`.
    Disembargo,
    /// Anything else, by its number in the union.
    Other(u16),
}

/// A Call, a Bootstrap, or a message that asks something else.
#[derive(Clone, Copy, Drop)]
pub(crate) struct Asking<'a> {
    pub(crate) question: QuestionId,
    pub(crate) asked: Asked,
    pub(crate) target: Option<Target>,
    pub(crate) tail: bool,
    /// No Return is owed.
    pub(crate) waived: bool,
    pub(crate) descriptors: &'a [Descriptor],
}

/// A Return.
#[derive(Clone, Copy, Drop)]
pub(crate) struct Answering<'a> {
    pub(crate) question: QuestionId,
    pub(crate) flag: bool,
    pub(crate) outcome: Outcome,
    /// No Finish is owed.
    pub(crate) waived: bool,
    pub(crate) descriptors: &'a [Descriptor],
}

/// A Resolve.
#[derive(Clone, Copy, Drop)]
pub(crate) struct Resolving<'a> {
    pub(crate) promise: ExportId,
    /// None where the promise broke.
    pub(crate) descriptor: Option<&'a Descriptor>,
}

/// A message that came back.
#[derive(Clone, Copy, Drop)]
pub struct Back<'a> {
    /// Of which kind it was.
    pub kind: Kind,
    /// The question that it had asked.
    pub(crate) question: Option<QuestionId>,
    /// The descriptors of a Resolve.
    pub(crate) descriptors: &'a [Descriptor],
}

/// What a message does.
#[derive(Clone, Copy, Drop)]
pub(crate) enum Act<'a> {
    Asks(Asking<'a>),
    Answers(Answering<'a>),
    Finishes(QuestionId, bool),
    Resolves(Resolving<'a>),
    Releases(ExportId, u32),
    Disembargoes(Target, EmbargoId),
    Loops(EmbargoId),
    Aborts,
    SendsBack(Back<'a>),
    /// It is of no use to the books.
    Other(Kind),
}

impl Act<'_> {
    pub(crate) fn kind(&self) -> Kind
        ensures { result ≡ kind_of_act (seen self.now) }
    {
        match self {
            Act::Asks(asking) => match asking.asked {
                Asked::Bootstrap => Kind::Bootstrap,
                Asked::Call(_) => Kind::Call,
                Asked::Unknown(number) => Kind::of_number(number),
            },
            Act::Answers(_) => Kind::Return,
            Act::Finishes(_, _) => Kind::Finish,
            Act::Resolves(_) => Kind::Resolve,
            Act::Releases(_, _) => Kind::Release,
            Act::Disembargoes(_, _) => Kind::Disembargo,
            Act::Loops(_) => Kind::Disembargo,
            Act::Aborts => Kind::Abort,
            Act::SendsBack(_) => Kind::Unimplemented,
            Act::Other(kind) => *kind,
        }
    }
}

impl Kind {
    /// The kind with a number in the union.
    pub fn of_number(number: u16) -> Kind
        ensures { result ≡ kind_of number }
    {
        match number {
            0 => Kind::Unimplemented,
            1 => Kind::Abort,
            2 => Kind::Call,
            3 => Kind::Return,
            4 => Kind::Finish,
            5 => Kind::Resolve,
            6 => Kind::Release,
            8 => Kind::Bootstrap,
            13 => Kind::Disembargo,
            _ => Kind::Other(number),
        }
    }

    /// The number in the union.
    pub fn number(self) -> u16
        ensures { result ≡ number_of self }
    {
        match self {
            Kind::Unimplemented => 0,
            Kind::Abort => 1,
            Kind::Call => 2,
            Kind::Return => 3,
            Kind::Finish => 4,
            Kind::Resolve => 5,
            Kind::Release => 6,
            Kind::Bootstrap => 8,
            Kind::Disembargo => 13,
            Kind::Other(number) => number,
        }
    }
}

/// The kind of a message that is no Unimplemented.
pub fn kind_of_plain(message: &PlainMessage) -> Kind
    ensures { result ≡ plain_kind message.now }
{
    match message {
        PlainMessage::Abort(_) => Kind::Abort,
        PlainMessage::Bootstrap(_) => Kind::Bootstrap,
        PlainMessage::Call(_) => Kind::Call,
        PlainMessage::Return(_) => Kind::Return,
        PlainMessage::Finish(_) => Kind::Finish,
        PlainMessage::Resolve(_) => Kind::Resolve,
        PlainMessage::Release(_) => Kind::Release,
        PlainMessage::Disembargo(_) => Kind::Disembargo,
        PlainMessage::Other(number) => Kind::of_number(*number),
    }
}

fn call_of(call: &Call, tail: bool, heading: Heading) -> Asking<'_>
    ensures { asks_of result ≡ call_asks call.now tail heading }
{
    Asking {
        question: call.question,
        asked: Asked::Call(Method {
            interface: call.interface,
            number: call.method,
        }),
        target: Some(call.target),
        tail,
        waived: waives_return(heading),
        descriptors: call.descriptors.as_slice(),
    }
}

fn waives_return(heading: Heading) -> bool
    ensures { result ≡ waives_return heading }
{
    match heading {
        Heading::Asks {
            question: _,
            only_promise_pipeline,
        } => only_promise_pipeline,
        _ => false,
    }
}

fn waives_finish(heading: Heading) -> bool
    ensures { result ≡ waives_finish heading }
{
    match heading {
        Heading::Answers {
            answer: _,
            no_finish_needed,
        } => no_finish_needed,
        _ => false,
    }
}

fn return_of(said: &Return, heading: Heading) -> Answering<'_>
    ensures { answers_of result ≡ return_answers said.now heading }
{
    let (outcome, descriptors): (Outcome, &[Descriptor]) = match &said.body {
        ReturnBody::Results(_, descriptors) => (Outcome::Results, descriptors.as_slice()),
        ReturnBody::Exception(_) => (Outcome::Exception, &[]),
        ReturnBody::Canceled => (Outcome::Canceled, &[]),
    };
    Answering {
        question: said.answer,
        flag: said.release_param_caps,
        outcome,
        waived: waives_finish(heading),
        descriptors,
    }
}

/// An answer without results of its own.
fn bare_answer<'a>(
    question: QuestionId,
    flag: bool,
    outcome: Outcome,
    heading: Heading,
) -> Answering<'a>
    ensures { answers_of result ≡ bare_answer question flag outcome heading }
{
    Answering {
        question,
        flag,
        outcome,
        waived: waives_finish(heading),
        descriptors: &[],
    }
}

fn bootstrap<'a>(question: QuestionId) -> Asking<'a>
    ensures { asks_of result ≡ bare_question question Asked.Bootstrap false }
{
    Asking {
        question,
        asked: Asked::Bootstrap,
        target: None,
        tail: false,
        waived: false,
        descriptors: &[],
    }
}

fn act_of_plain(message: &PlainMessage, heading: Heading) -> Act<'_>
    ensures { seen result ≡ plain_does message.now heading }
{
    match message {
        PlainMessage::Abort(_) => Act::Aborts,
        PlainMessage::Bootstrap(question) => Act::Asks(bootstrap(*question)),
        PlainMessage::Call(call) => Act::Asks(call_of(call, false, heading)),
        PlainMessage::Return(said) => Act::Answers(return_of(said, heading)),
        PlainMessage::Finish(finish) => Act::Finishes(finish.question, finish.release_result_caps),
        PlainMessage::Resolve(resolve) => Act::Resolves(Resolving {
            promise: resolve.promise,
            descriptor: match &resolve.to {
                ResolvedTo::Cap(descriptor) => Some(descriptor),
                ResolvedTo::Exception(_) => None,
            },
        }),
        PlainMessage::Release(release) => Act::Releases(release.export, release.count),
        PlainMessage::Disembargo(sent) => match sent.context {
            DisembargoContext::SenderLoopback(id) => Act::Disembargoes(sent.target, id),
            DisembargoContext::ReceiverLoopback(id) => Act::Loops(id),
        },
        PlainMessage::Other(number) => Act::Other(Kind::of_number(*number)),
    }
}

fn back_of(message: &PlainMessage) -> Back<'_>
    ensures { seen (Act.SendsBack result) ≡ back_does message.now }
{
    let (question, descriptors): (Option<QuestionId>, &[Descriptor]) = match message {
        PlainMessage::Bootstrap(question) => (Some(*question), &[]),
        PlainMessage::Call(call) => (Some(call.question), &[]),
        PlainMessage::Resolve(resolve) => match &resolve.to {
            ResolvedTo::Cap(descriptor) => (None, std::slice::from_ref(descriptor)),
            ResolvedTo::Exception(_) => (None, &[]),
        },
        _ => (None, &[]),
    };
    Back {
        kind: kind_of_plain(message),
        question,
        descriptors,
    }
}

/// What is not understood asks and answers all the same.
fn act_of_unknown<'a>(number: u16, heading: Heading) -> Act<'a>
    ensures { seen result ≡ unknown_does number heading }
{
    match heading {
        Heading::Asks {
            question,
            only_promise_pipeline,
        } => Act::Asks(Asking {
            question,
            asked: Asked::Unknown(number),
            target: None,
            tail: false,
            waived: only_promise_pipeline,
            descriptors: &[],
        }),
        Heading::Answers {
            answer,
            no_finish_needed: _,
        } => Act::Answers(bare_answer(answer, false, Outcome::Unknown, heading)),
        Heading::Other => Act::Other(Kind::of_number(number)),
    }
}

/// What a message does, of which the heading says what the envelope leaves out.
pub(crate) fn act_of(envelope: &Envelope, heading: Heading) -> Act<'_>
    ensures { seen result ≡ does envelope.now heading }
{
    match envelope {
        Envelope::Message(Message::Plain(message)) => act_of_plain(message, heading),
        Envelope::Message(Message::Unimplemented(message)) => Act::SendsBack(back_of(message)),
        Envelope::TailCall(call) => Act::Asks(call_of(call, true, heading)),
        Envelope::SentElsewhere(said) => Act::Answers(bare_answer(
            said.answer,
            said.release_param_caps,
            Outcome::SentElsewhere,
            heading,
        )),
        Envelope::TakenFromOther(said) => Act::Answers(bare_answer(
            said.answer,
            said.release_param_caps,
            Outcome::TakenFrom(said.question),
            heading,
        )),
        Envelope::Unknown(unknown) => act_of_unknown(unknown.number, heading),
    }
}
