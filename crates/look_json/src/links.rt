//! Which earlier messages a message belongs to, by what the books keep before it.
ghost use Rattle.std.specs.Prelude.{◌≡◌};
ghost use Rattle.look_books.specs.Ends.{kept_of};
ghost use Rattle.look_json.specs.Links as links;

use look_books::End;
use rpc_codec::{Envelope, Heading};
use rpc_msg::{
    Descriptor, Disembargo, DisembargoContext, EmbargoId, ExportId, Message, PlainMessage,
    QuestionId, ResolvedTo, Return, ReturnBody, Target,
};

/// The message that asked the question with that id: the open one, or the last one that is not.
fn asked_in(end: &End, question: QuestionId) -> Option<u64>
    ensures { result ≡ links.asked_in (kept_of end.now) question }
{
    match end.questions.get(&question.0) {
        Some(open) => Some(open.number),
        None => match end.closed.get(&question.0) {
            Some(closed) => Some(closed.number),
            None => None,
        },
    }
}

/// The message that asked the question with that id, if it is not answered.
fn unanswered_in(end: &End, question: QuestionId) -> Option<u64>
    ensures { result ≡ links.unanswered_in (kept_of end.now) question }
{
    let open = end.questions.get(&question.0)?;
    match &open.returned {
        None => Some(open.number),
        Some(_) => None,
    }
}

/// The message that asked the question with that id, if it is not finished.
fn unfinished_in(end: &End, question: QuestionId) -> Option<u64>
    ensures { result ≡ links.unfinished_in (kept_of end.now) question }
{
    let open = end.questions.get(&question.0)?;
    match open.finished {
        None => Some(open.number),
        Some(_) => None,
    }
}

/// The message that first gave an export, if it is held.
fn given_in(end: &End, export: ExportId) -> Option<u64>
    ensures { result ≡ links.given_in (kept_of end.now) export }
{
    match end.exports.get(&export.0) {
        Some(held) => Some(held.given.number),
        None => None,
    }
}

/// The message that began an embargo, if it is under way.
fn embargo_in(end: &End, embargo: EmbargoId) -> Option<u64>
    ensures { result ≡ links.embargo_in (kept_of end.now) embargo }
{
    end.embargoes.get(&embargo.0).copied()
}

fn about_disembargo(heard: &End, sent: &Disembargo) -> Option<u64>
    ensures { result ≡ links.about_disembargo (kept_of heard.now) sent.now.context }
{
    match sent.context {
        DisembargoContext::SenderLoopback(_) => None,
        DisembargoContext::ReceiverLoopback(embargo) => embargo_in(heard, embargo),
    }
}

fn about_plain(own: &End, heard: &End, message: &PlainMessage) -> Option<u64>
    ensures { result ≡ links.about_plain (kept_of own.now) (kept_of heard.now) message.now }
{
    match message {
        PlainMessage::Return(said) => unanswered_in(heard, said.answer),
        PlainMessage::Finish(finish) => unfinished_in(own, finish.question),
        PlainMessage::Resolve(resolve) => given_in(own, resolve.promise),
        PlainMessage::Release(release) => given_in(heard, release.export),
        PlainMessage::Disembargo(sent) => about_disembargo(heard, sent),
        _ => None,
    }
}

/// Of a message that came back.
fn about_back(heard: &End, message: &PlainMessage) -> Option<u64>
    ensures { result ≡ links.about_back (kept_of heard.now) message.now }
{
    match message {
        PlainMessage::Bootstrap(question) => unanswered_in(heard, *question),
        PlainMessage::Call(call) => unanswered_in(heard, call.question),
        _ => None,
    }
}

fn about_unknown(heard: &End, heading: Heading) -> Option<u64>
    ensures { result ≡ links.about_unknown (kept_of heard.now) heading }
{
    match heading {
        Heading::Answers {
            answer,
            no_finish_needed: _,
        } => unanswered_in(heard, answer),
        _ => None,
    }
}

/// The earlier message that a message is about.
pub(crate) fn about(own: &End, heard: &End, envelope: &Envelope, heading: Heading) -> Option<u64>
    ensures { result ≡ links.about (kept_of own.now) (kept_of heard.now) envelope.now heading }
{
    match envelope {
        Envelope::Message(Message::Plain(message)) => about_plain(own, heard, message),
        Envelope::Message(Message::Unimplemented(message)) => about_back(heard, message),
        Envelope::TailCall(_) => None,
        Envelope::SentElsewhere(said) => unanswered_in(heard, said.answer),
        Envelope::TakenFromOther(said) => unanswered_in(heard, said.answer),
        Envelope::Unknown(_) => about_unknown(heard, heading),
    }
}

/// The message that asked the question, or first gave the export, which a target names.
fn of_target(own: &End, heard: &End, target: &Target) -> Option<u64>
    ensures { result ≡ links.of_target (kept_of own.now) (kept_of heard.now) target.now }
{
    match target {
        Target::ImportedCap(export) => given_in(heard, *export),
        Target::PromisedAnswer(question, _) => asked_in(own, *question),
    }
}

fn target_of_disembargo(own: &End, heard: &End, sent: &Disembargo) -> Option<u64>
    ensures { result ≡ links.target_of_disembargo (kept_of own.now) (kept_of heard.now) sent.now.target sent.now.context }
{
    match sent.context {
        DisembargoContext::SenderLoopback(_) => of_target(own, heard, &sent.target),
        DisembargoContext::ReceiverLoopback(_) => None,
    }
}

fn target_of_plain(own: &End, heard: &End, message: &PlainMessage) -> Option<u64>
    ensures { result ≡ links.target_of_plain (kept_of own.now) (kept_of heard.now) message.now }
{
    match message {
        PlainMessage::Call(call) => of_target(own, heard, &call.target),
        PlainMessage::Disembargo(sent) => target_of_disembargo(own, heard, sent),
        _ => None,
    }
}

/// The earlier message that the target of a message is of.
pub(crate) fn target_of(own: &End, heard: &End, envelope: &Envelope) -> Option<u64>
    ensures { result ≡ links.target_of (kept_of own.now) (kept_of heard.now) envelope.now }
{
    match envelope {
        Envelope::Message(Message::Plain(message)) => target_of_plain(own, heard, message),
        Envelope::Message(Message::Unimplemented(_)) => None,
        Envelope::TailCall(call) => of_target(own, heard, &call.target),
        Envelope::SentElsewhere(_) => None,
        Envelope::TakenFromOther(said) => asked_in(own, said.question),
        Envelope::Unknown(_) => None,
    }
}

fn descriptors_of_return(said: &Return) -> &[Descriptor]
    ensures { result.now ≡ links.descriptors_of_body said.now.body }
{
    match &said.body {
        ReturnBody::Results(_, descriptors) => descriptors.as_slice(),
        _ => &[],
    }
}

fn descriptors_of_plain(message: &PlainMessage) -> &[Descriptor]
    ensures { result.now ≡ links.descriptors_of_plain message.now }
{
    match message {
        PlainMessage::Call(call) => call.descriptors.as_slice(),
        PlainMessage::Return(said) => descriptors_of_return(said),
        PlainMessage::Resolve(resolve) => match &resolve.to {
            ResolvedTo::Cap(descriptor) => std::slice::from_ref(descriptor),
            ResolvedTo::Exception(_) => &[],
        },
        _ => &[],
    }
}

/// The descriptors of a message.
pub(crate) fn descriptors_of(envelope: &Envelope) -> &[Descriptor]
    ensures { result.now ≡ links.descriptors_of envelope.now }
{
    match envelope {
        Envelope::Message(Message::Plain(message)) => descriptors_of_plain(message),
        Envelope::TailCall(call) => call.descriptors.as_slice(),
        _ => &[],
    }
}

/// The message that first gave an export of its sender: an earlier one, or message `number`, which gives it.
fn given_by(own: &End, export: ExportId, number: u64) -> u64
    ensures { result ≡ links.given_by (kept_of own.now) export number }
{
    match given_in(own, export) {
        Some(given) => given,
        None => number,
    }
}

/// The message that first gave what a descriptor of message `number` names, or asked the question that it names.
pub(crate) fn of_descriptor(
    own: &End,
    heard: &End,
    number: u64,
    descriptor: &Descriptor,
) -> Option<u64>
    ensures { result ≡ links.of_descriptor (kept_of own.now) (kept_of heard.now) number descriptor.now }
{
    match descriptor {
        Descriptor::None => None,
        Descriptor::SenderHosted(export) => Some(given_by(own, *export, number)),
        Descriptor::SenderPromise(export) => Some(given_by(own, *export, number)),
        Descriptor::ReceiverHosted(export) => given_in(heard, *export),
        Descriptor::ReceiverAnswer(question, _) => asked_in(own, *question),
    }
}
