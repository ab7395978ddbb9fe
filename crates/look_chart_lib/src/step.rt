//! What a message does to a question or an embargo.
use rpc_codec::{Envelope, Heading};
use rpc_msg::{DisembargoContext, EmbargoId, Message, PlainMessage, QuestionId};

/// What a message does.
#[derive(Clone, Copy, Drop)]
pub(crate) enum Step {
    /// It asks a question; whether a Return is owed.
    Asks(QuestionId, bool),
    /// It answers a question of the other end; whether a Finish is owed.
    Answers(QuestionId, bool),
    /// It finishes a question.
    Finishes(QuestionId),
    /// An embargo begins.
    Begins(EmbargoId),
    /// An embargo of the other end ends.
    Lifts(EmbargoId),
    /// Nothing that lasts.
    Passes,
}

fn step_of_plain(message: &PlainMessage, heading: Heading) -> Step {
    match message {
        PlainMessage::Bootstrap(question) => Step::Asks(*question, true),
        PlainMessage::Call(call) => Step::Asks(call.question, is_return_owed(heading)),
        PlainMessage::Return(said) => Step::Answers(said.answer, is_finish_owed(heading)),
        PlainMessage::Finish(finish) => Step::Finishes(finish.question),
        PlainMessage::Disembargo(sent) => match sent.context {
            DisembargoContext::SenderLoopback(id) => Step::Begins(id),
            DisembargoContext::ReceiverLoopback(id) => Step::Lifts(id),
        },
        _ => Step::Passes,
    }
}

/// A question that comes back is answered, and was not asked.
fn step_of_back(message: &PlainMessage) -> Step {
    match message {
        PlainMessage::Bootstrap(question) => Step::Answers(*question, true),
        PlainMessage::Call(call) => Step::Answers(call.question, true),
        _ => Step::Passes,
    }
}

fn step_of_unknown(heading: Heading) -> Step {
    match heading {
        Heading::Asks {
            question,
            only_promise_pipeline,
        } => Step::Asks(question, !only_promise_pipeline),
        Heading::Answers {
            answer,
            no_finish_needed,
        } => Step::Answers(answer, !no_finish_needed),
        Heading::Other => Step::Passes,
    }
}

fn is_return_owed(heading: Heading) -> bool {
    match heading {
        Heading::Asks {
            question: _,
            only_promise_pipeline,
        } => !only_promise_pipeline,
        _ => true,
    }
}

fn is_finish_owed(heading: Heading) -> bool {
    match heading {
        Heading::Answers {
            answer: _,
            no_finish_needed,
        } => !no_finish_needed,
        _ => true,
    }
}

/// What a message does, of which the heading says what the envelope leaves out.
pub(crate) fn step_of(envelope: &Envelope, heading: Heading) -> Step {
    match envelope {
        Envelope::Message(Message::Plain(message)) => step_of_plain(message, heading),
        Envelope::Message(Message::Unimplemented(message)) => step_of_back(message),
        Envelope::TailCall(call) => Step::Asks(call.question, is_return_owed(heading)),
        Envelope::SentElsewhere(said) => Step::Answers(said.answer, is_finish_owed(heading)),
        Envelope::TakenFromOther(said) => Step::Answers(said.answer, is_finish_owed(heading)),
        Envelope::Unknown(_) => step_of_unknown(heading),
    }
}

/// Whether a message is a Return.
pub(crate) fn is_return(envelope: &Envelope, heading: Heading) -> bool {
    match envelope {
        Envelope::Message(Message::Plain(PlainMessage::Return(_))) => true,
        Envelope::SentElsewhere(_) | Envelope::TakenFromOther(_) => true,
        Envelope::Unknown(_) => matches!(step_of_unknown(heading), Step::Answers(_, _)),
        _ => false,
    }
}
