//! What is to be said of the messages of a conversation, one behind the other.
use look_books::{Books, Breach, GivenBack, Lost, Moment, Over, Unresolved, Use};
use look_pieces::Side;
use rpc_codec::{Envelope, Heading};
use rpc_msg::{
    Descriptor, Disembargo, DisembargoContext, EmbargoId, ExportId, Finish, Message, Path,
    PlainMessage, QuestionId, Release, Resolve, ResolvedTo, Return, ReturnBody, Target,
};
use std::alloc::Global;
use std::test::Fail;

const QUESTION: QuestionId = QuestionId(7);

const EXPORT: ExportId = ExportId(3);

const EMBARGO: EmbargoId = EmbargoId(5);

fn canceled() -> PlainMessage {
    PlainMessage::Return(Return {
        answer: QUESTION,
        release_param_caps: false,
        body: ReturnBody::Canceled,
    })
}

fn finish() -> PlainMessage {
    PlainMessage::Finish(Finish {
        question: QUESTION,
        release_result_caps: true,
    })
}

fn release(count: u32) -> PlainMessage {
    PlainMessage::Release(Release {
        export: EXPORT,
        count,
    })
}

fn resolve() -> PlainMessage {
    PlainMessage::Resolve(Resolve {
        promise: ExportId(4),
        to: ResolvedTo::Cap(Descriptor::SenderHosted(EXPORT)),
    })
}

fn disembargo() -> PlainMessage {
    PlainMessage::Disembargo(Disembargo {
        target: Target::PromisedAnswer(QUESTION, Path::root()),
        context: DisembargoContext::SenderLoopback(EMBARGO),
    })
}

fn disembargo_back() -> PlainMessage {
    PlainMessage::Disembargo(Disembargo {
        target: Target::ImportedCap(EXPORT),
        context: DisembargoContext::ReceiverLoopback(EMBARGO),
    })
}

/// Who says what, and what breaks the protocol of it.
type Step = (Side, PlainMessage, Option<Breach>);

fn right(side: Side, message: PlainMessage) -> Step {
    (side, message, None)
}

fn wrong(side: Side, message: PlainMessage, breach: Breach) -> Step {
    (side, message, Some(breach))
}

fn conversation(alloc: Global) -> Result<Vec<Step>, Fail> {
    let (client, server) = (Side::Client, Side::Server);
    let none_there = Breach::TooMany(GivenBack::Itself, 1, EXPORT, 0);
    Ok(vec![in alloc;
        right(client, PlainMessage::Bootstrap(QUESTION)),
        wrong(
            client,
            PlainMessage::Bootstrap(QUESTION),
            Breach::InUse(QUESTION, 1, None)
        ),
        right(server, canceled()),
        wrong(server, canceled(), Breach::AnswersAgain(QUESTION, 3)),
        right(client, finish()),
        wrong(
            client,
            finish(),
            Breach::FinishesNone(QUESTION, Over::Since(5))
        ),
        wrong(
            client,
            disembargo(),
            Breach::NotAsked(Use::Target, QUESTION, Lost::Finished(5))
        ),
        right(server, disembargo_back()),
        wrong(client, release(1), none_there),
        wrong(
            server,
            resolve(),
            Breach::ResolvesNone(ExportId(4), Unresolved::NeverPromised)
        ),
        right(client, release(1)),
        wrong(client, release(1), none_there),
    ]?)
}

#[test]
fn breaches_are_found(rt: HostRuntime) -> Result<(), Fail> {
    let mut books = Books::new(rt.alloc());
    let mut number: u64 = 0;
    for (side, message, breach) in conversation(rt.alloc())? {
        number = number.saturating_add(1);
        let moment = Moment {
            number,
            time: None,
            size: 40,
        };
        let envelope = Envelope::Message(Message::Plain(message));
        let found = books.judge(side, &envelope, Heading::Other)?;
        assert_eq!(&rt;
            found.breaches.as_slice().first().copied(),
            breach,
            "message {number}"
        );
        books.take(side, moment, envelope, Heading::Other)?;
    }
    Ok(())
}
