//! The adapter.
ghost use Rattle.std.specs.Prelude.{◌≡◌, IfOk};
ghost use Rattle.rpc_codec.specs.Envelopes.{seen_envelope};
ghost use Rattle.rpc_msg.specs.declared.message.PlainMessage.TheVariants as plain;
ghost use Rattle.peer_kinds.specs.Kinds.{Tells as Stands};
ghost use Rattle.peer_broken.specs.Naming.{Tells};
ghost use Rattle.peer_adapter.specs.Peering.{Tables, seen_aside};
ghost use Rattle.rpc_msg.specs.declared.message.Message.TheVariants as message;
ghost use Rattle.peer_tail_calls.specs.Nulling.{IsLaidOut};
ghost use Rattle.peer_tail_calls.specs.declared.heard.Heard.TheVariants as hearing;
ghost use Rattle.peer_large.specs.Opening.{envelope, seen};
ghost use Rattle.peer_large.specs.Sparing.{Comes, Goes, comes, ending, ends, failed, fails, fresh, giving, giving_besides, giving_plain, goes, goes_plain, passes, spares, told_alone};

use crate::front::Large;
use crate::limit::Limit;
use crate::opening::Opened;
use crate::returned::Returned;
use peer_adapter::{
    Aside, Finishes, Heard, Inbound, Outbound, PeerAdapter, PeerError, Said, Standing, Told,
};
use rpc_codec::Envelope;
use rpc_msg::{
    AnswerId, ExportId, Finish, Items, Memory, Message, PlainMessage, QuestionId, Return,
    ReturnBody,
};
use std::alloc::Global;
use std::marker::Model;

/// What stands between a peer of another make, whose messages may break limits, and a vat: it has seen what each frame said and each
/// message that the vat sent, once and in their order.
#[derive(Drop)]
pub struct SparingAdapter {
    alloc: Global,
    adapter: PeerAdapter,
    returned: Returned,
}

impl Model for SparingAdapter {
    ghost use Rattle.peer_large.specs.Sparing.{Sparing, sparing_code};

    ghost Value = { Sparing };

    ghost coded = { sparing_code };

    ghost view = { λ a. record { peering = a.adapter; returned = a.returned } };
}

impl SparingAdapter {
    /// Nothing has come or gone. Takes no memory.
    pub fn new(alloc: Global) -> SparingAdapter
        ensures { result ≡ fresh }
    {
        SparingAdapter {
            alloc,
            adapter: PeerAdapter::new(alloc),
            returned: Returned::new(alloc),
        }
    }

    /// From now on the Finish of a question that the vat asks goes at once, or behind its Return. Takes no memory.
    pub fn set_finishes(&mut self, finishes: Finishes)
        ensures { self.new ≡ record self.old { peering = record (self.old.peering) { finishes = record (self.old.peering.finishes) { finishes = finishes } } } }
    {
        self.adapter.set_finishes(finishes);
    }

    /// What comes of what a frame says, as `PeerAdapter::inbound` answers of an envelope. A Call that breaks a limit is
    /// answered with an exception that says which, and the vat hears nothing of it. Of a Return that does, the vat hears such an
    /// exception, and the Finish gives back all that came with it. A `Fault` if the connection can't go on, and `Memory`: the adapter is
    /// not to be asked again then.
    pub fn inbound<
        K: Fn(ExportId) -> Option<Standing>,
        B: Fn(ExportId) -> bool,
        F: Fn(QuestionId) -> bool,
    >(
        &mut self,
        came: Opened,
        is_full: bool,
        standing: K,
        is_broken: B,
        is_finished: F,
    ) -> Result<Inbound, PeerError>
    where
        K: Drop,
        B: Drop,
        F: Drop,
        requires standing { K.IsAlwaysCallable standing }
        requires broken { B.IsAlwaysCallable is_broken }
        requires finished { F.IsAlwaysCallable is_finished }
        ensures { (t : Tables) → is_full ≡ t.is_full → Stands (K.post standing) t.standing → Tells (B.post is_broken) t.broken → Tells (F.post is_finished) t.finished
            → Comes (comes t self.old (seen came)) result self.new }
    {
        match came {
            Opened::Envelope(came) => self.pass_in(came, is_full, standing, is_broken, is_finished),
            Opened::Spared(large, limit) => {
                let spared = (large, limit);
                self.spare(spared, is_full, standing, is_broken, is_finished)
            }
        }
    }

    // A Call or a Return that breaks a limit.
    fn spare<
        K: Fn(ExportId) -> Option<Standing>,
        B: Fn(ExportId) -> bool,
        F: Fn(QuestionId) -> bool,
    >(
        &mut self,
        spared: (Large, Limit),
        is_full: bool,
        standing: K,
        is_broken: B,
        is_finished: F,
    ) -> Result<Inbound, PeerError>
    where
        K: Drop,
        B: Drop,
        F: Drop,
        requires standing { K.IsAlwaysCallable standing }
        requires broken { B.IsAlwaysCallable is_broken }
        requires finished { F.IsAlwaysCallable is_finished }
        ensures { (t : Tables) → is_full ≡ t.is_full → Stands (K.post standing) t.standing → Tells (B.post is_broken) t.broken → Tells (F.post is_finished) t.finished
            → Comes (spares t self.old spared.0 spared.1) result self.new }
    {
        let (large, limit) = spared;
        match large {
            Large::Call(question) => {
                return self.fail(question, limit, standing, is_broken, is_finished);
            }
            Large::Return(answer, flag) => {
                let ending = (answer, flag, limit);
                return self.end(ending, is_full, standing, is_broken, is_finished);
            }
        }
    }

    // An envelope that breaks no limit.
    fn pass_in<
        K: Fn(ExportId) -> Option<Standing>,
        B: Fn(ExportId) -> bool,
        F: Fn(QuestionId) -> bool,
    >(
        &mut self,
        came: Envelope,
        is_full: bool,
        standing: K,
        is_broken: B,
        is_finished: F,
    ) -> Result<Inbound, PeerError>
    where
        K: Drop,
        B: Drop,
        F: Drop,
        requires standing { K.IsAlwaysCallable standing }
        requires broken { B.IsAlwaysCallable is_broken }
        requires finished { F.IsAlwaysCallable is_finished }
        ensures { (t : Tables) → is_full ≡ t.is_full → Stands (K.post standing) t.standing → Tells (B.post is_broken) t.broken → Tells (F.post is_finished) t.finished
            → Comes (comes t self.old (envelope (seen_envelope came))) result self.new }
    {
        // Each arm by itself: a result that is handed on whole leaves its clauses to be proved by cases.
        match self
            .adapter
            .inbound(came, is_full, standing, is_broken, is_finished)
        {
            Ok(inbound) => return Ok(inbound),
            Err(refused) => return Err(refused),
        }
    }

    // A Call breaks a limit: the question is refused, and the peer is told why.
    fn fail<
        K: Fn(ExportId) -> Option<Standing>,
        B: Fn(ExportId) -> bool,
        F: Fn(QuestionId) -> bool,
    >(
        &mut self,
        question: QuestionId,
        limit: Limit,
        standing: K,
        is_broken: B,
        is_finished: F,
    ) -> Result<Inbound, PeerError>
    where
        K: Drop,
        B: Drop,
        F: Drop,
        requires standing { K.IsAlwaysCallable standing }
        requires broken { B.IsAlwaysCallable is_broken }
        requires finished { F.IsAlwaysCallable is_finished }
        ensures { (t : Tables) → Stands (K.post standing) t.standing → Tells (B.post is_broken) t.broken → Tells (F.post is_finished) t.finished
            → Comes (fails t self.old question limit) result self.new }
    {
        let asked = Envelope::Message(Message::Plain(PlainMessage::Bootstrap(question)));
        let said = failed(self.alloc, question, limit)?;
        match self
            .adapter
            .inbound(asked, true, standing, is_broken, is_finished)
        {
            Ok(_taken) => return Ok(tells(self.alloc, said)),
            Err(refused) => return Err(refused),
        }
    }

    // A Return breaks a limit: the vat hears that its call failed.
    fn end<K: Fn(ExportId) -> Option<Standing>, B: Fn(ExportId) -> bool, F: Fn(QuestionId) -> bool>(
        &mut self,
        ending: (AnswerId, bool, Limit),
        is_full: bool,
        standing: K,
        is_broken: B,
        is_finished: F,
    ) -> Result<Inbound, PeerError>
    where
        K: Drop,
        B: Drop,
        F: Drop,
        requires standing { K.IsAlwaysCallable standing }
        requires broken { B.IsAlwaysCallable is_broken }
        requires finished { F.IsAlwaysCallable is_finished }
        ensures { (t : Tables) → is_full ≡ t.is_full → Stands (K.post standing) t.standing → Tells (B.post is_broken) t.broken → Tells (F.post is_finished) t.finished
            → Comes (ends t self.old ending.0 ending.1 ending.2) result self.new }
    {
        let (answer, flag, limit) = ending;
        let heard = ended(self.alloc, answer, flag, limit)?;
        let went = is_finished(answer);
        let came = Envelope::Message(Message::Plain(heard));
        // Each arm by itself: a result that is handed on whole leaves its clauses to be proved by cases.
        match self
            .adapter
            .inbound(came, is_full, standing, is_broken, is_finished)
        {
            Ok(inbound) => {
                self.returned.note(went, answer, limit)?;
                return Ok(giving_back(inbound));
            }
            Err(refused) => return Err(refused),
        }
    }

    /// What is said to the peer for a message of the vat, and what the vat is to hear then, before anything else comes or
    /// goes, as `PeerAdapter::outbound` answers. `Memory` leaves the adapter as it was.
    pub fn outbound(&mut self, message: Message) -> Result<Outbound, Memory>
        ensures went { Goes self.old (goes self.old message) result self.new }
        ensures laid { IfOk result (λ o. IsLaidOut message) }
    {
        match message {
            Message::Plain(PlainMessage::Finish(finish)) => self.finish(finish),
            _ => self.pass(message),
        }
    }

    fn pass(&mut self, message: Message) -> Result<Outbound, Memory>
        ensures went { Goes self.old (passes self.old message) result self.new }
        ensures laid { IfOk result (λ o. IsLaidOut message) }
    {
        // Each arm by itself: a result that is handed on whole leaves its clauses to be proved by cases.
        match self.adapter.outbound(message) {
            Ok(outbound) => Ok(outbound),
            Err(refused) => Err(refused),
        }
    }

    fn finish(&mut self, finish: Finish) -> Result<Outbound, Memory>
        ensures went { Goes self.old (goes_plain self.old (plain.Finish finish)) result self.new }
        ensures laid { IfOk result (λ o. IsLaidOut (message.Plain (plain.Finish finish))) }
    {
        if !self.returned.has(finish.question) {
            return self.pass(Message::Plain(PlainMessage::Finish(finish)));
        }
        let giving = Finish {
            question: finish.question,
            release_result_caps: true,
        };
        match self
            .adapter
            .outbound(Message::Plain(PlainMessage::Finish(giving)))
        {
            Ok(outbound) => {
                self.returned.remove(finish.question);
                Ok(outbound)
            }
            Err(refused) => Err(refused),
        }
    }
}

// The Return of a Call that breaks a limit.
fn failed(alloc: Global, answer: AnswerId, limit: Limit) -> Result<Message, Memory>
    ensures { IfOk result (λ made. made ≡ failed answer limit) }
{
    let exception = limit.exception(alloc)?;
    Ok(Message::Plain(PlainMessage::Return(Return {
        answer,
        release_param_caps: true,
        body: ReturnBody::Exception(exception),
    })))
}

// What the vat hears of a Return that breaks a limit.
fn ended(
    alloc: Global,
    answer: AnswerId,
    release_param_caps: bool,
    limit: Limit,
) -> Result<PlainMessage, Memory>
    ensures { IfOk result (λ made. made ≡ ending answer release_param_caps limit) }
{
    let exception = limit.exception(alloc)?;
    Ok(PlainMessage::Return(Return {
        answer,
        release_param_caps,
        body: ReturnBody::Exception(exception),
    }))
}

// The peer is told that, and the vat hears nothing.
fn tells(alloc: Global, said: Message) -> Inbound
    ensures aside { seen_aside result.aside ≡ told_alone said }
    ensures heard { result.heard ≡ hearing.Nothing }
{
    let given_back = Items::new(alloc);
    let said = Some(Said::Message(said));
    Inbound {
        aside: Aside::Told(Told { given_back, said }),
        heard: Heard::Nothing,
    }
}

// A Finish that goes with it gives back all that came with the Return.
fn giving_back(inbound: Inbound) -> Inbound
    ensures aside { seen_aside result.aside ≡ giving_besides (seen_aside inbound.aside) }
    ensures heard { result.heard ≡ inbound.heard }
{
    let Inbound { aside, heard } = inbound;
    match aside {
        Aside::Told(told) => {
            let Told { given_back, said } = told;
            let said = giving(said);
            Inbound {
                aside: Aside::Told(Told { given_back, said }),
                heard,
            }
        }
        Aside::Unknown(original) => Inbound {
            aside: Aside::Unknown(original),
            heard,
        },
    }
}

fn giving(said: Option<Said>) -> Option<Said>
    ensures { result ≡ giving said }
{
    match said {
        Some(Said::Message(Message::Plain(message))) => {
            Some(Said::Message(Message::Plain(giving_plain(message))))
        }
        _ => said,
    }
}

fn giving_plain(message: PlainMessage) -> PlainMessage
    ensures { result ≡ giving_plain message }
{
    match message {
        PlainMessage::Finish(finish) => PlainMessage::Finish(Finish {
            question: finish.question,
            release_result_caps: true,
        }),
        _ => message,
    }
}
