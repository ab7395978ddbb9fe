//! The adapter.
ghost use Rattle.std.specs.Prelude.{◌≡◌, [], Some, Ok, Err, IfOk, IfErr, OnOk, option_to_list};
ghost use Rattle.std.specs.Option.{option_map};
ghost use Rattle.capn_trees.specs.Views.{view};
ghost use Rattle.rpc_codec.specs.Envelopes.{seen_envelope};
ghost use Rattle.rpc_msg.specs.declared.message.Message.TheVariants as message;
ghost use Rattle.rpc_msg.specs.declared.message.PlainMessage.TheVariants as plain;
ghost use Rattle.peer_finishes.specs.Laws.{asked_by};
ghost use Rattle.peer_overload.specs.Overloading.{admitted, seen_admission};
ghost use Rattle.peer_kinds.specs.Kinds.{Tells as Stands, heard, seen_kinds, set_aside};
ghost use Rattle.peer_broken.specs.Naming.{Tells};
ghost use Rattle.peer_tail_calls.specs.Adapting as tails;
ghost use Rattle.peer_tail_calls.specs.Nulling.{IsLaidOut};
ghost use Rattle.peer_tail_calls.specs.declared.heard.Heard.TheVariants as hearing;
ghost use Rattle.peer_adapter.specs.declared.told.Aside.TheVariants as aside;
ghost use Rattle.peer_adapter.specs.Peering.{Comes, GivesBack, Goes, IsRefused, IsRole, Tables, admits, besides_of, besides_with, comes, fresh, gives, gives_plain, goes, heard_by, hears, kinds_by, passes, seen_aside};

use crate::errors::{PeerError, PeerFault};
use crate::role::{Role, role_of};
use crate::told::{Aside, Inbound, Outbound, Told};
use peer_broken::{BrokenNames, Named};
use peer_finishes::{Finishes, HeldFinishes};
use peer_kinds::{Kinds, Standing, hear_kinds};
use peer_overload::{Admission, Overload, OverloadError, overloaded};
use peer_tail_calls::{Adapter, AdapterError, Heard, Said};
use rpc_codec::{Envelope, SentElsewhere};
use rpc_msg::{ExportId, Finish, Items, Memory, Message, PlainMessage, QuestionId, Tree};
use std::alloc::Global;
use std::marker::Model;

/// What stands between a peer of another make and a vat: it has seen each envelope that came and each message that the vat
/// sent, once and in their order.
#[derive(Drop)]
pub struct PeerAdapter {
    alloc: Global,
    overload: Overload,
    names: BrokenNames,
    tails: Adapter,
    finishes: HeldFinishes,
}

impl Model for PeerAdapter {
    ghost use Rattle.peer_adapter.specs.Peering.{Peering, peering_code};

    ghost Value = { Peering };

    ghost coded = { peering_code };

    ghost view = { λ a. record { overload = a.overload; names = a.names; tails = a.tails; finishes = a.finishes } };
}

impl PeerAdapter {
    /// Nothing has come or gone. Takes no memory.
    pub fn new(alloc: Global) -> PeerAdapter
        ensures { result ≡ fresh }
    {
        PeerAdapter {
            alloc,
            overload: Overload::new(alloc),
            names: BrokenNames::new(alloc),
            tails: Adapter::new(alloc),
            finishes: HeldFinishes::new(alloc),
        }
    }

    /// From now on the Finish of a question that the vat asks goes at once, or behind its Return. Takes no memory.
    pub fn set_finishes(&mut self, finishes: Finishes)
        ensures { self.new ≡ record self.old { finishes = record (self.old.finishes) { finishes = finishes } } }
    {
        self.finishes.set(finishes);
    }

    /// What comes of an envelope for a vat that has heard all that came before and has nothing left to say. `is_full`
    /// says whether it has as many answers as it may have. Of an export of the peer, `standing` says how it stands at
    /// the vat as an import, and `is_broken` whether it is a promise that a Resolve has said to be broken.
    /// `is_finished` says of a question of the vat whether its Finish was sent. A `Fault` if the connection can't go
    /// on, and `Memory`: the adapter is not to be asked again then.
    pub fn inbound<
        K: Fn(ExportId) -> Option<Standing>,
        B: Fn(ExportId) -> bool,
        F: Fn(QuestionId) -> bool,
    >(
        &mut self,
        came: Envelope,
        is_full: bool,
        standing: K,
        is_broken: B,
        is_finished: F,
    ) -> Result<Inbound, PeerError>
    where
        K: Drop,
        B: Drop,
        F: Drop,
        requires standing { K.IsAlwaysCallable standing }
        requires broken { B.IsAlwaysCallable is_broken }
        requires finished { F.IsAlwaysCallable is_finished }
        ensures { (t : Tables) → is_full ≡ t.is_full → Stands (K.post standing) t.standing → Tells (B.post is_broken) t.broken → Tells (F.post is_finished) t.finished
            → Comes (comes t self.old (seen_envelope came)) result self.new }
    {
        let finish = self.finishes.inbound(&came);
        match self.admit(came, is_full, standing, is_broken, is_finished) {
            Ok(inbound) => Ok(finish_behind(inbound, finish)),
            Err(refused) => Err(refused),
        }
    }

    fn admit<
        K: Fn(ExportId) -> Option<Standing>,
        B: Fn(ExportId) -> bool,
        F: Fn(QuestionId) -> bool,
    >(
        &mut self,
        came: Envelope,
        is_full: bool,
        standing: K,
        is_broken: B,
        is_finished: F,
    ) -> Result<Inbound, PeerError>
    where
        K: Drop,
        B: Drop,
        F: Drop,
        requires standing { K.IsAlwaysCallable standing }
        requires broken { B.IsAlwaysCallable is_broken }
        requires finished { F.IsAlwaysCallable is_finished }
        ensures { (t : Tables) → is_full ≡ t.is_full → Stands (K.post standing) t.standing → Tells (B.post is_broken) t.broken → Tells (F.post is_finished) t.finished
            → Comes (hears t self.old (seen_envelope came)) result self.new }
    {
        match self.overload.inbound(came, is_full) {
            Ok(Admission::Admitted(came)) => self.turn(came, standing, is_broken, is_finished),
            Ok(refused) => self.refuse(refused),
            Err(OverloadError::Memory) => Err(PeerError::Memory),
            Err(OverloadError::Fault(fault)) => Err(PeerError::Fault(PeerFault::Overload(fault))),
        }
    }

    // An envelope that is admitted is heard in the kinds of the first names.
    fn turn<
        K: Fn(ExportId) -> Option<Standing>,
        B: Fn(ExportId) -> bool,
        F: Fn(QuestionId) -> bool,
    >(
        &mut self,
        came: Envelope,
        standing: K,
        is_broken: B,
        is_finished: F,
    ) -> Result<Inbound, PeerError>
    where
        K: Drop,
        B: Drop,
        F: Drop,
        requires standing { K.IsAlwaysCallable standing }
        requires broken { B.IsAlwaysCallable is_broken }
        requires finished { F.IsAlwaysCallable is_finished }
        ensures { (t : Tables) → Stands (K.post standing) t.standing → Tells (B.post is_broken) t.broken → Tells (F.post is_finished) t.finished
            → Comes (admits t self.old (admitted (seen_envelope came))) result self.new }
    {
        let kinds = hear_kinds(self.alloc, came, standing)?;
        self.hear_outcome(kinds, is_broken, is_finished)
    }

    fn hear_outcome<B: Fn(ExportId) -> bool, F: Fn(QuestionId) -> bool>(
        &mut self,
        kinds: Kinds,
        is_broken: B,
        is_finished: F,
    ) -> Result<Inbound, PeerError>
    where
        B: Drop,
        F: Drop,
        requires broken { B.IsAlwaysCallable is_broken }
        requires finished { F.IsAlwaysCallable is_finished }
        ensures { (t : Tables) → Tells (B.post is_broken) t.broken → Tells (F.post is_finished) t.finished
            → Comes (kinds_by t self.old (seen_kinds kinds)) result self.new }
    {
        match kinds {
            Kinds::Heard(came) => self.name(came, is_broken, is_finished),
            Kinds::SetAside(given) => self.set_aside(given),
        }
    }

    // One of an export is given back, if there is any.
    fn set_aside(&mut self, given: Option<ExportId>) -> Result<Inbound, PeerError>
        ensures { (t : Tables) → Comes (kinds_by t self.old (set_aside given)) result self.new }
    {
        let given_back = one_of(self.alloc, given)?;
        let told = Told {
            given_back,
            said: None,
        };
        Ok(Inbound {
            aside: Aside::Told(told),
            heard: Heard::Nothing,
        })
    }

    fn name<B: Fn(ExportId) -> bool, F: Fn(QuestionId) -> bool>(
        &mut self,
        came: Envelope,
        is_broken: B,
        is_finished: F,
    ) -> Result<Inbound, PeerError>
    where
        B: Drop,
        F: Drop,
        requires broken { B.IsAlwaysCallable is_broken }
        requires finished { F.IsAlwaysCallable is_finished }
        ensures { (t : Tables) → Tells (B.post is_broken) t.broken → Tells (F.post is_finished) t.finished
            → Comes (kinds_by t self.old (heard (seen_envelope came))) result self.new }
    {
        let named = self.names.inbound(came, is_broken, is_finished)?;
        let Named { came, given_back } = named;
        self.hear(came, given_back)
    }

    // The peer is told of a question that was refused.
    fn refuse(&mut self, admission: Admission) -> Result<Inbound, PeerError>
        requires { IsRefused admission }
        ensures { (t : Tables) → Comes (admits t self.old (seen_admission admission)) result self.new }
    {
        match admission {
            Admission::Refused(answer) => {
                let said = overloaded(self.alloc, answer)?;
                Ok(tells(self.alloc, Some(Said::Message(said))))
            }
            Admission::RefusedTail(answer) => {
                let said = SentElsewhere {
                    answer,
                    release_param_caps: true,
                };
                Ok(tells(self.alloc, Some(Said::SentElsewhere(said))))
            }
            Admission::Nothing => Ok(tells(self.alloc, None)),
            Admission::Admitted(_) => unreachable!(),
        }
    }

    fn hear(&mut self, came: Envelope, given_back: Items<ExportId>) -> Result<Inbound, PeerError>
        ensures { Comes (heard_by self.old given_back (tails.comes self.old.tails (seen_envelope came))) result self.new }
    {
        match self.tails.inbound(came) {
            Ok(inbound) => {
                let peer_tail_calls::Inbound { heard, unknown } = inbound;
                let aside = aside_of(given_back, unknown);
                Ok(Inbound { aside, heard })
            }
            Err(AdapterError::Memory) => Err(PeerError::Memory),
            Err(AdapterError::Fault(fault)) => Err(PeerError::Fault(PeerFault::Tail(fault))),
        }
    }

    /// What is said to the peer for a message of the vat, and what the vat is to hear then, before anything else comes or
    /// goes. `Memory` leaves the adapter as it was.
    pub fn outbound(&mut self, message: Message) -> Result<Outbound, Memory>
        ensures went { Goes self.old (goes self.old message) result self.new }
        ensures laid { IfOk result (λ o. IsLaidOut message) }
    {
        match role_of(&message) {
            Role::Asks(question) => self.ask(question, message),
            Role::Finishes(finish) => self.finish(finish),
            Role::Other => self.pass(message),
        }
    }

    fn ask(&mut self, question: QuestionId, message: Message) -> Result<Outbound, Memory>
        requires { asked_by message ≡ Some question }
        ensures went { Goes self.old (goes self.old message) result self.new }
        ensures laid { IfOk result (λ o. IsLaidOut message) }
    {
        let outbound = self.pass(message)?;
        let asked = self.finishes.ask(question);
        if_asked(outbound, asked)
    }

    fn finish(&mut self, finish: Finish) -> Result<Outbound, Memory>
        ensures went { Goes self.old (goes self.old (message.Plain (plain.Finish finish))) result self.new }
        ensures laid { IfOk result (λ o. IsLaidOut (message.Plain (plain.Finish finish))) }
    {
        if self.finishes.finish(finish) {
            return self.pass(Message::Plain(PlainMessage::Finish(finish)));
        }
        let told = Told {
            given_back: Items::new(self.alloc),
            said: None,
        };
        Ok(Outbound {
            told,
            heard: Heard::Nothing,
        })
    }

    fn pass(&mut self, message: Message) -> Result<Outbound, Memory>
        ensures went { Goes self.old (passes self.old (Some message)) result self.new }
        ensures laid { IfOk result (λ o. IsLaidOut message) }
    {
        let outbound = self.tails.outbound(message)?;
        let peer_tail_calls::Outbound { said, heard } = outbound;
        let given_back = self.give_back(&said);
        let told = Told { given_back, said };
        Ok(Outbound { told, heard })
    }

    // What is to be given back if that is said to the peer.
    fn give_back(&mut self, said: &Option<Said>) -> Items<ExportId>
        ensures { GivesBack self.old (gives self.old.names said.now) result self.new }
    {
        match said {
            Some(Said::Message(Message::Plain(message))) => self.give_back_plain(message),
            Some(Said::SentElsewhere(said)) => {
                self.names.returned(said.answer, said.release_param_caps)
            }
            _ => Items::new(self.alloc),
        }
    }

    fn give_back_plain(&mut self, message: &PlainMessage) -> Items<ExportId>
        ensures { GivesBack self.old (gives_plain self.old.names message.now) result self.new }
    {
        match message {
            PlainMessage::Return(said) => {
                self.names.returned(said.answer, said.release_param_caps)
            }
            PlainMessage::Finish(finish) => {
                self.names
                    .finished(finish.question, finish.release_result_caps)
            }
            _ => Items::new(self.alloc),
        }
    }
}

// What comes of a question, if it was asked.
fn if_asked(outbound: Outbound, asked: Result<(), Memory>) -> Result<Outbound, Memory>
    ensures ok { OnOk asked (result ≡ Ok outbound) }
    ensures err { IfErr asked (λ refused. result ≡ Err refused) }
{
    match asked {
        Ok(()) => Ok(outbound),
        Err(refused) => Err(refused),
    }
}

// The peer is told that, if anything, and the vat hears nothing.
fn tells(alloc: Global, said: Option<Said>) -> Inbound
    ensures aside { result.aside ≡ aside.Told (record { given_back = []; said = said }) }
    ensures heard { result.heard ≡ hearing.Nothing }
{
    let given_back = Items::new(alloc);
    Inbound {
        aside: Aside::Told(Told { given_back, said }),
        heard: Heard::Nothing,
    }
}

// What is kept to go back, or else the peer is told that one of each of these is given back.
fn aside_of(given_back: Items<ExportId>, unknown: Option<Tree>) -> Aside
    ensures { seen_aside result ≡ besides_of given_back (option_map view unknown) }
{
    match unknown {
        Some(original) => Aside::Unknown(original),
        None => Aside::Told(Told {
            given_back,
            said: None,
        }),
    }
}

// The list of it, if it is there.
fn one_of(alloc: Global, given: Option<ExportId>) -> Result<Items<ExportId>, Memory>
    ensures { IfOk result (λ items. items ≡ option_to_list given) }
{
    let Some(export) = given else {
        return Ok(Items::new(alloc));
    };
    let items = Items::one(alloc, export)?;
    Ok(items)
}

// The Finish that was held back, if any was, goes behind what came.
fn finish_behind(inbound: Inbound, finish: Option<Finish>) -> Inbound
    ensures aside { seen_aside result.aside ≡ besides_with finish (seen_aside inbound.aside) }
    ensures heard { result.heard ≡ inbound.heard }
{
    let Inbound { aside, heard } = inbound;
    let aside = aside_behind(aside, finish);
    Inbound { aside, heard }
}

fn aside_behind(aside: Aside, finish: Option<Finish>) -> Aside
    ensures { seen_aside result ≡ besides_with finish (seen_aside aside) }
{
    let Some(finish) = finish else {
        return aside;
    };
    match aside {
        Aside::Told(told) => {
            let Told {
                given_back,
                said: _,
            } = told;
            let said = Some(Said::Message(Message::Plain(PlainMessage::Finish(finish))));
            Aside::Told(Told { given_back, said })
        }
        Aside::Unknown(original) => Aside::Unknown(original),
    }
}
