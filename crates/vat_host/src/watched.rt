//! What a message of the peer makes known to the application, beside calls to serve and own calls that end.
ghost use Rattle.std.specs.Prelude.{◌≡◌};
ghost use Rattle.core_queries.specs.Places.{leads_to};
ghost use Rattle.vat_host.specs.Watching.{became, event_if, import_if, is_free, made_known, reference_if, waits_for, watched_at, watched_by, watched_in};

use crate::event::{Event, PeerPlace};
use rpc_msg::{DisembargoContext, ExportId, Message, PlainMessage, QuestionId, RefId};
use vat_core::{Core, ImportKind};

/// What a message may make known.
#[derive(Clone, Copy, Debug, PartialEq, Eq, Drop)]
pub(crate) enum Watched {
    Nothing,
    /// What the peer exports by that id is a promise that is not settled yet.
    Import(ExportId),
    Question(QuestionId),
    /// The calls of that reference wait under an embargo.
    Reference(RefId),
}

impl Watched {
    /// What a message may make known that comes next. Takes no memory.
    pub(crate) fn by(message: &Message, core: &Core) -> Watched
        ensures { result ≡ watched_by message.now core.now }
    {
        match message {
            Message::Plain(message) => watched_in(message, core),
            Message::Unimplemented(_) => Watched::Nothing,
        }
    }

    /// What it made known, if anything. Takes no memory.
    pub(crate) fn made_known(self, core: &Core) -> Option<Event>
        ensures { result ≡ made_known self core.now }
    {
        if core.down().is_some() {
            return None;
        }
        self.became(core)
    }

    // What became of it, if anything.
    fn became(self, core: &Core) -> Option<Event>
        ensures { result ≡ became self core.now }
    {
        match self {
            Watched::Nothing => None,
            Watched::Import(id) => event_if(
                !waits_for(core, id) && core.names_import(id),
                Event::Resolved(PeerPlace::Import(id)),
            ),
            Watched::Question(id) => event_if(
                core.names_question(id),
                Event::Resolved(PeerPlace::Question(id)),
            ),
            Watched::Reference(id) => event_if(is_free(core, id), Event::Lifted(id)),
        }
    }
}

fn watched_in(message: &PlainMessage, core: &Core) -> Watched
    ensures { result ≡ watched_in message.now core.now }
{
    match message {
        PlainMessage::Resolve(resolve) => import_if(
            waits_for(core, resolve.promise),
            resolve.promise,
        ),
        PlainMessage::Return(said) => Watched::Question(QuestionId(said.answer.0)),
        PlainMessage::Disembargo(disembargo) => watched_at(core, disembargo.context),
        _other => Watched::Nothing,
    }
}

fn import_if(waits: bool, id: ExportId) -> Watched
    ensures { result ≡ import_if waits id }
{
    if waits {
        return Watched::Import(id);
    }
    Watched::Nothing
}

fn watched_at(core: &Core, context: DisembargoContext) -> Watched
    ensures { result ≡ watched_at core.now context }
{
    match context {
        DisembargoContext::SenderLoopback(_) => Watched::Nothing,
        DisembargoContext::ReceiverLoopback(id) => reference_if(core.embargoed_reference(id)),
    }
}

fn reference_if(reference: Option<RefId>) -> Watched
    ensures { result ≡ reference_if reference }
{
    match reference {
        None => Watched::Nothing,
        Some(id) => Watched::Reference(id),
    }
}

// Whether the peer exports a promise by that id that no Resolve has settled.
fn waits_for(core: &Core, id: ExportId) -> bool
    ensures { result ≡ waits_for core.now id }
{
    matches!(core.import_kind(id), Some(ImportKind::Unresolved))
}

// Whether there is such a reference, and its calls don't wait under an embargo.
fn is_free(core: &Core, id: RefId) -> bool
    ensures { result ≡ is_free (leads_to core.now id) }
{
    match core.leads_to(id) {
        Ok((_, waits)) => !waits,
        Err(_) => false,
    }
}

fn event_if(is_so: bool, event: Event) -> Option<Event>
    ensures { result ≡ event_if is_so event }
{
    if is_so {
        return Some(event);
    }
    None
}
