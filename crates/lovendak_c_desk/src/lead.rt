// Where a reference leads, in numbers.
ghost use Rattle.std.specs.Prelude.{◌≡◌};
ghost use Rattle.core_queries.specs.Places.{leads_to};
ghost use Rattle.lovendak_c_desk.specs.Leading.{answer_kind, at_place, flag, import_kind, lead_of, lead_or, number_of_reason};

use crate::desk::Desk;
use crate::not_done::NotDone;
use rpc_machine::Reason;
use rpc_msg::RefId;
use vat_connection::Place;

/// The kind of what the peer exports by an id.
pub(crate) const IMPORT: u32 = 4;

/// The kind of what stands in the results of a question.
pub(crate) const ANSWER: u32 = 5;

/// Where calls through a reference go. Fields that a kind doesn't have are 0.
#[repr(C)]
#[derive(Clone, Copy, Debug, PartialEq, Eq, Drop)]
pub struct Lead {
    /// Where they go. 1: to an object of this vat. 2: to a promise of this vat that is not settled. 3: to the results of a call to this
    /// vat that did not end. 4: to what the peer exports by an id. 5: to what stands in the results of a question. 6: nowhere.
    pub kind: u32,
    /// 1 if they wait under an embargo before.
    pub is_embargoed: u32,
    /// Of 4: 1 if it is a promise that no Resolve has settled yet.
    pub is_promise: u32,
    /// Of 6: 1 it stands for null, 2 there is something else than a capability, 3 its promise was broken.
    pub reason: u32,
    /// Of 1 the object, of 4 the export of the peer, of 5 the question.
    pub number: u64,
}

impl Desk {
    /// Where calls through a reference go. `Down`, `UnknownRef`.
    pub fn leads_to(&self, reference: u64) -> Result<Lead, NotDone>
        ensures { result ≡ lead_or (leads_to self.now.connection.speaker.host.core (record { 0 = reference })) }
    {
        match self.connection.core().leads_to(RefId(reference)) {
            Ok((place, waits)) => Ok(lead_of(place, flag(waits))),
            Err(refusal) => Err(NotDone::Refused(refusal)),
        }
    }
}

fn lead_of(place: Place, waits: u32) -> Lead
    ensures { result ≡ lead_of place waits }
{
    match place {
        Place::Own(object) => at_place(1, waits, object.0),
        Place::OwnPromise => at_place(2, waits, 0),
        Place::OwnCall => at_place(3, waits, 0),
        Place::Import(id, promise) => Lead {
            is_promise: flag(promise),
            ..at_place(IMPORT, waits, u64::from(id.0))
        },
        Place::Answer(question, _path) => at_place(ANSWER, waits, u64::from(question.0)),
        Place::Broken(why) => Lead {
            reason: number_of_reason(why),
            ..at_place(6, waits, 0)
        },
    }
}

fn at_place(kind: u32, is_embargoed: u32, number: u64) -> Lead
    ensures { result ≡ at_place kind is_embargoed number }
{
    Lead {
        kind,
        is_embargoed,
        is_promise: 0,
        reason: 0,
        number,
    }
}

fn flag(answer: bool) -> u32
    ensures { result ≡ flag answer }
{
    answer as u32
}

fn number_of_reason(reason: Reason) -> u32
    ensures { result ≡ number_of_reason reason }
{
    match reason {
        Reason::NullCapability => 1,
        Reason::NotACapability => 2,
        Reason::BrokenPromise => 3,
    }
}
