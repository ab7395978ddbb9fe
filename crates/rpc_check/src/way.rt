ghost use Rattle.std.specs.Prelude.{◌≡◌, ◌++◌, [], ◌∷◌, IfOk, OnOk, List};
ghost use Rattle.rpc_msg.specs.declared.message.Message.{Message as AMessage};
ghost use Rattle.rpc_check.specs.Counts.{Sending};
ghost use Rattle.rpc_check.specs.Kept.{IsWay, IsSaid, Grows, Lists, added_by, adds, rest_of, is_some_left};

use crate::amounts::Amounts;
use crate::handovers::handed_on;
use crate::releases::{Released, Releases};
use crate::said::Said;
use rpc_msg::{ExportId, Items, Memory, Message};
use std::alloc::Global;
use std::collections::VecDeque;

/// What a message on its way adds to the counts.
#[derive(Drop)]
pub(crate) struct Parcel {
    pub(crate) handed_on: Items<(ExportId, u32)>,
    pub(crate) released: Released,
}

impl Parcel {
    fn of(alloc: Global, message: &Message, receiver: &Said) -> Result<Self, Memory>
        ensures { IfOk result (λ parcel. (ms : List AMessage) → IsSaid receiver.now ms → added_by receiver.now.lists.items parcel ≡ adds (record { message = message.now; before = ms })) }
    {
        let handed_on = handed_on(alloc, message)?;
        let released = receiver.released_by(message);
        Ok(Parcel {
            handed_on,
            released,
        })
    }
}

/// What a vat sent: of the messages that the other did not receive what each adds to the counts, the oldest first,
/// and what they add together; of all its messages what a flag can release.
#[derive(Drop)]
pub(crate) struct Way {
    pub(crate) parcels: VecDeque<Parcel>,
    pub(crate) handed_on: Amounts,
    pub(crate) releases: Releases,
    pub(crate) said: Said,
}

impl Way {
    pub(crate) fn new(alloc: Global) -> Self
        ensures way { (ls : Lists) → IsWay ls result [] }
        ensures said { IsSaid result.said [] }
    {
        Way {
            parcels: VecDeque::new(alloc),
            handed_on: Amounts::new(alloc),
            releases: Releases::new(alloc),
            said: Said::new(alloc),
        }
    }

    /// A message is sent to the vat that said that. After a refusal nothing is known of the rest.
    pub(crate) fn send(
        &mut self,
        alloc: Global,
        message: &Message,
        receiver: &Said,
    ) -> Result<(), Memory>
        ensures way { OnOk result ((ss : List Sending) (before : List AMessage) → IsWay receiver.now.lists.items self.old ss → IsSaid receiver.now before → IsWay receiver.now.lists.items self.new (ss ++ record { message = message.now; before = before } ∷ [])) }
        ensures said { OnOk result ((ms : List AMessage) → IsSaid self.old.said ms → IsSaid self.new.said (ms ++ message.now ∷ [])) }
        ensures grows { OnOk result (Grows self.old.said.lists.items self.new.said.lists.items) }
    {
        let parcel = Parcel::of(alloc, message, receiver)?;
        self.handed_on.add_all(&parcel.handed_on)?;
        self.releases.send(parcel.released)?;
        self.said.send(alloc, message)?;
        self.parcels.push_back(parcel)?;
        Ok(())
    }

    /// The oldest message is received, if there is one. After a refusal nothing is known of the rest.
    pub(crate) fn receive(&mut self) -> Result<bool, Memory>
        ensures left { IfOk result (λ left. (ls : Lists) (ss : List Sending) → IsWay ls self.old ss → left ≡ is_some_left ss) }
        ensures rest { OnOk result ((ls : Lists) (ss : List Sending) → IsWay ls self.old ss → IsWay ls self.new (rest_of ss)) }
        ensures said { self.new.said ≡ self.old.said }
    {
        let Some(parcel) = self.parcels.pop_front() else {
            return Ok(false);
        };
        self.handed_on.take_all(&parcel.handed_on);
        self.releases.receive(parcel.released)?;
        Ok(true)
    }

    /// Counts the lists that were released, of those that the other vat handed on. After a refusal nothing is known of the
    /// rest.
    pub(crate) fn count(&mut self, lists: &[Items<(ExportId, u32)>]) -> Result<(), Memory>
        ensures way { OnOk result ((ss : List Sending) → IsWay lists.now self.old ss → IsWay lists.now self.new ss) }
        ensures counted { OnOk result (self.new.releases.flagged.items ≡ []) }
        ensures said { self.new.said ≡ self.old.said }
    {
        self.releases.count(lists)?;
        Ok(())
    }
}
