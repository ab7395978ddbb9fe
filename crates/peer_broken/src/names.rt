//! Broken names.
ghost use Rattle.std.specs.Prelude.{◌≡◌, Bool, IfOk, OnErr};
ghost use Rattle.rpc_codec.specs.Envelopes.{seen_envelope};
ghost use Rattle.rpc_msg.specs.declared.ids.ExportId.{ExportId};
ghost use Rattle.rpc_msg.specs.declared.ids.QuestionId.{QuestionId};
ghost use Rattle.peer_broken.specs.Naming.{Tells, comes, finishes, nothing_owed, owing, released, returns, seen_named};

use crate::descriptors::{Parted, part, some_broken};
use crate::due::{Due, due_by, unless_finished};
use crate::named::Named;
use crate::owed::Owed;
use peer_descriptors::{descriptors_in, envelope_with};
use rpc_codec::Envelope;
use rpc_msg::{AnswerId, ExportId, Items, Memory, QuestionId};
use std::alloc::Global;
use std::marker::Model;

/// What is owed to a peer that names promises again which it broke before. It has seen each envelope that came and each Return
/// and Finish that went, once and in their order. Of a peer that names none it holds no memory.
#[derive(Drop)]
pub struct BrokenNames {
    alloc: Global,
    by_answer: Owed,
    by_question: Owed,
}

impl Model for BrokenNames {
    ghost use Rattle.peer_broken.specs.Naming.{Naming, naming_code};

    ghost Value = { Naming };

    ghost coded = { naming_code };

    ghost view = { λ a. record { by_answer = a.by_answer; by_question = a.by_question } };
}

impl BrokenNames {
    /// Nothing is owed. Takes no memory.
    pub fn new(alloc: Global) -> BrokenNames
        ensures { result ≡ nothing_owed }
    {
        BrokenNames {
            alloc,
            by_answer: Owed::new(alloc),
            by_question: Owed::new(alloc),
        }
    }

    /// What came, as the vat is to hear of it, and what is to be given back at once. `is_broken` tells of an export of the peer
    /// whether it is a promise of which a Resolve has said that it is broken (`Core::is_broken`), and `is_finished` of a
    /// question of the vat whether its Finish was sent (`Core::is_finished`).
    ///
    /// A message that names no broken promise is handed on as it came, and takes no memory; another takes no more than it has
    /// descriptors. `Memory` leaves all as it was.
    pub fn inbound<B: Fn(ExportId) -> bool, F: Fn(QuestionId) -> bool>(
        &mut self,
        came: Envelope,
        is_broken: B,
        is_finished: F,
    ) -> Result<Named, Memory>
    where
        B: Drop,
        F: Drop,
        requires broken { B.IsAlwaysCallable is_broken }
        requires finished { F.IsAlwaysCallable is_finished }
        ensures ok { (broken : ExportId → Bool) (finished : QuestionId → Bool)
            → Tells (B.post is_broken) broken → Tells (F.post is_finished) finished
            → IfOk result (λ named. comes broken finished self.old (seen_envelope came) ≡ seen_named self.new named) }
        ensures err { OnErr result (self.new ≡ self.old) }
    {
        if some_broken(descriptors_in(&came), &is_broken) {
            return self.take_names(came, &is_broken, &is_finished);
        }
        Ok(Named {
            came,
            given_back: Items::new(self.alloc),
        })
    }

    // A message that names a broken promise comes.
    #[cold]
    #[inline(never)]
    fn take_names<B: Fn(ExportId) -> bool, F: Fn(QuestionId) -> bool>(
        &mut self,
        came: Envelope,
        is_broken: &B,
        is_finished: &F,
    ) -> Result<Named, Memory>
        requires broken { B.IsAlwaysCallable is_broken.now }
        requires finished { F.IsAlwaysCallable is_finished.now }
        ensures ok { (broken : ExportId → Bool) (finished : QuestionId → Bool)
            → Tells (B.post is_broken.now) broken → Tells (F.post is_finished.now) finished
            → IfOk result (λ named. comes broken finished self.old (seen_envelope came) ≡ seen_named self.new named) }
        ensures err { OnErr result (self.new ≡ self.old) }
    {
        let Parted { heard, names } = part(self.alloc, descriptors_in(&came), is_broken)?;
        let due = unless_finished(due_by(&came), is_finished);
        let given_back = self.owe(due, names)?;
        let came = envelope_with(came, heard);
        Ok(Named { came, given_back })
    }

    // Names are owed from now on: what is to be given back at once.
    fn owe(&mut self, due: Due, names: Items<ExportId>) -> Result<Items<ExportId>, Memory>
        ensures ok { IfOk result (λ given. (self.new, given) ≡ owing self.old due names) }
        ensures err { OnErr result (self.new ≡ self.old) }
    {
        if names.is_empty() {
            return Ok(names);
        }
        match due {
            Due::AtOnce => Ok(names),
            Due::ByReturn(answer) => {
                let was = self.by_answer.put(self.alloc, answer, names)?;
                Ok(was)
            }
            Due::ByFinish(question) => {
                let was = self.by_question.put(self.alloc, question, names)?;
                Ok(was)
            }
        }
    }

    /// A Return of the vat goes to the peer, or what is said in its place, with that `releaseParamCaps`: what is to be given
    /// back beside it, by a Release of one for each time that it stands here. If the flag is true it gives back all of it.
    /// Takes no memory.
    pub fn returned(&mut self, answer: AnswerId, release_param_caps: bool) -> Items<ExportId>
        ensures state { self.new ≡ (returns self.old answer release_param_caps).state }
        ensures given { result ≡ (returns self.old answer release_param_caps).by_release }
    {
        let owed = self.by_answer.take(self.alloc, answer);
        unless_flagged(self.alloc, release_param_caps, owed)
    }

    /// A Finish of the vat goes to the peer, with that `releaseResultCaps`: what is to be given back beside it, as beside a
    /// Return. Takes no memory.
    pub fn finished(&mut self, question: QuestionId, release_result_caps: bool) -> Items<ExportId>
        ensures state { self.new ≡ (finishes self.old question release_result_caps).state }
        ensures given { result ≡ (finishes self.old question release_result_caps).by_release }
    {
        let owed = self.by_question.take(self.alloc, question);
        unless_flagged(self.alloc, release_result_caps, owed)
    }
}

// What a flag does not give back.
fn unless_flagged(alloc: Global, flag: bool, owed: Items<ExportId>) -> Items<ExportId>
    ensures { result ≡ released flag owed }
{
    if flag {
        return Items::new(alloc);
    }
    owed
}
