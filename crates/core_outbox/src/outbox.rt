ghost use Rattle.std.specs.Prelude.{◌≡◌, ◌+◌, ◌≤◌, ◌<◌, ◌↔◌, None, cond, false, IsOk, IfOk, IfErr, IfSome, IsTrue, OnOk, OnErr};
ghost use Rattle.std.specs.FinMap as map;
ghost use Rattle.rpc_msg.specs.declared.message.Message.TheVariants.{Plain, Unimplemented};

use crate::abort::AbortRoom;
use crate::lists::{
    FEW, KEPT, fits, grow, is_more, let_go, push_finishes, push_kept, push_releases,
};
use crate::rising::Rising;
use crate::spare::Spare;
use rpc_journal::{Delivery, Ended};
use rpc_machine::Effects;
use rpc_msg::{ExportId, Items, Memory, Message, PlainMessage, QuestionId};
use std::alloc::Global;
use std::marker::Model;

/// The effects of a step in the making.
///
/// What is sent, delivered and ended stands in order. Finishes and Releases come at the end of a step, by rising ids, in
/// whatever order they are said. Only `new`, `reserve` and `reserve_ends` take memory: all else answers if there is no
/// room, and is never refused with room.
#[derive(Drop)]
pub struct Outbox {
    sends: Vec<Message>,
    finishes: Rising<bool>,
    releases: Rising<u32>,
    deliveries: Vec<Delivery>,
    answers: Vec<Ended>,
    // Empty, with memory in which some of each go out.
    spare_sends: Spare<Message>,
    spare_deliveries: Spare<Delivery>,
    spare_answers: Spare<Ended>,
    // Whether such memory came back since room was last made.
    comes_back: bool,
    // Whether a list has much memory, which is let go once nothing stands in it.
    much: bool,
    // So many messages may have memory without its being much: few steps say ends, but the room for them stays.
    kept_sends: usize,
    // So many more of each need no more memory: of messages, deliveries and ended calls; of Finishes; of Releases.
    room: usize,
    finish_room: usize,
    release_room: usize,
    abort: Option<AbortRoom>,
    alloc: Global,
}

impl Model for Outbox {
    ghost use Rattle.std.specs.Prelude.{None, is_some, ◌+◌, ◌≤◌, vec_len, vec_capacity};
    ghost use Rattle.std.specs.FinMap as map;
    ghost use Rattle.core_outbox.specs.Outgoing.{Outgoing, outgoing_code};

    ghost Value = { Outgoing };

    ghost coded = { outgoing_code };

    ghost view = { λ a. record {
      said = record { sends = a.sends.items; deliveries = a.deliveries.items; answers = a.answers.items; down = None };
      finishes = a.finishes.0;
      releases = a.releases.0;
      can_abort = is_some a.abort;
      room = a.room;
      finish_room = a.finish_room;
      release_room = a.release_room;
    } };

    ghost invariant = { λ a.
        (vec_len a.sends + map.len a.finishes.0 + map.len a.releases.0 + a.room + a.finish_room + a.release_room ≤ vec_capacity a.sends)
        × (a.finish_room ≤ a.finishes.1)
        × (a.release_room ≤ a.releases.1)
        × (vec_len a.deliveries + a.room ≤ vec_capacity a.deliveries)
        × (vec_len a.answers + a.room ≤ vec_capacity a.answers) };
}

impl Outbox {
    ghost use Rattle.rpc_machine.specs.Down.{falling, silent};
    ghost use Rattle.core_outbox.specs.Outgoing.{nothing_said, with_message, with_delivery, with_ended, with_finish, with_finishes, with_release, finishing, effects_of, AreReleasesOf, emptied};
    ghost use Rattle.core_outbox.specs.Rising.{AllBelow};

    /// Nothing is said yet. The memory of one Abort is kept from here on.
    pub fn new(alloc: Global) -> Result<Self, Memory>
        ensures { IfOk result (λ outbox. outbox ≡ nothing_said) }
    {
        let abort = AbortRoom::new(alloc)?;
        Ok(Outbox {
            sends: Vec::new(alloc),
            finishes: Rising::new(alloc),
            releases: Rising::new(alloc),
            deliveries: Vec::new(alloc),
            answers: Vec::new(alloc),
            spare_sends: Spare::new(alloc),
            spare_deliveries: Spare::new(alloc),
            spare_answers: Spare::new(alloc),
            comes_back: false,
            much: false,
            kept_sends: KEPT,
            room: 0,
            finish_room: 0,
            release_room: 0,
            abort: Some(abort),
            alloc,
        })
    }

    /// How many more messages, deliveries and ended calls fit.
    pub fn room(&self) -> usize
        ensures { result ≡ self.now.room }
    {
        self.room
    }

    /// Whether there is room for so many more messages, deliveries and ended calls, Finishes, and Releases, and memory comes
    /// back, so that nothing is to be made.
    pub fn has_room(&self, more: usize, finishes: usize, releases: usize) -> bool
        ensures { IsTrue result → (more ≤ self.now.room) × (finishes ≤ self.now.finish_room) × (releases ≤ self.now.release_room) }
    {
        self.comes_back
            && more <= self.room
            && finishes <= self.finish_room
            && releases <= self.release_room
    }

    /// Makes room for so many more messages, deliveries and ended calls, of each kind. If a growth is refused nothing
    /// is changed; if there is room none is refused.
    pub fn reserve(&mut self, more: usize) -> Result<(), Memory>
        ensures said { self.new ≡ record self.old { room = self.new.room } }
        ensures ok { OnOk result (more ≤ self.new.room) }
        ensures keeps_room { self.old.room ≤ self.new.room }
        ensures had_room { more ≤ self.old.room → IsOk result }
        ensures same { OnErr result (self.new ≡ self.old) }
    {
        if more <= self.room {
            if !self.comes_back {
                self.make_few();
            }
            return Ok(());
        }
        self.grow_lists(more)?;
        if self.comes_back {
            self.make_more();
        }
        self.make_few();
        Ok(())
    }

    // Memory in which a few go out. If none is found, a list goes out itself.
    fn make_few(&mut self)
        ensures { self.new ≡ self.old }
    {
        self.spare_sends.make(FEW, self.alloc);
        self.spare_deliveries.make(FEW, self.alloc);
        self.spare_answers.make(FEW, self.alloc);
    }

    // As much memory as the lists have, if that is not much, since it comes back.
    fn make_more(&mut self)
        ensures { self.new ≡ self.old }
    {
        self.comes_back = false;
        self.spare_sends.make_like(&self.sends, self.alloc);
        self.spare_deliveries
            .make_like(&self.deliveries, self.alloc);
        self.spare_answers.make_like(&self.answers, self.alloc);
    }

    // Makes room for more than there is room for.
    fn grow_lists(&mut self, more: usize) -> Result<(), Memory>
        requires { self.old.room ≤ more }
        ensures ok { OnOk result (self.new ≡ record self.old { room = more }) }
        ensures same { OnErr result (self.new ≡ self.old) }
    {
        let Some(ends) = self.ends(self.finish_room, self.release_room) else {
            return Err(Memory);
        };
        let Some(messages) = more.checked_add(ends) else {
            return Err(Memory);
        };
        if !fits(&self.sends, messages)
            || !fits(&self.deliveries, more)
            || !fits(&self.answers, more)
        {
            grow(&mut self.sends, messages, self.alloc)?;
            grow(&mut self.deliveries, more, self.alloc)?;
            grow(&mut self.answers, more, self.alloc)?;
            self.much = self.has_much();
        }
        self.room = more;
        Ok(())
    }

    /// Makes room for so many more Finishes and Releases, of which a step makes no more than there are questions and
    /// imports. If a growth is refused nothing is changed; if there is room none is asked for.
    pub fn reserve_ends(&mut self, finishes: usize, releases: usize) -> Result<(), Memory>
        ensures said { self.new ≡ record self.old { finish_room = self.new.finish_room; release_room = self.new.release_room } }
        ensures ok { OnOk result ((finishes ≤ self.new.finish_room) × (releases ≤ self.new.release_room)) }
        ensures keeps_room { (self.old.finish_room ≤ self.new.finish_room) × (self.old.release_room ≤ self.new.release_room) }
        ensures had_room { finishes ≤ self.old.finish_room → releases ≤ self.old.release_room → IsOk result }
        ensures same { OnErr result (self.new ≡ self.old) }
    {
        if finishes <= self.finish_room && releases <= self.release_room {
            return Ok(());
        }
        let finishes = finishes.max(self.finish_room);
        let releases = releases.max(self.release_room);
        let Some(ends) = self.ends(finishes, releases) else {
            return Err(Memory);
        };
        let Some(messages) = self.room.checked_add(ends) else {
            return Err(Memory);
        };
        grow(&mut self.sends, messages, self.alloc)?;
        self.finishes.reserve(finishes)?;
        self.releases.reserve(releases)?;
        self.finish_room = finishes;
        self.release_room = releases;
        self.kept_sends = ends.saturating_add(KEPT);
        self.much = self.has_much();
        Ok(())
    }

    // Whether a list has much memory.
    fn has_much(&self) -> bool {
        is_more(&self.sends, self.kept_sends)
            || is_more(&self.deliveries, KEPT)
            || is_more(&self.answers, KEPT)
    }

    // So many messages the Finishes and Releases are in the end, with so many more of each.
    fn ends(&self, finishes: usize, releases: usize) -> Option<usize>
        ensures { IfSome result (λ sum. sum ≡ map.len self.now.finishes + map.len self.now.releases + finishes + releases) }
    {
        let said = self.finishes.len().checked_add(self.releases.len())?;
        let more = finishes.checked_add(releases)?;
        said.checked_add(more)
    }

    /// A message is sent. It comes back if there is no room.
    pub fn send(&mut self, message: PlainMessage) -> Result<(), PlainMessage>
        ensures ok { OnOk result (self.new ≡ with_message self.old (Plain message)) }
        ensures room { IsOk result ↔ 0 < self.old.room }
        ensures back { IfErr result (λ back. back ≡ message) }
        ensures same { OnErr result (self.new ≡ self.old) }
    {
        if self.room == 0 {
            return Err(message);
        }
        push_kept(&mut self.sends, Message::Plain(message));
        self.room -= 1;
        Ok(())
    }

    /// A message is sent back as not understood. It comes back to the caller if there is no room.
    pub fn echo(&mut self, message: PlainMessage) -> Result<(), PlainMessage>
        ensures ok { OnOk result (self.new ≡ with_message self.old (Unimplemented message)) }
        ensures room { IsOk result ↔ 0 < self.old.room }
        ensures back { IfErr result (λ back. back ≡ message) }
        ensures same { OnErr result (self.new ≡ self.old) }
    {
        if self.room == 0 {
            return Err(message);
        }
        push_kept(&mut self.sends, Message::Unimplemented(message));
        self.room -= 1;
        Ok(())
    }

    /// A call arrived at an object. It comes back if there is no room.
    pub fn deliver(&mut self, delivery: Delivery) -> Result<(), Delivery>
        ensures ok { OnOk result (self.new ≡ with_delivery self.old delivery) }
        ensures room { IsOk result ↔ 0 < self.old.room }
        ensures back { IfErr result (λ back. back ≡ delivery) }
        ensures same { OnErr result (self.new ≡ self.old) }
    {
        if self.room == 0 {
            return Err(delivery);
        }
        push_kept(&mut self.deliveries, delivery);
        self.room -= 1;
        Ok(())
    }

    /// A call of the application has its outcome. It comes back if there is no room.
    pub fn end(&mut self, ended: Ended) -> Result<(), Ended>
        ensures ok { OnOk result (self.new ≡ with_ended self.old ended) }
        ensures room { IsOk result ↔ 0 < self.old.room }
        ensures back { IfErr result (λ back. back ≡ ended) }
        ensures same { OnErr result (self.new ≡ self.old) }
    {
        if self.room == 0 {
            return Err(ended);
        }
        push_kept(&mut self.answers, ended);
        self.room -= 1;
        Ok(())
    }

    /// A Finish is sent at the end of the step, with that flag: behind those of smaller ids. `Err` if there is no room
    /// for one.
    pub fn finish(&mut self, question: QuestionId, release_result_caps: bool) -> Result<(), Memory>
        ensures ok { OnOk result (self.new ≡ with_finish self.old question.0 release_result_caps) }
        ensures last { OnOk result (AllBelow question.0 (map.entries self.old.finishes) → with_finishes self.new ≡ finishing (with_finishes self.old) question.0 release_result_caps) }
        ensures room { IsOk result ↔ 0 < self.old.finish_room }
        ensures same { OnErr result (self.new ≡ self.old) }
    {
        if self.finish_room == 0 {
            return Err(Memory);
        }
        self.finishes.put(question.0, release_result_caps);
        self.finish_room -= 1;
        Ok(())
    }

    /// A Release of so many is sent at the end of the step, behind the Finishes. `Err` if there is no room for
    /// one.
    pub fn release(&mut self, export: ExportId, count: u32) -> Result<(), Memory>
        ensures ok { OnOk result (self.new ≡ with_release self.old export.0 count) }
        ensures room { IsOk result ↔ 0 < self.old.release_room }
        ensures same { OnErr result (self.new ≡ self.old) }
    {
        if self.release_room == 0 {
            return Err(Memory);
        }
        self.releases.put(export.0, count);
        self.release_room -= 1;
        Ok(())
    }

    /// The effects of the step: its messages, then its Finishes and its Releases, each by rising id. They go out in memory
    /// of their own, and the room stays; or else in that of the outbox, and then there is none left.
    #[inline(always)]
    pub fn take(&mut self) -> Effects
        ensures effects { result ≡ effects_of self.old }
        ensures up { result.down ≡ None }
        ensures releases { AreReleasesOf result self.old }
        ensures left { self.new ≡ record (emptied self.old) { room = self.new.room; finish_room = self.new.finish_room; release_room = self.new.release_room } }
    {
        self.say_ends();
        self.take_said()
    }

    // The Finishes and the Releases, each by rising id, are said as messages.
    #[inline(always)]
    fn say_ends(&mut self)
        ensures { self.new ≡ record self.old { said = effects_of self.old; finishes = map.empty; releases = map.empty } }
    {
        if self.finishes.is_empty() && self.releases.is_empty() {
            return;
        }
        self.say_each_end();
    }

    #[inline(never)]
    fn say_each_end(&mut self)
        ensures { self.new ≡ record self.old { said = effects_of self.old; finishes = map.empty; releases = map.empty } }
    {
        push_finishes(&mut self.sends, self.finishes.entries());
        push_releases(&mut self.sends, self.releases.entries());
        self.finishes.clear();
        self.releases.clear();
    }

    // What was said, if no Finish and no Release is left to say.
    #[inline(always)]
    fn take_said(&mut self) -> Effects
        requires finishes { self.old.finishes ≡ map.empty }
        requires releases { self.old.releases ≡ map.empty }
        ensures effects { result ≡ self.old.said }
        ensures up { result.down ≡ None }
        ensures left { self.new ≡ record (emptied self.old) { room = self.new.room; finish_room = self.new.finish_room; release_room = self.new.release_room } }
    {
        let sends = self
            .spare_sends
            .hand_out(&mut self.sends, self.kept_sends, self.alloc);
        let deliveries = self
            .spare_deliveries
            .hand_out(&mut self.deliveries, KEPT, self.alloc);
        let answers = self
            .spare_answers
            .hand_out(&mut self.answers, KEPT, self.alloc);
        let kept = !self.much
            && sends.capacity() <= self.sends.capacity()
            && deliveries.capacity() <= self.deliveries.capacity()
            && answers.capacity() <= self.answers.capacity();
        let effects = Effects {
            sends: Items::from_vec(sends),
            deliveries: Items::from_vec(deliveries),
            answers: Items::from_vec(answers),
            down: None,
        };
        if kept {
            return effects;
        }
        self.room = 0;
        self.finish_room = 0;
        self.release_room = 0;
        self.kept_sends = KEPT;
        self.much = false;
        let_go(&mut self.sends, self.alloc);
        let_go(&mut self.deliveries, self.alloc);
        let_go(&mut self.answers, self.alloc);
        effects
    }

    /// Takes back the memory of effects that were looked at, for those of later steps. What they still hold is dropped.
    #[inline(always)]
    pub fn recycle(&mut self, effects: Effects)
        ensures { self.new ≡ self.old }
    {
        let Effects {
            sends,
            deliveries,
            answers,
            down: _,
        } = effects;
        self.comes_back = true;
        self.spare_sends.reuse(sends.into_vec());
        self.spare_deliveries.reuse(deliveries.into_vec());
        self.spare_answers.reuse(answers.into_vec());
    }

    /// The effects of a step that takes the vat down with that number: one Abort alone, from the memory that was kept for
    /// it. What was said before is dropped. (An outbox that sent its Abort has none left, and sends nothing.)
    pub fn fall(&mut self, number: u16) -> Effects
        ensures effects { result ≡ cond self.old.can_abort (falling number) (silent number) }
        ensures left { self.new ≡ record (emptied self.old) { can_abort = false } }
    {
        let mut effects = self.fall_silently(number);
        if let Some(room) = self.abort.take() {
            effects.sends = room.abort(number);
        }
        effects
    }

    /// The effects of a step that takes the vat down by the peer's Abort: nothing is sent.
    pub fn fall_silently(&mut self, number: u16) -> Effects
        ensures effects { result ≡ silent number }
        ensures left { self.new ≡ emptied self.old }
    {
        self.room = 0;
        self.finish_room = 0;
        self.release_room = 0;
        self.sends = Vec::new(self.alloc);
        self.finishes = Rising::new(self.alloc);
        self.releases = Rising::new(self.alloc);
        self.deliveries = Vec::new(self.alloc);
        self.answers = Vec::new(self.alloc);
        Effects {
            sends: Items::new(self.alloc),
            deliveries: Items::new(self.alloc),
            answers: Items::new(self.alloc),
            down: Some(number),
        }
    }
}
