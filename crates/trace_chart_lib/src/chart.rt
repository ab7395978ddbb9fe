ghost use Rattle.std.specs.Prelude.{◌≡◌};
ghost use Rattle.trace_chart_lib.specs.Choices.{message_stands_out, entry_stands_out};

use crate::bars::{Bars, CallAt, Embargo};
use crate::entries::{begins_step, begun_by, call_of, lifted_by, vat_of};
use crate::followed::Followed;
use crate::labels::{begun_label, counts_label, entry_label, lifted_label, write_stamp};
use crate::messages::message_label;
use crate::options::Options;
use crate::over::Over;
use crate::questions::{Asked, Questions};
use rpc_journal::{Advanced, Counts, JournalEntry};
use rpc_msg::{
    Disembargo, DisembargoContext, EmbargoId, Memory, Message, PlainMessage, RefId, Stamp, Vat,
};
use std::alloc::Global;
use std::collections::VecDeque;
use std::mem;
use trace_file::Follower;

/// A message whose ends are more rows apart is said at both of them.
const LONG: usize = 4;

/// A message, from the row in which it was sent to the one in which it was received, if these are drawn.
#[derive(Drop)]
pub(crate) struct Arrow {
    pub(crate) from: Vat,
    pub(crate) sent: Option<usize>,
    pub(crate) got: Option<usize>,
    pub(crate) marked: bool,
}

/// What a note has at its vat's lifeline.
#[derive(Clone, Copy, Drop)]
pub(crate) enum Mark {
    /// The application does something, or something reaches it.
    Event,
    /// An arrow begins or ends.
    Message,
    /// A call comes that waits.
    Waiting,
    /// Nothing: counts, or what there is no arrow for.
    Beside,
    /// The vat goes down.
    Down,
}

/// What is said beside a vat's lifeline.
#[derive(Drop)]
pub(crate) struct Note {
    pub(crate) row: usize,
    pub(crate) vat: Vat,
    pub(crate) mark: Mark,
    pub(crate) label: String,
    pub(crate) marked: bool,
}

/// A message that was sent and not received yet.
#[derive(Drop)]
struct OnItsWay {
    sent: Option<usize>,
    label: String,
    marked: bool,
    /// The embargo that it lifts when it is received.
    lifts: Option<EmbargoId>,
    /// The call that comes with it.
    call: Option<CallAt>,
}

/// What is to come of what a vat did.
#[derive(Drop)]
struct Sender {
    /// What it sent and the other vat did not receive yet.
    ways: VecDeque<OnItsWay>,
    /// The reference that it advanced last, if the Disembargo is not sent yet.
    embargoed: Option<RefId>,
}

impl Sender {
    fn new(alloc: Global) -> Self {
        Sender {
            ways: VecDeque::new(alloc),
            embargoed: None,
        }
    }
}

/// The call that came with the newest step, if that did not say yet where it goes.
#[derive(Clone, Copy, Drop)]
struct Arrived {
    vat: Vat,
    call: CallAt,
    entry: u64,
    row: Option<usize>,
    /// What is said in its row, if anything is.
    note: Option<usize>,
    marked: bool,
}

/// What is drawn of a trace.
#[derive(Drop)]
pub(crate) struct Chart {
    pub(crate) options: Options,
    /// How many entries came so far.
    pub(crate) entries: u64,
    /// How many of them have no row, heads aside, which have none in any picture.
    pub(crate) left_out: u64,
    /// The number of the entry in each row.
    pub(crate) rows: Vec<u64>,
    pub(crate) arrows: Vec<Arrow>,
    pub(crate) notes: Vec<Note>,
    pub(crate) bars: Bars,
    /// Whether an entry named the reference that stands out.
    pub(crate) is_named: bool,
    a: Sender,
    b: Sender,
    arrived: Option<Arrived>,
    followed: Followed,
    questions: Questions,
}

impl Chart {
    pub(crate) fn new(alloc: Global, options: Options) -> Self {
        Chart {
            options,
            entries: 0,
            left_out: 0,
            rows: Vec::new(alloc),
            arrows: Vec::new(alloc),
            notes: Vec::new(alloc),
            bars: Bars::new(alloc),
            is_named: false,
            a: Sender::new(alloc),
            b: Sender::new(alloc),
            arrived: None,
            followed: Followed::new(alloc),
            questions: Questions::new(alloc),
        }
    }

    /// Draws the messages too that were never received.
    pub(crate) fn finish(&mut self, alloc: Global) -> Result<(), Memory> {
        let from_a = mem::replace(&mut self.a.ways, VecDeque::new(alloc));
        draw_open(&mut self.arrows, Vat::A, from_a)?;
        let from_b = mem::replace(&mut self.b.ways, VecDeque::new(alloc));
        draw_open(&mut self.arrows, Vat::B, from_b)
    }

    fn sender(&mut self, vat: Vat) -> &mut Sender {
        match vat {
            Vat::A => &mut self.a,
            Vat::B => &mut self.b,
        }
    }

    /// The row of the entry that comes now, if it is drawn.
    fn row(&mut self) -> Result<Option<usize>, Memory> {
        if !self.options.draws(self.entries) {
            self.left_out = self.left_out.saturating_add(1);
            return Ok(None);
        }
        let row = self.rows.len();
        self.rows.push(self.entries)?;
        Ok(Some(row))
    }

    /// Says something in a row, if there is one. Which note it is.
    fn note(
        &mut self,
        row: Option<usize>,
        vat: Vat,
        mark: Mark,
        label: String,
        marked: bool,
    ) -> Result<Option<usize>, Memory> {
        let Some(row) = row else {
            return Ok(None);
        };
        let place = self.notes.len();
        self.notes.push(Note {
            row,
            vat,
            mark,
            label,
            marked,
        })?;
        Ok(Some(place))
    }

    fn draw(&mut self, alloc: Global, entry: &JournalEntry) -> Result<(), Memory> {
        self.entries = self.entries.saturating_add(1);
        if begins_step(entry) {
            self.wait(alloc)?;
        }
        self.is_named = self.is_named || self.options.are_named_by(entry);
        self.followed.learn(&self.options, entry)?;
        self.questions.learn(entry)?;
        let ended = self.end(alloc, entry)?;
        match entry {
            JournalEntry::Sent(vat, message) => self.send(alloc, *vat, message, ended)?,
            JournalEntry::Got(vat) => self.receive(alloc, *vat)?,
            JournalEntry::Tables(a, b) => self.count(alloc, a, b)?,
            _ => match vat_of(entry) {
                Some(vat) => self.happen(alloc, vat, entry, ended)?,
                None => {}
            },
        }
        self.followed.forget(entry);
        Ok(())
    }

    /// The call that came with the step that is over waits, if that did not say where it goes.
    fn wait(&mut self, alloc: Global) -> Result<(), Memory> {
        let Some(arrived) = self.arrived.take() else {
            return Ok(());
        };
        self.bars
            .wait(alloc, arrived.vat, arrived.call, arrived.entry)?;
        match arrived.note {
            Some(place) => self.say_waiting(alloc, place),
            None => self.note_waiting(alloc, &arrived),
        }
    }

    /// A note says that its call waits.
    fn say_waiting(&mut self, alloc: Global, place: usize) -> Result<(), Memory> {
        let Some(note) = self.notes.get_mut(place) else {
            return Ok(());
        };
        let mut label = String::from_str(alloc, "waits: ")?;
        label.push_str(note.label.as_str())?;
        note.label = label;
        note.mark = Mark::Waiting;
        Ok(())
    }

    /// There is no note yet in its row.
    fn note_waiting(&mut self, alloc: Global, arrived: &Arrived) -> Result<(), Memory> {
        let mut label = String::from_str(alloc, "waits: ")?;
        write_stamp(&mut label, &arrived.call.stamp)?;
        let _place = self.note(
            arrived.row,
            arrived.vat,
            Mark::Waiting,
            label,
            arrived.marked,
        )?;
        Ok(())
    }

    /// What an entry ends: what it says of a call that waited.
    fn end(&mut self, alloc: Global, entry: &JournalEntry) -> Result<Option<Remark>, Memory> {
        let Some((vat, over)) = Over::by(entry) else {
            return Ok(None);
        };
        if let Some(arrived) = self.arrived
            && arrived.vat == vat
            && over.has_call(&arrived.call)
        {
            self.arrived = None;
        }
        if !self.bars.end(alloc, vat, &over, self.entries)? {
            return Ok(None);
        }
        Ok(remark_on(&over))
    }

    fn send(
        &mut self,
        alloc: Global,
        vat: Vat,
        message: &Message,
        ended: Option<Remark>,
    ) -> Result<(), Memory> {
        let row = self.row()?;
        let begun = self.open_embargo(alloc, vat, message)?;
        let marked = self.marks_message(message) || self.marks_more(vat, message);
        let label = message_label(alloc, message, self.questions.of(vat, message))?;
        let mut said = remark_label(alloc, ended)?;
        if let Some(embargo) = &begun {
            said = begun_label(alloc, embargo)?;
            said.push_str(": ")?;
        }
        said.push_str(label.as_str())?;
        let _place = self.note(row, vat, Mark::Message, said, marked)?;
        self.sender(vat).ways.push_back(OnItsWay {
            sent: row,
            label,
            marked,
            lifts: lifted_by(message),
            call: call_of(message),
        })?;
        Ok(())
    }

    fn marks_message(&self, message: &Message) -> bool
        ensures { result ≡ message_stands_out self.now.options message.now }
    {
        match message {
            Message::Plain(PlainMessage::Call(call)) => self.options.marks_call(&call.stamp),
            _ => false,
        }
    }

    /// Whether a message is about a call or an embargo of the reference that stands out.
    fn marks_more(&self, from: Vat, message: &Message) -> bool {
        if let Some(Asked::Call(stamp)) = self.questions.of(from, message) {
            return self.options.marks_call(&stamp);
        }
        match message {
            Message::Plain(PlainMessage::Disembargo(disembargo)) => {
                self.marks_disembargo(from, disembargo)
            }
            _ => false,
        }
    }

    fn marks_disembargo(&self, from: Vat, disembargo: &Disembargo) -> bool {
        let (vat, id) = match disembargo.context {
            DisembargoContext::SenderLoopback(id) => (from, id),
            DisembargoContext::ReceiverLoopback(id) => (from.other(), id),
        };
        match self.bars.embargo(vat, id) {
            Some(embargo) => self.marks_named(vat, embargo.reference),
            None => false,
        }
    }

    fn marks_named(&self, vat: Vat, reference: Option<RefId>) -> bool {
        match reference {
            Some(reference) => self.options.marks(vat, reference),
            None => false,
        }
    }

    fn receive(&mut self, alloc: Global, vat: Vat) -> Result<(), Memory> {
        let got = self.row()?;
        let Some(way) = self.sender(vat.other()).ways.pop_front() else {
            let label = String::from_str(alloc, "receives nothing that was sent")?;
            let _place = self.note(got, vat, Mark::Beside, label, false)?;
            return Ok(());
        };
        let marked = way.marked;
        let mut note = None;
        if let Some(label) = self.received_label(alloc, vat, &way, got)? {
            note = self.note(got, vat, Mark::Message, label, marked)?;
        }
        if let Some(call) = way.call {
            self.arrived = Some(Arrived {
                vat,
                call,
                entry: self.entries,
                row: got,
                note,
                marked,
            });
        }
        draw_arrow(&mut self.arrows, vat.other(), &way, got)
    }

    /// What is said where a message is received: the embargo that it lifts, and what it is, if it comes from afar.
    fn received_label(
        &mut self,
        alloc: Global,
        vat: Vat,
        way: &OnItsWay,
        got: Option<usize>,
    ) -> Result<Option<String>, Memory> {
        let far = is_far(way.sent, got);
        if let Some(id) = way.lifts
            && let Some(embargo) = self.bars.embargo(vat, id)
        {
            let _any = self.bars.end(alloc, vat, &Over::Embargo(id), self.entries)?;
            let mut label = lifted_label(alloc, &embargo)?;
            if far {
                label.push_str(": ")?;
                label.push_str(way.label.as_str())?;
            }
            return Ok(Some(label));
        }
        if !far {
            return Ok(None);
        }
        let mut label = String::from_str(alloc, "gets ")?;
        label.push_str(way.label.as_str())?;
        Ok(Some(label))
    }

    /// The embargo that begins where the message is sent.
    fn open_embargo(
        &mut self,
        alloc: Global,
        vat: Vat,
        message: &Message,
    ) -> Result<Option<Embargo>, Memory> {
        let Some(id) = begun_by(message) else {
            return Ok(None);
        };
        let reference = self.sender(vat).embargoed.take();
        let embargo = self
            .bars
            .begin_embargo(alloc, vat, id, reference, self.entries)?;
        Ok(Some(embargo))
    }

    fn keep_embargoed(&mut self, entry: &JournalEntry) {
        if let JournalEntry::Advanced(vat, reference, Advanced::Embargoed) = entry {
            self.sender(*vat).embargoed = Some(*reference);
        }
    }

    fn count(&mut self, alloc: Global, a: &Counts, b: &Counts) -> Result<(), Memory> {
        let row = self.row()?;
        let label = counts_label(alloc, a)?;
        let _place = self.note(row, Vat::A, Mark::Beside, label, false)?;
        let label = counts_label(alloc, b)?;
        let _place = self.note(row, Vat::B, Mark::Beside, label, false)?;
        Ok(())
    }

    /// An entry that is no message's.
    fn happen(
        &mut self,
        alloc: Global,
        vat: Vat,
        entry: &JournalEntry,
        ended: Option<Remark>,
    ) -> Result<(), Memory> {
        let mut said = remark_label(alloc, ended)?;
        let label = entry_label(alloc, entry)?;
        said.push_str(label.as_str())?;
        let marked = self.marks_entry(entry) || self.followed.has(entry);
        let mark = match entry {
            JournalEntry::Down(..) => Mark::Down,
            _ => Mark::Event,
        };
        self.keep_embargoed(entry);
        let row = self.row()?;
        let note = self.note(row, vat, mark, said, marked)?;
        if let JournalEntry::Made(_, made) = entry {
            self.bars.count(vat, made.reference);
            let stamp = Stamp {
                vat,
                reference: made.reference,
                index: made.index,
            };
            self.arrived = Some(Arrived {
                vat,
                call: CallAt {
                    stamp,
                    end: Over::Ended(made.call),
                },
                entry: self.entries,
                row,
                note,
                marked,
            });
        }
        Ok(())
    }

    fn marks_entry(&self, entry: &JournalEntry) -> bool
        ensures { result ≡ entry_stands_out self.now.options entry.now }
    {
        match entry {
            JournalEntry::Made(vat, made) => self.options.marks(*vat, made.reference),
            JournalEntry::Delivered(_, delivery) => self.options.marks_call(&delivery.stamp),
            JournalEntry::Born(vat, reference, _) => self.options.marks(*vat, *reference),
            JournalEntry::Resolved(vat, _, reference) => self.options.marks(*vat, *reference),
            JournalEntry::Advanced(vat, reference, _) => self.options.marks(*vat, *reference),
            JournalEntry::Dropped(vat, reference) => self.options.marks(*vat, *reference),
            _ => false,
        }
    }
}

/// What an entry says of a call that waited.
#[derive(Clone, Copy, Drop)]
enum Remark {
    GoesOn,
    WaitsNoMore,
}

fn remark_on(over: &Over) -> Option<Remark> {
    match over {
        Over::GoesOn(_) => Some(Remark::GoesOn),
        Over::Ended(_) | Over::Returned(_) => Some(Remark::WaitsNoMore),
        _ => None,
    }
}

/// What stands before the label of an entry.
fn remark_label(alloc: Global, remark: Option<Remark>) -> Result<String, Memory> {
    let label = match remark {
        Some(Remark::GoesOn) => "goes on: ",
        Some(Remark::WaitsNoMore) => "waits no more: ",
        None => "",
    };
    let text = String::from_str(alloc, label)?;
    Ok(text)
}

/// Whether a message is received far from where it was sent, or that is not drawn.
fn is_far(sent: Option<usize>, got: Option<usize>) -> bool {
    let Some(sent) = sent else {
        return true;
    };
    let Some(got) = got else {
        return true;
    };
    got.saturating_sub(sent) > LONG
}

/// Arrows for the messages that a vat sent and the other did not receive.
fn draw_open(arrows: &mut Vec<Arrow>, from: Vat, ways: VecDeque<OnItsWay>) -> Result<(), Memory> {
    for way in ways {
        draw_arrow(arrows, from, &way, None)?;
    }
    Ok(())
}

/// An arrow, if one of its ends is drawn.
fn draw_arrow(
    arrows: &mut Vec<Arrow>,
    from: Vat,
    way: &OnItsWay,
    got: Option<usize>,
) -> Result<(), Memory> {
    if way.sent.is_none() && got.is_none() {
        return Ok(());
    }
    arrows.push(Arrow {
        from,
        sent: way.sent,
        got,
        marked: way.marked,
    })?;
    Ok(())
}

impl Follower for Chart {
    ghost takes = { λ old e new. Unit {0} };

    fn take(&mut self, alloc: Global, entry: JournalEntry) -> Result<(), Memory> {
        self.draw(alloc, &entry)
    }
}
