//! A place in a message: what one of its pointers leads to.
ghost use Rattle.std.specs.Prelude.{◌≡◌, ◌≤◌, ◌<◌, ◌^◌, List, ℕ, length, None, Some, Ok, MatchOption, option_map};
ghost use Rattle.capn_trees.specs.Trees.{Tree};
ghost use Rattle.capn_reading.specs.Reading.{element};
ghost use Rattle.capn_reading.specs.declared.referent.Referent.TheVariants as referent;
ghost use Rattle.capn_reading.specs.Segments.{segment_of};
ghost use Rattle.capn_reading.specs.Layouts.{laid, IsWithin};
ghost use Rattle.capn_reading.specs.Looking.{At, StandsFor, LeadsTo, kind_of, field, data_of, length_of, element_of, item_of, bytes_of, IsTextOf};

use crate::build::element_at;
use crate::layout::{Layout, lay_out};
use crate::message::Message;
use crate::pointer::Shape;
use crate::referent::{Content, Referent, follow};
use crate::text::text_in;
use capn_trees::Element;
use std::marker::Model;

/// What stands at a place.
#[derive(Clone, Copy, Debug, PartialEq, Eq, Drop)]
pub enum Kind {
    /// A null pointer.
    Null,
    /// The capability of that index.
    Capability(u32),
    /// A struct.
    Struct,
    /// A list.
    List,
}

/// A place in a message: what one of its pointers leads to.
#[derive(Drop)]
pub struct Place<'m> {
    message: &'m Message<'m>,
    caps: u32,
    referent: Referent,
}

impl<'m> Model for Place<'m> {
    ghost use Rattle.capn_reading.specs.Looking.{Spot, StandsFor};
    ghost use Rattle.capn_trees.specs.Trees.{Tree};

    ghost Value = { Spot };

    ghost view = { λ a. record { message = a.message.now; caps = a.caps; referent = a.referent } };

    ghost invariant = { λ a. (t : Tree) × StandsFor a.message.now a.caps a.referent t };
}

impl<'m> Place<'m> {
    /// What this is, if it stands for a tree.
    pub(crate) fn of(message: &'m Message<'m>, caps: u32, referent: Referent) -> Place<'m>
        requires { (t : Tree) × StandsFor message.now caps referent t }
        ensures { result ≡ record { message = message.now; caps = caps; referent = referent } }
    {
        Place {
            message,
            caps,
            referent,
        }
    }

    /// What stands here.
    pub fn kind(&self) -> Kind
        ensures { (t : Tree) → At self.now t → result ≡ kind_of t }
    {
        let content = match self.referent {
            Referent::Null => return Kind::Null,
            Referent::Capability(index) => return Kind::Capability(index),
            Referent::Content(content) => content,
        };
        match self.layout(content) {
            Layout::Struct { .. } => Kind::Struct,
            _ => Kind::List,
        }
    }

    /// A pointer of a struct: null past the end of its pointers and behind null, none in a list or a capability.
    pub fn field(&self, number: u16) -> Option<Place<'m>>
        ensures { (t : Tree) → At self.now t →
            MatchOption result (field t number ≡ None) (λ next. (u : Tree) × (field t number ≡ Some u) × At next u) }
    {
        let content = match self.referent {
            Referent::Null => return Some(self.null()),
            Referent::Capability(_) => return None,
            Referent::Content(content) => content,
        };
        let Layout::Struct {
            start,
            data_words,
            pointer_words,
        } = self.layout(content)
        else {
            return None;
        };
        if pointer_words <= number {
            return Some(self.null());
        }
        let index = start + u32::from(data_words) + u32::from(number);
        Some(self.led_to(content.segment, index))
    }

    /// A number in a struct's data, at so many times its own size: zero past the end of the data and behind null, none in
    /// a list or a capability.
    pub fn number<E: Element>(&self, at: u32) -> Option<E>
        requires some { 0 < E.BITS }
        requires bits { E.BITS ≤ 64 }
        ensures { (t : Tree) → At self.now t →
            MatchOption result (data_of t ≡ None) (λ x. (ws : List ℕ) × (data_of t ≡ Some ws) × (E.said x ≡ element ws E.BITS at)) }
    {
        let content = match self.referent {
            Referent::Null => return Some(E::of_number(0)),
            Referent::Capability(_) => return None,
            Referent::Content(content) => content,
        };
        let Layout::Struct {
            start,
            data_words,
            ..
        } = self.layout(content)
        else {
            return None;
        };
        if u64::from(data_words) <= u64::from(at) * u64::from(E::BITS) / 64 {
            return Some(E::of_number(0));
        }
        let number = element_at(self.message, content.segment, start, E::BITS, at);
        Some(E::of_number(number))
    }

    /// How many elements a list has: none behind null; nothing in a struct or a capability.
    pub fn len(&self) -> Option<u32>
        ensures { (t : Tree) → At self.now t → result ≡ length_of t }
    {
        let content = match self.referent {
            Referent::Null => return Some(0),
            Referent::Capability(_) => return None,
            Referent::Content(content) => content,
        };
        match self.layout(content) {
            Layout::Struct { .. } => None,
            Layout::Packed { count, .. } => Some(count),
            Layout::Pointers { count, .. } => Some(count),
            Layout::Structs { count, .. } => Some(count),
        }
    }

    /// An element of a list of pointers or of structs: null past the end and behind null, none in what is no such list.
    pub fn item(&self, number: u32) -> Option<Place<'m>>
        ensures { (t : Tree) → At self.now t →
            MatchOption result (item_of t number ≡ None) (λ next. (u : Tree) × (item_of t number ≡ Some u) × At next u) }
    {
        let content = match self.referent {
            Referent::Null => return Some(self.null()),
            Referent::Capability(_) => return None,
            Referent::Content(content) => content,
        };
        match self.layout(content) {
            Layout::Struct { .. } => None,
            Layout::Packed { .. } => None,
            Layout::Pointers { start, count } => {
                if count <= number {
                    return Some(self.null());
                }
                Some(self.led_to(content.segment, start + number))
            }
            Layout::Structs {
                start,
                count,
                data_words,
                pointer_words,
                ..
            } => {
                if count <= number {
                    return Some(self.null());
                }
                let size = u64::from(data_words) + u64::from(pointer_words);
                let content = Content {
                    segment: content.segment,
                    start: Some(u64::from(start) + u64::from(number) * size),
                    shape: Shape::Struct {
                        data_words,
                        pointer_words,
                    },
                };
                Some(Place::of(self.message, self.caps, Referent::Content(content)))
            }
        }
    }

    /// An element of a list of elements of that size, if it has one there.
    pub fn element<E: Element>(&self, number: u32) -> Option<E>
        requires some { 0 < E.BITS }
        requires bits { E.BITS ≤ 64 }
        ensures { (t : Tree) → At self.now t → option_map E.said result ≡ element_of E.BITS t number }
    {
        let Referent::Content(content) = self.referent else {
            return None;
        };
        let Layout::Packed {
            start,
            width,
            count,
        } = self.layout(content)
        else {
            return None;
        };
        if width.bits() != E::BITS {
            return None;
        }
        if count <= number {
            return None;
        }
        let said = element_at(self.message, content.segment, start, E::BITS, number);
        Some(E::of_number(said))
    }

    /// The bytes of a list of bytes, if they stand in the message: none behind null; nothing in what is no such list.
    pub fn bytes(&self) -> Option<&'m [u8]>
        ensures { (t : Tree) → At self.now t → option_map (λ found. found.now) result ≡ bytes_of t }
    {
        let content = match self.referent {
            Referent::Null => return Some(self.message.bytes(0, 0, 0)),
            Referent::Capability(_) => return None,
            Referent::Content(content) => content,
        };
        let Layout::Packed {
            start,
            width,
            count,
        } = self.layout(content)
        else {
            return None;
        };
        if width.bits() != 8 {
            return None;
        }
        Some(self.message.bytes(content.segment, start, count))
    }

    /// A text, where it stands in the message: the bytes of a list of bytes without the zero that ends them, if they
    /// are UTF-8. It is empty behind null.
    pub fn text(&self) -> Option<&'m str>
        ensures { (t : Tree) → At self.now t → MatchOption result ((s : List ℕ) → ¬ (IsTextOf t s)) (λ text. IsTextOf t text.now) }
    {
        if let Referent::Null = self.referent {
            return Some("");
        }
        let Some(bytes) = self.bytes() else {
            return None;
        };
        text_in(bytes)
    }

    // A place of null.
    fn null(&self) -> Place<'m>
        ensures { result ≡ record self.now { referent = referent.Null } }
    {
        Place::of(self.message, self.caps, Referent::Null)
    }

    // What the pointer at a word leads to.
    fn led_to(&self, segment: u32, index: u32) -> Place<'m>
        requires there { index < length (segment_of self.now.message segment) }
        requires leads { (u : Tree) × LeadsTo self.now.message self.now.caps segment index u }
        ensures { (u : Tree) → LeadsTo self.now.message self.now.caps segment index u → At result u }
    {
        let Ok((next, _)) = follow(self.message, self.caps, segment, index, 0) else {
            unreachable!()
        };
        Place::of(self.message, self.caps, next)
    }

    // Where the content lies.
    fn layout(&self, content: Content) -> Layout
        requires { self.now.referent ≡ referent.Content content }
        ensures laid { Ok result ≡ laid self.now.message content }
        ensures within { IsWithin (length (segment_of self.now.message content.segment)) result }
    {
        let Ok(layout) = lay_out(self.message, content) else {
            unreachable!()
        };
        layout
    }
}
