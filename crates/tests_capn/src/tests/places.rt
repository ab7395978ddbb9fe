//! Payloads looked into without their trees.
use crate::tests::{cap_at, read, read_text};
use Seen::{Bit, Byte, Bytes, Len, One, Text, Two, Word};
use Step::{Field, Item};
use capn_wire::{CapAt, Kind, Op, Payload, Place, Pointers, Tree};
use std::alloc::Global;
use std::test::Fail;

/// To a pointer of a struct, or to an element of a list.
#[derive(Clone, Copy, Drop)]
enum Step {
    Field(u16),
    Item(u32),
}

/// What is seen at a place; of numbers and of elements, by which number.
#[derive(Clone, Copy, Drop)]
enum Seen {
    Kind(Kind),
    Len(Option<u32>),
    Text(Option<&'static str>),
    Bytes(&'static [u8]),
    Word(u32, Option<u64>),
    Byte(u32, Option<u8>),
    Bit(u32, Option<bool>),
    One(u32, Option<u8>),
    Two(u32, Option<u16>),
    Four(u32, Option<u32>),
}

/// A struct of the words 7 and 256, and of five pointers. These are the text `ab`, the numbers 1, 2 and 3 of two bytes, capability 0,
/// two structs of one word and one pointer (10 and capability 1, 20 and the text `z`), and the pointers capability 1 and null.
const SAMPLE: &str =
    "0000000012000000 | 0000000002000500 0700000000000000 0001000000000000 110000001a000000 110000001b000000 0300000000000000 0d00000027000000 2100000016000000 6162000000000000 0100020003000000 0800000001000100 0a00000000000000 0300000001000000 1400000000000000 0100000012000000 7a00000000000000 0300000001000000 0000000000000000";

/// What is seen in it, by the steps from its root.
const IN_SAMPLE: [(&[Step], Seen); 27] = [
    (&[], Seen::Kind(Kind::Struct)),
    (&[], Len(None)),
    (&[], Text(None)),
    (&[], Word(0, Some(7))),
    (&[], Word(1, Some(256))),
    (&[], Word(2, Some(0))),
    (&[], Byte(9, Some(1))),
    (&[], Bit(2, Some(true))),
    (&[], Bit(3, Some(false))),
    (&[Field(0)], Text(Some("ab"))),
    (&[Field(0)], Bytes(&[97, 98, 0])),
    (&[Field(0)], Byte(0, None)),
    (&[Field(9)], Seen::Kind(Kind::Null)),
    (&[Field(9)], Text(Some(""))),
    (&[Field(9)], Len(Some(0))),
    (&[Field(1)], Seen::Kind(Kind::List)),
    (&[Field(1)], Len(Some(3))),
    (&[Field(1)], Two(2, Some(3))),
    (&[Field(1)], Two(3, None)),
    (&[Field(1)], Seen::Four(0, None)),
    (&[Field(3)], Len(Some(2))),
    (&[Field(3), Item(0)], Word(0, Some(10))),
    (&[Field(3), Item(1)], Word(0, Some(20))),
    (&[Field(3), Item(2)], Seen::Kind(Kind::Null)),
    (&[Field(4), Item(0)], Seen::Kind(Kind::Capability(1))),
    (&[Field(4), Item(1)], Seen::Kind(Kind::Null)),
    (&[Field(4)], One(0, None)),
];

// No clause says what the small functions here do: a test is proved quicker if nothing is known of what it compares.
fn kind(place: &Place) -> Kind {
    place.kind()
}

fn len(place: &Place) -> Option<u32> {
    place.len()
}

fn text<'m>(place: &Place<'m>) -> Option<&'m str> {
    place.text()
}

fn has_bytes(place: &Place, wanted: &[u8]) -> bool {
    match place.bytes() {
        Some(bytes) => bytes == wanted,
        None => false,
    }
}

fn word(place: &Place, at: u32) -> Option<u64> {
    place.number(at)
}

fn byte(place: &Place, at: u32) -> Option<u8> {
    place.number(at)
}

fn bit(place: &Place, at: u32) -> Option<bool> {
    place.number(at)
}

fn element_of_one(place: &Place, number: u32) -> Option<u8> {
    place.element(number)
}

fn element_of_two(place: &Place, number: u32) -> Option<u16> {
    place.element(number)
}

fn element_of_four(place: &Place, number: u32) -> Option<u32> {
    place.element(number)
}

fn is_seen(place: &Place, seen: Seen) -> bool {
    match seen {
        Seen::Kind(wanted) => kind(place) == wanted,
        Len(wanted) => len(place) == wanted,
        Text(wanted) => text(place) == wanted,
        Bytes(wanted) => has_bytes(place, wanted),
        Word(at, wanted) => word(place, at) == wanted,
        Byte(at, wanted) => byte(place, at) == wanted,
        Bit(at, wanted) => bit(place, at) == wanted,
        One(number, wanted) => element_of_one(place, number) == wanted,
        Two(number, wanted) => element_of_two(place, number) == wanted,
        Seen::Four(number, wanted) => element_of_four(place, number) == wanted,
    }
}

fn next<'m>(place: &Place<'m>, step: Step) -> Option<Place<'m>> {
    match step {
        Field(number) => place.field(number),
        Item(number) => place.item(number),
    }
}

fn is_seen_at(payload: &Payload, steps: &[Step], seen: Seen) -> bool {
    let view = payload.view();
    let mut place = view.root();
    for step in steps {
        place = match next(&place, *step) {
            Some(place) => place,
            None => return false,
        };
    }
    is_seen(&place, seen)
}

#[test]
fn numbers_texts_and_elements_are_found(rt: HostRuntime) -> Result<(), Fail> {
    let payload = read_text(rt.alloc(), SAMPLE, 2)?;
    for (number, (steps, seen)) in IN_SAMPLE.iter().enumerate() {
        assert!(rt; is_seen_at(&payload, steps, *seen), "place {number}");
    }
    Ok(())
}

/// A list of two bytes, and whether it is a text of one letter.
const TWO_BYTES: [(&str, bool); 3] = [
    (
        "00000000 02000000 | 0100000012000000 6100000000000000",
        true,
    ),
    (
        "00000000 02000000 | 0100000012000000 6161000000000000",
        false,
    ),
    (
        "00000000 02000000 | 0100000012000000 ff00000000000000",
        false,
    ),
];

#[test]
fn a_text_ends_with_a_zero(rt: HostRuntime) -> Result<(), Fail> {
    for (bytes, is_one) in TWO_BYTES {
        let payload = read_text(rt.alloc(), bytes, 0)?;
        assert!(rt; is_seen_at(&payload, &[], Text(Some("a"))) == is_one);
    }
    Ok(())
}

/// The example of `capn_wire`'s first page.
fn hello(alloc: Global) -> Result<Payload, Fail> {
    let mut pointers = Pointers::new(alloc);
    pointers.push(Tree::text(alloc, "hello")?)?;
    pointers.push(Tree::Cap(0))?;
    let words = vec![in alloc; 7]?;
    let tree = Tree::Struct { words, pointers };
    Ok(Payload::write(alloc, &tree, 1)?)
}

fn hello_is_read(alloc: Global) -> Result<bool, Fail> {
    let written = hello(alloc)?;
    let payload = read(alloc, written.bytes(), written.caps())?;
    Ok(
        cap_at(&payload, &[Op::Field(1)]) == CapAt::Cap(0)
            && cap_at(&payload, &[Op::Field(0)]) == CapAt::NotCap
            && cap_at(&payload, &[Op::Field(2)]) == CapAt::Null
            && is_seen_at(&payload, &[], Word(0, Some(7)))
            && is_seen_at(&payload, &[Field(0)], Text(Some("hello"))),
    )
}

#[test]
fn a_text_and_a_capability(rt: HostRuntime) -> Result<(), Fail> {
    assert!(rt; hello_is_read(rt.alloc())?);
    Ok(())
}
