//! Vats, paths, texts and items.
use rpc_msg::{Items, Memory, Op, Path, Text, Vat};
use std::alloc::Global;
use std::process::Abort;

/// Steps, and the path that is left of them without those that do nothing.
const FIELDS: [(&[Op], &[Op]); 4] = [
    (&[], &[]),
    (&[Op::Field(65_535); 16], &[Op::Field(65_535); 16]),
    (&[Op::Noop; 16], &[]),
    (
        &[Op::Noop, Op::Field(3), Op::Noop, Op::Field(0), Op::Noop],
        &[Op::Field(3), Op::Field(0)],
    ),
];

// No clause says what these do: a test is proved quicker if nothing is known of what it compares.
fn other(vat: Vat) -> Vat {
    vat.other()
}

fn path_of(steps: &[Op]) -> Option<Path> {
    Path::from_ops(steps)
}

fn fields_of(path: &Path) -> Path {
    path.fields()
}

fn has_fields(rt: &impl Abort, path: &Path, steps: &[Op], fields: &[Op]) {
    assert!(rt; path.as_slice() == steps);
    assert!(rt; fields_of(path).as_slice() == fields);
}

/// Each vat has the other, and a path at most sixteen steps.
#[test]
fn vats_and_paths(rt: HostRuntime) {
    assert!(rt; other(Vat::A) == Vat::B);
    assert!(rt; other(Vat::B) == Vat::A);
    assert!(rt; path_of(&[]) == Some(Path::root()));
    assert!(rt; path_of(&[Op::Field(65_535); 17]).is_none());
    for (steps, fields) in &FIELDS {
        match path_of(steps) {
            Some(path) => has_fields(&rt, &path, steps, fields),
            None => panic!(rt; "{} steps", steps.len()),
        }
    }
}

fn copy_of_text(alloc: Global, text: &Text) -> Result<Text, Memory> {
    text.copy(alloc)
}

fn copy_of_items(alloc: Global, items: &Items<u16>) -> Result<Items<u16>, Memory> {
    items.copy(alloc)
}

#[test]
fn texts_keep_their_letters(rt: HostRuntime) -> Result<(), Memory> {
    let text = Text::new(rt.alloc(), "zu groß")?;
    let copy = copy_of_text(rt.alloc(), &text)?;
    assert!(rt; copy.as_str() == "zu groß");
    let letters = String::from_str(rt.alloc(), "gone").ok().ok_or(Memory)?;
    assert!(rt; Text::from_string(letters).as_str() == "gone");
    Ok(())
}

fn push(items: &mut Items<u16>, number: u16) -> Result<(), Memory> {
    items.push(number).ok().ok_or(Memory)
}

fn none(alloc: Global) -> Items<u16> {
    Items::new(alloc)
}

fn five_and_three(alloc: Global) -> Result<Items<u16>, Memory> {
    let mut items = Items::new(alloc);
    push(&mut items, 5)?;
    push(&mut items, 3)?;
    Ok(items)
}

// A copy of the items as they were before 4 is put behind them.
fn copy_then_push(alloc: Global, items: &mut Items<u16>) -> Result<Items<u16>, Memory> {
    let copy = copy_of_items(alloc, items)?;
    push(items, 4)?;
    Ok(copy)
}

fn only_text(alloc: Global) -> Result<Items<Text>, Memory> {
    let text = Text::new(alloc, "only")?;
    Items::one(alloc, text).ok().ok_or(Memory)
}

#[test]
fn items_are_made_filled_and_copied(rt: HostRuntime) -> Result<(), Memory> {
    assert!(rt; none(rt.alloc()).is_empty());
    let mut items = five_and_three(rt.alloc())?;
    assert!(rt; items.len() == 2);
    assert!(rt; !items.is_empty());
    let copy = copy_then_push(rt.alloc(), &mut items)?;
    assert!(rt; copy.as_slice() == [5, 3].as_slice());
    assert!(rt; items.into_vec().as_slice() == [5, 3, 4].as_slice());
    assert!(rt; Items::from_vec(copy.into_vec()).len() == 2);
    assert!(rt; only_text(rt.alloc())?.len() == 1);
    Ok(())
}
