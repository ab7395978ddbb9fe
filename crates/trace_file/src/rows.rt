ghost use Rattle.std.specs.Prelude.{◌≡◌, ◌++◌, ℕ, cond, nat_eq, OnOk, Some, None, string_bytes};
ghost use Rattle.std.specs.Ordering.{nat_cmp};
ghost use Rattle.std.specs.BTreeMap.{get, IsOrdered};
ghost use Rattle.trace_file.specs.Shown.{calls_at, vat_letter, place_text, calls_text, rows_text};

use rpc_msg::{Memory, ObjectId, Vat};
use std::alloc::Global;
use std::collections::BTreeMap;
use std::fmt::Write;

/// Where a call was delivered.
#[derive(Clone, Copy, Debug, PartialEq, Eq, Drop)]
pub struct Place {
    pub vat: Vat,
    pub object: ObjectId,
}

/// What a trace says of the calls of a reference.
#[derive(Clone, Copy, Debug, PartialEq, Eq, Drop)]
pub struct Calls {
    /// How many were made through it.
    pub made: u64,
    /// How many were delivered.
    pub delivered: u64,
    /// Where the first was delivered.
    pub first: Option<Place>,
}

/// The calls of a vat's references, by their numbers.
#[derive(Drop)]
pub(crate) struct Rows {
    pub(crate) tree: BTreeMap<u64, Calls>,
}

impl Rows {
    /// No references. Takes no memory.
    pub(crate) fn new(alloc: Global) -> Self
        ensures { (q : ℕ) → get nat_cmp result.tree q ≡ None }
    {
        Rows {
            tree: BTreeMap::new(alloc),
        }
    }

    /// The calls of the reference with that number.
    pub(crate) fn get(&self, number: u64) -> Calls
        ensures { result ≡ calls_at (get nat_cmp self.now.tree number) }
    {
        match self.tree.get(&number) {
            Some(calls) => *calls,
            None => Calls {
                made: 0,
                delivered: 0,
                first: None,
            },
        }
    }

    /// `Memory` if a growth was refused.
    pub(crate) fn set(&mut self, number: u64, calls: Calls) -> Result<(), Memory>
        ensures ok { OnOk result ((q : ℕ) → get nat_cmp self.new.tree q ≡ cond (nat_eq q number) (Some calls) (get nat_cmp self.old.tree q)) }
    {
        self.tree.insert(number, calls)?;
        Ok(())
    }

    /// A line for each reference that made a call, by rising number, behind a text.
    pub(crate) fn write(&self, text: &mut String, vat: Vat) -> Result<(), Memory>
        ensures written { OnOk result (string_bytes text.new ≡ string_bytes text.old ++ rows_text vat self.now.tree.entries) }
        ensures rising { IsOrdered nat_cmp self.now.tree }
    {
        for (number, calls) in self.tree.iter() {
            write_calls(text, vat, *number, calls)?;
        }
        Ok(())
    }
}

fn write_calls(text: &mut String, vat: Vat, number: u64, calls: &Calls) -> Result<(), Memory>
    ensures { OnOk result (string_bytes text.new ≡ string_bytes text.old ++ calls_text vat number calls.now) }
{
    if calls.made == 0 {
        return Ok(());
    }
    write!(
        text,
        "{}/{}: made {}, delivered {} to ",
        letter(vat),
        number,
        calls.made,
        calls.delivered
    )?;
    match calls.first {
        Some(place) => write_place(text, place),
        None => write_nowhere(text),
    }
}

fn write_place(text: &mut String, place: Place) -> Result<(), Memory>
    ensures { OnOk result (string_bytes text.new ≡ string_bytes text.old ++ place_text (Some place)) }
{
    writeln!(text, "{}/{}", letter(place.vat), place.object.0)?;
    Ok(())
}

fn write_nowhere(text: &mut String) -> Result<(), Memory>
    ensures { OnOk result (string_bytes text.new ≡ string_bytes text.old ++ place_text None) }
{
    text.push_str("-\n")?;
    Ok(())
}

fn letter(vat: Vat) -> &'static str
    ensures { result.now ≡ vat_letter vat }
{
    match vat {
        Vat::A => "a",
        Vat::B => "b",
    }
}
