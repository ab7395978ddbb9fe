//! Whether what is given back is there.
ghost use Rattle.std.specs.Prelude.{◌≡◌, ◌+◌, ◌++◌, ℕ, [], cond, nat_eq, option_to_list, OnOk, IfOk};
ghost use Rattle.look_books.specs.Ends.{kept_of};
ghost use Rattle.look_books.specs.Checks.{Finds, too_many, none_left, gone_in, too_many_of, back, given_by, all_given};

use crate::breach::{Breach, GivenBack};
use crate::end::End;
use crate::judge::Found;
use rpc_msg::{Descriptor, ExportId, Items, Memory};
use std::alloc::Global;
use std::collections::BTreeMap;

/// More of an export is given back than is there.
pub(crate) fn too_many(heard: &End, by: GivenBack, export: ExportId, count: u64) -> Option<Breach>
    ensures { result ≡ too_many (kept_of heard.now) by export count }
{
    let there = heard.count(export);
    if count <= there {
        return None;
    }
    Some(Breach::TooMany(by, count, export, there))
}

/// None of an export is left behind so many that are gone.
fn none_left(heard: &End, by: GivenBack, export: ExportId, gone: u64) -> Option<Breach>
    ensures { result ≡ none_left (kept_of heard.now) by export gone }
{
    if gone < heard.count(export) {
        return None;
    }
    Some(Breach::TooMany(by, 1, export, 0))
}

/// How many of each export are gone.
#[derive(Drop)]
struct Gone {
    by_id: BTreeMap<u32, u64>,
}

impl Gone {
    fn new(alloc: Global) -> Gone
        ensures { (e : ℕ) → gone_in result e ≡ 0 }
    {
        Gone {
            by_id: BTreeMap::new(alloc),
        }
    }

    fn of(&self, export: ExportId) -> u64
        ensures { result ≡ gone_in self.now export.0 }
    {
        match self.by_id.get(&export.0) {
            Some(count) => *count,
            None => 0,
        }
    }

    /// One more of it is gone.
    fn add(&mut self, export: ExportId) -> Result<(), Memory>
        ensures { OnOk result ((e : ℕ) → gone_in self.new e ≡ gone_in self.old e + cond (nat_eq e export.0) 1 0) }
    {
        let Some(count) = self.of(export).checked_add(1) else {
            return Err(Memory);
        };
        self.by_id.insert(export.0, count)?;
        Ok(())
    }
}

/// The same of exports one by one, each once: those before it are gone.
pub(crate) fn too_many_of(
    alloc: Global,
    heard: &End,
    by: GivenBack,
    exports: &[ExportId],
    found: &mut Found,
) -> Result<(), Memory>
    ensures { OnOk result (Finds found.old found.new (back (too_many_of (kept_of heard.now) by [] exports.now))) }
{
    let mut gone = Gone::new(alloc);
    for export in exports {
        found.add(none_left(heard, by, *export, gone.of(*export)))?;
        gone.add(*export)?;
    }
    Ok(())
}

/// The export that a descriptor gives.
pub(crate) fn given_by(descriptor: &Descriptor) -> Option<ExportId>
    ensures { result ≡ given_by descriptor.now }
{
    match descriptor {
        Descriptor::SenderHosted(export) => Some(*export),
        Descriptor::SenderPromise(export) => Some(*export),
        _ => None,
    }
}

fn push_given(given: &mut Vec<ExportId>, descriptor: &Descriptor) -> Result<(), Memory>
    ensures { OnOk result (given.new.items ≡ given.old.items ++ option_to_list (given_by descriptor.now)) }
{
    if let Some(export) = given_by(descriptor) {
        given.push(export)?;
    }
    Ok(())
}

/// The exports that descriptors give, once for each time.
pub(crate) fn all_given(
    alloc: Global,
    descriptors: &[Descriptor],
) -> Result<Items<ExportId>, Memory>
    ensures { IfOk result (λ given. given ≡ all_given descriptors.now) }
{
    let mut given = Vec::new(alloc);
    for descriptor in descriptors {
        push_given(&mut given, descriptor)?;
    }
    Ok(Items::from_vec(given))
}
