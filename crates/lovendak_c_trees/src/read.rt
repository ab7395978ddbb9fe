// Payloads are read, and looked into by paths.
ghost use Rattle.std.specs.Prelude.{◌≡◌, ◌⊎◌, ◌<◌, ◌≤◌, None, Some, IfOk, IfErr, MatchOption, MatchResult, option_map};
ghost use Rattle.capn_trees.specs.Trees.{Tree};
ghost use Rattle.capn_reading.specs.Looking.{At};
ghost use Rattle.capn_reading.specs.Reading.{root_of, tree_read};
ghost use Rattle.capn_wire.specs.Payloads.{IsEncoded};
ghost use Rattle.lovendak_c_trees.specs.Contents.{shown_all};
ghost use Rattle.lovendak_c_trees.specs.Looks.{CapabilityAt, CapabilityIn, DataAt, KindAt, NumberAt, NumberIn, Reads, TextAt, TextIn, next, number_in, payload_at, standing, walk};
ghost use Rattle.lovendak_c_trees.specs.declared.fault.TreeFault.TheVariants as tree_fault;

use crate::content::Content;
use crate::copies::copy_out;
use crate::fault::TreeFault;
use crate::trees::Trees;
use capn_wire::{Element, Kind, Payload, PayloadFault, Place, View};
use std::alloc::Global;

/// What stands at a place.
#[derive(Clone, Copy, Debug, PartialEq, Eq, Drop)]
pub struct Standing {
    /// 0 null, 1 a struct, 2 a list, 3 a capability.
    pub kind: u32,
    /// How many elements a list has, or the index of a capability; else 0.
    pub number: u32,
}

impl Trees {
    /// Reads a payload that goes with so many capabilities: its number. `Malformed` where the bytes are none, `Memory`, `Full`.
    pub fn read(&mut self, alloc: Global, bytes: &[u8], caps: u32) -> Result<u32, TreeFault>
        ensures { Reads (record { bytes = bytes.now; caps = caps }) result (shown_all self.old.contents.items) (shown_all self.new.contents.items) }
    {
        let payload = payload_of(alloc, bytes, caps)?;
        self.add(Content::Payload(payload))
    }

    /// What stands at a path of a payload. `Nothing` where there is no such payload or path.
    pub fn kind(&self, at: u32, path: &[u32]) -> Result<Standing, TreeFault>
        ensures { KindAt (payload_at (shown_all self.now.contents.items) at) path.now result }
    {
        let Some(payload) = self.payload(at) else {
            return Err(TreeFault::Nothing);
        };
        let view = payload.view();
        let Some(place) = place_at(&view, path) else {
            return Err(TreeFault::Nothing);
        };
        Ok(kind_of(&place))
    }

    /// The number of so many bits at so many times its width: in the data of a struct at a path of a payload (0 past its end and behind
    /// null), or in a list of such numbers. `NoSuchNumber` where that is no width, `Nothing` where something else stands there, or
    /// nothing.
    pub fn number(&self, at: u32, path: &[u32], bits: u32, index: u32) -> Result<u64, TreeFault>
        ensures { NumberAt (payload_at (shown_all self.now.contents.items) at) path.now bits index result }
    {
        let Some(payload) = self.payload(at) else {
            return Err(TreeFault::Nothing);
        };
        let view = payload.view();
        let Some(place) = place_at(&view, path) else {
            return Err(TreeFault::Nothing);
        };
        number_of(&place, bits, index)
    }

    /// Hands out the text at a path of a payload, and says how many bytes it has: none behind null. `NoRoom` where there is too little
    /// room, and nothing is handed out but the length; `Nothing` where something else stands there, or nothing.
    pub fn text(
        &self,
        at: u32,
        path: &[u32],
        out: &mut [u8],
        len: &mut usize,
    ) -> Result<(), TreeFault>
        ensures { TextAt (payload_at (shown_all self.now.contents.items) at) path.now out.old len.old result out.new len.new }
    {
        let Some(payload) = self.payload(at) else {
            return Err(TreeFault::Nothing);
        };
        let view = payload.view();
        let Some(place) = place_at(&view, path) else {
            return Err(TreeFault::Nothing);
        };
        let Some(text) = place.text() else {
            return Err(TreeFault::Nothing);
        };
        copy_out(text.as_bytes(), out, len)
    }

    /// Hands out the bytes of the list of bytes at a path of a payload, as `text` does.
    pub fn data(
        &self,
        at: u32,
        path: &[u32],
        out: &mut [u8],
        len: &mut usize,
    ) -> Result<(), TreeFault>
        ensures { DataAt (payload_at (shown_all self.now.contents.items) at) path.now out.old len.old result out.new len.new }
    {
        let Some(payload) = self.payload(at) else {
            return Err(TreeFault::Nothing);
        };
        let view = payload.view();
        let Some(place) = place_at(&view, path) else {
            return Err(TreeFault::Nothing);
        };
        let Some(bytes) = place.bytes() else {
            return Err(TreeFault::Nothing);
        };
        copy_out(bytes, out, len)
    }

    /// The index of the capability at a path of a payload. `Nothing` where something else stands there, or nothing.
    pub fn capability(&self, at: u32, path: &[u32]) -> Result<u32, TreeFault>
        ensures { CapabilityAt (payload_at (shown_all self.now.contents.items) at) path.now result }
    {
        let Some(payload) = self.payload(at) else {
            return Err(TreeFault::Nothing);
        };
        let view = payload.view();
        let Some(place) = place_at(&view, path) else {
            return Err(TreeFault::Nothing);
        };
        match place.kind() {
            Kind::Capability(index) => Ok(index),
            _ => Err(TreeFault::Nothing),
        }
    }

    // The payload under a number.
    fn payload(&self, at: u32) -> Option<&Payload>
        ensures { option_map (λ p. p.now) result ≡ payload_at (shown_all self.now.contents.items) at }
    {
        match self.contents.get(at as usize) {
            Some(Content::Payload(payload)) => Some(payload),
            _ => None,
        }
    }
}

// The payload of these bytes.
fn payload_of(alloc: Global, bytes: &[u8], caps: u32) -> Result<Payload, TreeFault>
    ensures read { IfOk result (λ payload. (payload ≡ record { bytes = bytes.now; caps = caps }) × IsEncoded payload) }
    ensures not_read { IfErr result (λ e. (e ≡ tree_fault.Memory) ⊎ ((e ≡ tree_fault.Malformed) × (¬ (IsEncoded (record { bytes = bytes.now; caps = caps }))))) }
{
    match Payload::read(alloc, bytes, caps) {
        Ok(payload) => Ok(payload),
        Err(PayloadFault::Memory) => Err(TreeFault::Memory),
        Err(_) => Err(TreeFault::Malformed),
    }
}

// What stands at a path from the root.
fn place_at<'v>(view: &'v View<'v>, path: &[u32]) -> Option<Place<'v>>
    ensures { MatchOption result (walk (tree_read (root_of view.now.message view.now.caps)) path.now ≡ None)
        (λ place. (t : Tree) × (walk (tree_read (root_of view.now.message view.now.caps)) path.now ≡ Some t) × At place t) }
{
    let mut place = view.root();
    for number in path {
        let Some(next) = next(&place, *number) else {
            return None;
        };
        place = next;
    }
    Some(place)
}

// What a pointer of a struct leads to, or an element of a list.
fn next<'v>(place: &Place<'v>, number: u32) -> Option<Place<'v>>
    ensures { (t : Tree) → At place.now t →
        MatchOption result (next t number ≡ None) (λ found. (u : Tree) × (next t number ≡ Some u) × At found u) }
{
    if let Some(item) = place.item(number) {
        return Some(item);
    }
    if number > 65_535 {
        return None;
    }
    place.field(number as u16)
}

fn kind_of(place: &Place) -> Standing
    ensures { (t : Tree) → At place.now t → result ≡ standing t }
{
    match place.kind() {
        Kind::Null => Standing { kind: 0, number: 0 },
        Kind::Struct => Standing { kind: 1, number: 0 },
        Kind::List => {
            let count = place.len().unwrap_or(0);
            Standing {
                kind: 2,
                number: count,
            }
        }
        Kind::Capability(index) => Standing {
            kind: 3,
            number: index,
        },
    }
}

fn number_of(place: &Place, bits: u32, index: u32) -> Result<u64, TreeFault>
    ensures { (t : Tree) → At place.now t → NumberIn t bits index result }
{
    match bits {
        1 => sized_number::<bool>(place, index),
        8 => sized_number::<u8>(place, index),
        16 => sized_number::<u16>(place, index),
        32 => sized_number::<u32>(place, index),
        64 => sized_number::<u64>(place, index),
        _ => Err(TreeFault::NoSuchNumber),
    }
}

fn sized_number<E: Element + Drop>(place: &Place, index: u32) -> Result<u64, TreeFault>
    requires some { 0 < E.BITS }
    requires bits { E.BITS ≤ 64 }
    ensures { (t : Tree) → At place.now t → MatchResult result (λ n. number_in E.BITS t index ≡ Some n) (λ e. (e ≡ tree_fault.Nothing) × (number_in E.BITS t index ≡ None)) }
{
    if let Some(number) = place.number::<E>(index) {
        return Ok(number.number());
    }
    match place.element::<E>(index) {
        Some(element) => Ok(element.number()),
        None => Err(TreeFault::Nothing),
    }
}
