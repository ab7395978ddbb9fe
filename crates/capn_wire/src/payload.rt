//! A payload: bytes of the encoding that were read once, and the number of its capabilities.
ghost use Rattle.std.specs.Prelude.{◌≡◌, ◌<◌, ◌≤◌, ◌⊎◌, ℕ, List, length, IfSome, IfOk, IfErr, MatchOption, MatchResult, Err};
ghost use Rattle.capn_reading.specs.Reading.{message_of, root_of, tree_read};
ghost use Rattle.capn_trees.specs.declared.faults.PayloadFault.TheVariants as faults;
ghost use Rattle.capn_trees.specs.declared.faults.WriteFault.TheVariants as write_faults;

use crate::faults::Memory;
use crate::lookup::find;
use crate::path::{CapAt, Op};
use capn_reading::{MOST_COUNTED, Message, View, build_tree, visited_within, visited_words};
use capn_trees::limits::MOST_VISITED;
use capn_trees::{PayloadFault, Tree, WriteFault};
use capn_writing::{message_of, write_tree};
use std::alloc::{AllocError, Global};
use std::marker::Model;
use std::sync::Arc;

/// Bytes of the encoding, and the number of the capabilities that go with them. It can't be malformed.
/// Copies share their bytes.
#[derive(Debug, Drop)]
pub struct Payload {
    bytes: Arc<Vec<u8>>,
    caps: u32,
}

impl Model for Payload {
    ghost use Rattle.std.specs.Arc.{arc_value};
    ghost use Rattle.capn_wire.specs.Payloads.{Contents, IsPayload};

    ghost Value = { Contents };

    ghost view = { λ a. record { bytes = (arc_value a.bytes).items; caps = a.caps } };

    ghost invariant = { λ a. IsPayload (record { bytes = (arc_value a.bytes).items; caps = a.caps }) };
}

impl Payload {
    ghost use Rattle.capn_wire.specs.Payloads.{IsEncoded, IsPayload, FitsWithin, Says, tree_of, null_payload, root_payload, words_in};
    ghost use Rattle.capn_trees.specs.Trees.{Tree as SpecTree, null, capability};
    ghost use Rattle.capn_trees.specs.Views.{view};
    ghost use Rattle.capn_wire.specs.Walking.{capability_at};
    ghost use Rattle.capn_writing.specs.Placing.{one_segment, written};
    ghost use Rattle.capn_trees.specs.Writable.{refusal};

    /// Reads a message of the encoding that goes with `caps` capabilities: "Serialization Over a Stream"
    /// and "Encoding" of the Cap'n Proto specification, within the limits of docs/encoding.md.
    pub fn read(alloc: Global, bytes: &[u8], caps: u32) -> Result<Payload, PayloadFault>
        // What is read is a message of the encoding, and says a tree.
        ensures found { IfOk result (λ p. (p ≡ record { bytes = bytes.now; caps = caps }) × IsEncoded p) }
        ensures tree { IfOk result (λ p. (m : List (List ℕ)) × Says p m (tree_of p)) }
        // What is a message of the encoding and says a tree is read, unless memory runs out.
        ensures only { (m : List (List ℕ)) (t : SpecTree) → Says (record { bytes = bytes.now; caps = caps }) m t →
            MatchResult result (λ p. tree_of p ≡ t) (λ e. e ≡ faults.Memory) }
        // Else the fault is the first check that fails.
        ensures first { IfErr result (λ e. (e ≡ faults.Memory) ⊎ (message_of bytes.now caps ≡ Err e)) }
    {
        Payload::checked(alloc, bytes, caps)
    }

    /// What `read` answers, by the checks in their order.
    fn checked(alloc: Global, bytes: &[u8], caps: u32) -> Result<Payload, PayloadFault>
        ensures found { IfOk result (λ p. (p ≡ record { bytes = bytes.now; caps = caps }) × IsEncoded p) }
        ensures only { IsEncoded (record { bytes = bytes.now; caps = caps }) → IfErr result (λ e. e ≡ faults.Memory) }
        ensures first { IfErr result (λ e. (e ≡ faults.Memory) ⊎ (message_of bytes.now caps ≡ Err e)) }
    {
        visited_words(bytes, caps)?;
        let payload = Payload::of_bytes(alloc, bytes, caps)?;
        Ok(payload)
    }

    /// A payload of a copy of these bytes.
    fn of_bytes(alloc: Global, bytes: &[u8], caps: u32) -> Result<Payload, AllocError>
        requires { IsEncoded (record { bytes = bytes.now; caps = caps }) }
        ensures { IfOk result (λ p. p ≡ record { bytes = bytes.now; caps = caps }) }
    {
        let copy = Vec::from_slice(alloc, bytes)?;
        Payload::sharing(alloc, copy, caps)
    }

    /// The payload of these bytes, which its copies will share.
    fn sharing(alloc: Global, bytes: Vec<u8>, caps: u32) -> Result<Payload, AllocError>
        requires { IsEncoded (record { bytes = bytes.items; caps = caps }) }
        ensures { IfOk result (λ p. p ≡ record { bytes = bytes.items; caps = caps }) }
    {
        let bytes = Arc::new(alloc, bytes)?;
        Ok(Payload { bytes, caps })
    }

    /// Writes a tree that goes with `caps` capabilities, as a message of one segment: the bytes that
    /// docs/encoding.md lays down for it. Refused for the first reason that the page has, each looked for
    /// in the whole tree, and with `Memory` if memory runs out. The tree is left as it is.
    pub fn write(alloc: Global, tree: &Tree, caps: u32) -> Result<Payload, WriteFault>
        // A tree is refused for the first reason, and one without a reason for lack of memory alone.
        ensures refused { MatchOption (refusal (view tree.now) caps) (IfErr result (λ e. e ≡ write_faults.Memory)) (λ fault. result ≡ Err fault) }
        ensures placed { IfOk result (λ p. p ≡ record { bytes = written (view tree.now); caps = caps }) }
        // What is written reads as the tree.
        ensures tree { IfOk result (λ p. IsEncoded p × (tree_of p ≡ view tree.now)) }
    {
        let message = write_tree(alloc, tree, caps)?;
        let payload = Payload::sharing(alloc, message, caps)?;
        Ok(payload)
    }

    /// The payload of these words, in one segment, which say something.
    pub fn of_segment(alloc: Global, words: &[u64], caps: u32) -> Result<Payload, Memory>
        requires few { length words.now ≤ 65536 }
        requires encoded { IsEncoded (record { bytes = one_segment words.now; caps = caps }) }
        ensures { IfOk result (λ p. p ≡ record { bytes = one_segment words.now; caps = caps }) }
    {
        let bytes = message_of(alloc, words)?;
        let payload = Payload::sharing(alloc, bytes, caps)?;
        Ok(payload)
    }

    /// The payload of a null pointer, which goes with no capabilities.
    pub fn null(alloc: Global) -> Result<Payload, Memory>
        ensures { IfOk result (λ p. (p ≡ null_payload) × (tree_of p ≡ null)) }
    {
        let bytes = [0, 0, 0, 0, 1, 0, 0, 0, 0, 0, 0, 0, 0, 0, 0, 0];
        let payload = Payload::of_bytes(alloc, &bytes, 0)?;
        Ok(payload)
    }

    /// The payload of a pointer to the only capability that goes with it.
    pub fn root_capability(alloc: Global) -> Result<Payload, Memory>
        ensures { IfOk result (λ p. (p ≡ root_payload) × (tree_of p ≡ capability 0)) }
    {
        let bytes = [0, 0, 0, 0, 1, 0, 0, 0, 3, 0, 0, 0, 0, 0, 0, 0];
        let payload = Payload::of_bytes(alloc, &bytes, 1)?;
        Ok(payload)
    }

    /// The bytes of the message.
    pub fn bytes(&self) -> &[u8]
        ensures value { result.now ≡ self.now.bytes }
        ensures payload { IsPayload self.now }
    {
        let shared = &self.bytes;
        shared.as_slice()
    }

    /// How many capabilities go with it.
    pub fn caps(&self) -> u32
        ensures { result ≡ self.now.caps }
    {
        let Payload { caps, .. } = self;
        *caps
    }

    /// How many words a visit of its contents counts, if these nest at most so deep.
    pub fn words_within(&self, levels: u32) -> Option<u32>
        requires { levels ≤ 64 }
        ensures exact { result ≡ words_in self.now levels }
        ensures fits { IfSome result (λ n. FitsWithin self.now levels n) }
    {
        match visited_within(self.bytes(), self.caps(), levels) {
            // The count begins at the difference of these, so that it ends at the limit.
            Ok(counted) => Some(counted.saturating_sub(MOST_COUNTED - MOST_VISITED as u32)),
            Err(_) => None,
        }
    }

    /// What stands at a path: a capability, null, or something else.
    pub fn cap_at(&self, path: &[Op]) -> CapAt
        ensures { result ≡ capability_at (tree_of self.now) path.now }
    {
        find(&self.view(), path)
    }

    /// Its message, to be looked into from the root on: what stands there is what the tree says.
    pub fn view(&self) -> View<'_>
        ensures { tree_read (root_of result.message result.caps) ≡ tree_of self.now }
    {
        View::of(self.bytes.as_slice(), self.caps)
    }

    /// What the payload says, as a tree.
    pub fn tree(&self, alloc: Global) -> Result<Tree, Memory>
        ensures { IfOk result (λ t. view t ≡ tree_of self.now) }
    {
        let Ok(message) = Message::parse(self.bytes.as_slice()) else {
            unreachable!()
        };
        let tree = build_tree(alloc, &message, self.caps)?;
        Ok(tree)
    }

    /// The same payload again. It shares the bytes, unless there are too many owners to count.
    #[inline(never)]
    pub fn copy(&self, alloc: Global) -> Result<Payload, Memory>
        ensures { IfOk result (λ p. p ≡ self.now) }
    {
        let caps = self.caps;
        if let Ok(bytes) = Arc::try_clone(&self.bytes) {
            return Ok(Payload { bytes, caps });
        }
        let payload = self.copy_bytes(alloc)?;
        Ok(payload)
    }

    // Apart, so that `copy` stays short.
    #[cold]
    #[inline(never)]
    fn copy_bytes(&self, alloc: Global) -> Result<Payload, Memory>
        ensures { IfOk result (λ p. p ≡ self.now) }
    {
        let payload = Payload::of_bytes(alloc, self.bytes.as_slice(), self.caps)?;
        Ok(payload)
    }
}

impl PartialEq for Payload {
    ghost use Rattle.std.specs.Cmp.{partial_equiv_from_equiv};
    ghost use Rattle.capn_wire.specs.Payloads.{same_contents, same_contents_equiv};

    ghost eq = { same_contents };

    ghost laws = { partial_equiv_from_equiv same_contents_equiv };

    fn eq(&self, other: &Payload) -> bool {
        self.bytes() == other.bytes() && self.caps == other.caps
    }
}

impl Eq for Payload {
    ghost use Rattle.capn_wire.specs.Payloads.{same_contents_equiv};

    ghost laws = { same_contents_equiv };
}
