//! The law of writing and reading: what was written is read, and says the tree that was written.
ghost use Rattle.std.specs.Prelude.{◌≡◌, Err, IfErr, IfOk, MatchOption, MatchResult};
ghost use Rattle.capn_trees.specs.declared.faults.PayloadFault.TheVariants as faults;
ghost use Rattle.capn_trees.specs.declared.faults.WriteFault.TheVariants as write_faults;
ghost use Rattle.capn_wire.specs.Payloads.{tree_of};
ghost use Rattle.capn_writing.specs.Placing.{written};
ghost use Rattle.capn_trees.specs.Views.{view};
ghost use Rattle.capn_trees.specs.Writable.{refusal};

use crate::payload::Payload;
use capn_trees::{PayloadFault, Tree, WriteFault};
use std::alloc::Global;

/// Writes a tree that goes with `caps` capabilities, and reads the bytes with the same capabilities:
/// that gives a payload that says the tree, unless memory runs out. A tree that can't be written is
/// refused as `Payload::write` refuses it.
pub fn write_and_read(
    alloc: Global,
    tree: &Tree,
    caps: u32,
) -> Result<Result<Payload, PayloadFault>, WriteFault>
    ensures refused { MatchOption (refusal (view tree.now) caps) (IfErr result (λ e. e ≡ write_faults.Memory)) (λ fault. result ≡ Err fault) }
    ensures read { IfOk result (λ read. MatchResult read (λ p. p ≡ record { bytes = written (view tree.now); caps = caps }) (λ e. e ≡ faults.Memory)) }
    ensures tree { IfOk result (λ read. IfOk read (λ p. tree_of p ≡ view tree.now)) }
{
    let payload = Payload::write(alloc, tree, caps)?;
    Ok(Payload::read(alloc, payload.bytes(), payload.caps()))
}
