ghost use Rattle.std.specs.Prelude.{◌≡◌, ◌++◌, ◌⊎◌, length, map, option_map, None, Some, Err, IsSome, IfOk, IfErr, MatchOption, MatchResult};
ghost use Rattle.std.specs.List.{range_with_len};
ghost use Rattle.rpc_msg.specs.Payloads.{tree_of};
ghost use Rattle.capn_trees.specs.Trees.{capability, struct};
ghost use Rattle.capn_trees.specs.Views.{view, held, trees_view};
ghost use Rattle.capn_trees.specs.Writable.{refusal};
ghost use Rattle.capn_trees.specs.declared.faults.WriteFault.TheVariants as write_faults;
ghost use Rattle.capn_writing.specs.Placing.{written};
ghost use Rattle.vat_payloads.specs.Contents.{AreFound, IsTooMuch, fault_of, said, saying, to_text};

use capn_trees::WriteFault;
use rpc_msg::{Items, Payload, Pointers, RefId, Tree};
use std::alloc::Global;

// A struct has so many pointers at most.
const MOST_POINTERS: u32 = 65_535;

// So many capabilities have a pointer each beside that of the text.
const MOST_CAPS: usize = 65_534;

/// What a call or an answer carries that says some numbers, a text, and some capabilities. It is a struct whose data
/// words are the numbers, with the text as its pointer 0 and the capabilities as its pointers 1, 2 and so on. With it
/// go the references, in their order. Refused with `TooLarge` if it has more than 65,534 references or 65,535 numbers,
/// or would take more than 65,536 words, and with `Memory` if a growth was refused.
pub fn contents(
    alloc: Global,
    numbers: &[u64],
    text: &str,
    refs: &[RefId],
) -> Result<(Payload, Items<RefId>), WriteFault>
    ensures said { IfOk result (λ made. tree_of made.0 ≡ said numbers.now text.now (length refs.now)) }
    ensures caps { IfOk result (λ made. made.0.caps ≡ length refs.now) }
    ensures refs { IfOk result (λ made. made.1 ≡ refs.now) }
    ensures found { IfOk result (λ made. AreFound made.0 made.1 refs.now) }
    ensures fault { MatchResult result (λ _. fault_of numbers.now text.now (length refs.now) ≡ None)
        (λ e. (e ≡ write_faults.Memory) ⊎ (fault_of numbers.now text.now (length refs.now) ≡ Some e)) }
{
    if refs.len() > MOST_CAPS {
        return Err(WriteFault::TooLarge);
    }
    let caps = refs.len() as u32;
    let given = Vec::from_slice(alloc, refs)?;
    let pointers = pointers_to(alloc, Some(text), caps)?;
    let words = Vec::from_slice(alloc, numbers)?;
    let payload = write_struct(alloc, words, pointers, caps)?;
    Ok((payload, Items::from_vec(given)))
}

/// A payload that says some numbers, a text, if there is one, and so many capabilities. It is a struct whose data words
/// are the numbers, with the text as its pointer 0, if there is one, and the capabilities as the pointers behind it.
/// Refused with `Memory`, or if it has more than 65,535 capabilities or passes a limit of payloads.
pub fn payload(
    alloc: Global,
    numbers: &[u64],
    text: Option<&str>,
    caps: u32,
) -> Result<Payload, WriteFault>
    ensures made { IfOk result (λ payload. payload ≡ record { bytes = written (saying numbers.now (option_map (λ t. t.now) text.entry) caps); caps = caps }) }
    ensures refused { IfErr result (λ fault. (fault ≡ write_faults.Memory) ⊎ IsTooMuch numbers.now (option_map (λ t. t.now) text.entry) caps) }
{
    if caps > MOST_POINTERS {
        return Err(WriteFault::TooLarge);
    }
    let pointers = pointers_to(alloc, text, caps)?;
    let words = Vec::from_slice(alloc, numbers)?;
    write_struct(alloc, words, pointers, caps)
}

// Apart, since a tree is let go at each exit.
fn write_struct(
    alloc: Global,
    words: Vec<u64>,
    pointers: Pointers,
    caps: u32,
) -> Result<Payload, WriteFault>
    ensures made { IfOk result (λ payload. payload ≡ record { bytes = written (struct words.items (trees_view (held pointers))); caps = caps }) }
    ensures caps { IfOk result (λ payload. payload.caps ≡ caps) }
    ensures tree { IfOk result (λ payload. tree_of payload ≡ struct words.items (trees_view (held pointers))) }
    ensures refused { MatchOption (refusal (struct words.items (trees_view (held pointers))) caps) (IfErr result (λ e. e ≡ write_faults.Memory)) (λ fault. result ≡ Err fault) }
    ensures lacks { IfErr result (λ fault. (fault ≡ write_faults.Memory) ⊎ IsSome (refusal (struct words.items (trees_view (held pointers))) caps)) }
{
    let tree = Tree::Struct { words, pointers };
    Payload::write(alloc, &tree, caps)
}

// A pointer to the text, if there is one, and one to each of so many capabilities.
fn pointers_to(alloc: Global, text: Option<&str>, caps: u32) -> Result<Pointers, WriteFault>
    ensures made { IfOk result (λ pointers. map view (held pointers) ≡ to_text (option_map (λ t. t.now) text.entry) ++ map capability (range_with_len 0 caps)) }
    ensures memory { IfErr result (λ e. e ≡ write_faults.Memory) }
{
    let mut pointers = text_pointer(alloc, text)?;
    for index in 0..caps {
        pointers.push(capability(index))?;
    }
    Ok(pointers)
}

fn text_pointer(alloc: Global, text: Option<&str>) -> Result<Pointers, WriteFault>
    ensures made { IfOk result (λ pointers. map view (held pointers) ≡ to_text (option_map (λ t. t.now) text.entry)) }
    ensures memory { IfErr result (λ e. e ≡ write_faults.Memory) }
{
    let mut pointers = Pointers::new(alloc);
    let Some(text) = text else {
        return Ok(pointers);
    };
    pointers.push(Tree::text(alloc, text)?)?;
    Ok(pointers)
}

fn capability(index: u32) -> Tree
    ensures { view result ≡ capability index }
{
    Tree::Cap(index)
}
