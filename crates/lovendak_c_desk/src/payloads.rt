// Payloads made of numbers, a text and capabilities, and looked into.
ghost use Rattle.std.specs.Prelude.{◌≡◌, ◌⊎◌, option_map, IfOk, IfErr};
ghost use Rattle.capn_trees.specs.declared.faults.WriteFault.TheVariants as write_faults;
ghost use Rattle.rpc_machine.specs.declared.command.Refusal.TheVariants as refusals;
ghost use Rattle.lovendak_c_desk.specs.declared.not_done.NotDone.TheVariants as not_done;
ghost use Rattle.lovendak_c_desk.specs.Contents.{IsNotUtf8, Makes, NumberAt, ReferenceAt, TextAt};
ghost use Rattle.lovendak_c_desk.specs.Given.{lacks_memory, path};

use crate::copies::copy_out;
use crate::given::{path_of, payload_of};
use crate::not_done::NotDone;
use capn_trees::WriteFault;
use rpc_msg::CapAt;
use std::alloc::Global;
use vat_connection::Refusal;

/// No number of a payload has such an index.
const TOO_HIGH: usize = 4_294_967_296;

/// Hands out the bytes of a payload, and says how many they are. It is a struct whose data words are these numbers, with the text
/// as its pointer 0, if there is one, and so many capabilities as the pointers behind it. `NoRoom` if there is too little room:
/// only the length is handed out. `Malformed` if the text is no UTF-8, `Full` if a limit of payloads is passed, `Memory`.
pub fn contents(
    alloc: Global,
    numbers: &[u64],
    text: Option<&[u8]>,
    caps: u32,
    out: &mut [u8],
    len: &mut usize,
) -> Result<(), NotDone>
    ensures { Makes numbers.now (option_map (λ t. t.now) text.entry) caps out.old len.old result out.new len.new }
{
    let text = letters_of(text)?;
    let payload = match vat_payloads::payload(alloc, numbers, text, caps) {
        Ok(payload) => payload,
        Err(fault) => return Err(not_written(fault)),
    };
    copy_out(payload.bytes(), out, len)
}

// The text of these bytes, if there are any.
fn letters_of(bytes: Option<&[u8]>) -> Result<Option<&str>, NotDone>
    ensures read { IfOk result (λ text. option_map (λ t. t.now) text ≡ option_map (λ t. t.now) bytes.entry) }
    ensures not_read { IfErr result (λ why. (why ≡ not_done.Malformed) × IsNotUtf8 (option_map (λ t. t.now) bytes.entry)) }
{
    let Some(bytes) = bytes else {
        return Ok(None);
    };
    match str::from_utf8(bytes) {
        Ok(text) => Ok(Some(text)),
        Err(_) => Err(NotDone::Malformed),
    }
}

// What a fault of writing is called here.
fn not_written(fault: WriteFault) -> NotDone
    ensures memory { fault ≡ write_faults.Memory → result ≡ lacks_memory }
    ensures refused { (result ≡ lacks_memory) ⊎ (result ≡ not_done.Refused refusals.Full) }
{
    match fault {
        WriteFault::Memory => NotDone::Refused(Refusal::Memory),
        _ => NotDone::Refused(Refusal::Full),
    }
}

/// The data word of that index of a payload's root, a struct; 0 past its end and behind null. `Nothing` if the root is a list or
/// a capability, `NoSuchNumber` if the index is above 4,294,967,295, `Malformed` if the bytes are no payload of so many
/// capabilities, `Memory`.
pub fn number_at(alloc: Global, bytes: &[u8], caps: u32, index: usize) -> Result<u64, NotDone>
    ensures { NumberAt (record { bytes = bytes.now; caps = caps }) index result }
{
    if index >= TOO_HIGH {
        return Err(NotDone::NoSuchNumber);
    }
    let payload = payload_of(alloc, bytes, caps as usize)?;
    let view = payload.view();
    match view.root().number::<u64>(index as u32) {
        Some(number) => Ok(number),
        None => Err(NotDone::Nothing),
    }
}

/// Hands out the text at that pointer of a payload's root, a struct, and says how many bytes it has: none past the end and behind
/// null. `NoRoom` if there is too little room, and nothing is handed out but the length; `Nothing` if something else stands
/// there; `Malformed` and `Memory` as for a number.
pub fn text_at(
    alloc: Global,
    bytes: &[u8],
    caps: u32,
    pointer: u16,
    out: &mut [u8],
    len: &mut usize,
) -> Result<(), NotDone>
    ensures { TextAt (record { bytes = bytes.now; caps = caps }) pointer out.old len.old result out.new len.new }
{
    let payload = payload_of(alloc, bytes, caps as usize)?;
    let view = payload.view();
    let Some(place) = view.root().field(pointer) else {
        return Err(NotDone::Nothing);
    };
    let Some(text) = place.text() else {
        return Err(NotDone::Nothing);
    };
    copy_out(text.as_bytes(), out, len)
}

/// Which of the references that came with a payload stands at that path. `Nothing` if no capability does; `Malformed` and `Memory`
/// as for a number.
pub fn reference_at(alloc: Global, bytes: &[u8], caps: u32, steps: &[u16]) -> Result<usize, NotDone>
    ensures { ReferenceAt (record { bytes = bytes.now; caps = caps }) (path steps.now) result }
{
    let payload = payload_of(alloc, bytes, caps as usize)?;
    let path = path_of(alloc, steps)?;
    match payload.cap_at(&path) {
        CapAt::Cap(index) => Ok(index as usize),
        _ => Err(NotDone::Nothing),
    }
}
