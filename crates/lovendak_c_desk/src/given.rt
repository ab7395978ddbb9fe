// What is given by numbers and bytes becomes what the connection takes.
ghost use Rattle.std.specs.Prelude.{◌≡◌, ◌⊎◌, IfOk, IfErr, map};
ghost use Rattle.rpc_msg.specs.Payloads.{IsEncoded};
ghost use Rattle.lovendak_c_desk.specs.Given.{finishes_at, IsNoPayload, IsNoText, kind_at, known_or, lacks_memory, level_at, path, references};
ghost use Rattle.rpc_msg.specs.Op.TheVariants.{Field};
ghost use Rattle.lovendak_c_desk.specs.declared.not_done.NotDone.TheVariants as not_done;

use crate::not_done::NotDone;
use rpc_msg::{ExceptionKind, Items, Memory, Op, Payload, PayloadFault, RefId, Text};
use std::alloc::{AllocError, Global};
use vat_connection::{Finishes, Level};

/// No payload has as many capabilities.
const TOO_MANY_CAPS: usize = 4_294_967_296;

/// The level of that number.
pub(crate) fn level_of(number: u32) -> Result<Level, NotDone>
    ensures { result ≡ known_or not_done.NoSuchNumber (level_at number) }
{
    match number {
        0 => Ok(Level::Zero),
        1 => Ok(Level::One),
        _ => Err(NotDone::NoSuchNumber),
    }
}

/// The kind of that number.
pub(crate) fn kind_of(number: u32) -> Result<ExceptionKind, NotDone>
    ensures { result ≡ known_or not_done.NoSuchNumber (kind_at number) }
{
    match number {
        0 => Ok(ExceptionKind::Failed),
        1 => Ok(ExceptionKind::Overloaded),
        2 => Ok(ExceptionKind::Disconnected),
        3 => Ok(ExceptionKind::Unimplemented),
        _ => Err(NotDone::NoSuchNumber),
    }
}

/// When a Finish goes, by that number.
pub(crate) fn finishes_of(number: u32) -> Result<Finishes, NotDone>
    ensures { result ≡ known_or not_done.NoSuchNumber (finishes_at number) }
{
    match number {
        0 => Ok(Finishes::AtOnce),
        1 => Ok(Finishes::AfterReturn),
        _ => Err(NotDone::NoSuchNumber),
    }
}

/// The references of these numbers.
pub(crate) fn refs_of(alloc: Global, numbers: &[u64]) -> Result<Items<RefId>, Memory>
    ensures { IfOk result (λ refs. refs ≡ references numbers.now) }
{
    let refs = each_ref(alloc, numbers)?;
    Ok(Items::from_vec(refs))
}

fn each_ref(alloc: Global, numbers: &[u64]) -> Result<Vec<RefId>, AllocError>
    ensures { IfOk result (λ refs. refs.items ≡ map (λ n. record { 0 = n }) numbers.now) }
{
    numbers.iter().map(|number| RefId(*number)).collect(alloc)
}

/// The path of these steps.
pub(crate) fn path_of(alloc: Global, steps: &[u16]) -> Result<Items<Op>, Memory>
    ensures { IfOk result (λ ops. ops ≡ path steps.now) }
{
    let ops = each_step(alloc, steps)?;
    Ok(Items::from_vec(ops))
}

fn each_step(alloc: Global, steps: &[u16]) -> Result<Vec<Op>, AllocError>
    ensures { IfOk result (λ ops. ops.items ≡ map (λ n. Field n) steps.now) }
{
    steps.iter().map(|step| Op::Field(*step)).collect(alloc)
}

/// The payload of these bytes, which goes with so many capabilities.
pub(crate) fn payload_of(alloc: Global, bytes: &[u8], caps: usize) -> Result<Payload, NotDone>
    ensures read { IfOk result (λ payload. (payload ≡ record { bytes = bytes.now; caps = caps }) × IsEncoded payload) }
    ensures not_read { IfErr result (λ why. (why ≡ lacks_memory) ⊎ IsNoPayload (record { bytes = bytes.now; caps = caps }) why) }
{
    if caps >= TOO_MANY_CAPS {
        return Err(NotDone::Malformed);
    }
    match Payload::read(alloc, bytes, caps as u32) {
        Ok(payload) => Ok(payload),
        Err(PayloadFault::Memory) => Err(NotDone::from(Memory)),
        Err(_) => Err(NotDone::Malformed),
    }
}

/// The text of these bytes.
pub(crate) fn text_of(alloc: Global, bytes: &[u8]) -> Result<Text, NotDone>
    ensures read { IfOk result (λ text. text ≡ bytes.now) }
    ensures not_read { IfErr result (λ why. (why ≡ lacks_memory) ⊎ IsNoText bytes.now why) }
{
    let Ok(text) = str::from_utf8(bytes) else {
        return Err(NotDone::Malformed);
    };
    let text = Text::new(alloc, text)?;
    Ok(text)
}
