//! Whether descriptors name what is there.
ghost use Rattle.std.specs.Prelude.{◌≡◌, OnOk};
ghost use Rattle.look_books.specs.Ends.{kept_of};
ghost use Rattle.look_books.specs.Checks.{Finds, not_there, odd_export, odd_descriptor, named, named_from};

use crate::asking::{not_asked, not_held};
use crate::breach::{Breach, Use};
use crate::end::End;
use crate::judge::Found;
use crate::oddity::Oddity;
use rpc_msg::{Descriptor, ExportId, Memory};

fn not_there(own: &End, heard: &End, usage: Use, descriptor: &Descriptor) -> Option<Breach>
    ensures { result ≡ not_there (kept_of own.now) (kept_of heard.now) usage descriptor.now }
{
    match descriptor {
        Descriptor::ReceiverHosted(export) => not_held(heard, usage, *export),
        Descriptor::ReceiverAnswer(question, _) => not_asked(own, usage, *question),
        _ => None,
    }
}

fn odd_export(own: &End, usage: Use, export: ExportId, promise: bool) -> Option<Oddity>
    ensures { result ≡ odd_export (kept_of own.now) usage export promise }
{
    let held = own.exports.get(&export.0)?;
    if held.promise != promise {
        return Some(Oddity::OtherKind(usage, export, held.promise, held.given.number));
    }
    if !promise {
        return None;
    }
    Some(Oddity::ResolvedPromise(usage, export, held.resolved?))
}

fn odd_descriptor(own: &End, usage: Use, descriptor: &Descriptor) -> Option<Oddity>
    ensures { result ≡ odd_descriptor (kept_of own.now) usage descriptor.now }
{
    match descriptor {
        Descriptor::SenderHosted(export) => odd_export(own, usage, *export, false),
        Descriptor::SenderPromise(export) => odd_export(own, usage, *export, true),
        _ => None,
    }
}

pub(crate) fn judge_descriptor(
    own: &End,
    heard: &End,
    usage: Use,
    descriptor: &Descriptor,
    found: &mut Found,
) -> Result<(), Memory>
    ensures { OnOk result (Finds found.old found.new (named (kept_of own.now) (kept_of heard.now) usage descriptor.now)) }
{
    found.add(not_there(own, heard, usage, descriptor))?;
    found.wonder(odd_descriptor(own, usage, descriptor))?;
    Ok(())
}

pub(crate) fn judge_descriptors(
    own: &End,
    heard: &End,
    descriptors: &[Descriptor],
    found: &mut Found,
) -> Result<(), Memory>
    ensures { OnOk result (Finds found.old found.new (named_from (kept_of own.now) (kept_of heard.now) 0 descriptors.now)) }
{
    for (index, descriptor) in descriptors.iter().enumerate() {
        judge_descriptor(own, heard, Use::Capability(index as u64), descriptor, found)?;
    }
    Ok(())
}
