//! What a vat hears of an envelope.
ghost use Rattle.std.specs.Prelude.{◌≡◌, Some, IfOk, IsTrue, MatchOption, [], ◌∷◌, option_copied};
ghost use Rattle.rpc_codec.specs.Envelopes.{What, profile, seen_envelope};
ghost use Rattle.rpc_msg.specs.declared.message.Message.TheVariants as message;
ghost use Rattle.peer_kinds.specs.Kinds.{Standings, Tells, comes, comes_by, given_by, given_to, heard_descriptor, heard_descriptors, hears, in_first_kinds, is_hosted, resolve_in, seen_kinds};

use crate::firsts::Firsts;
use crate::outcome::Kinds;
use crate::standing::Standing;
use peer_descriptors::{descriptors_in, envelope_with};
use rpc_codec::Envelope;
use rpc_msg::{Descriptor, ExportId, Items, Memory, Message, PlainMessage, Resolve, ResolvedTo};
use std::alloc::Global;

/// What came, as the vat is to hear of it. `standing` tells of an export of the peer how it stands at the vat, if that has it as an
/// import. An envelope with at most one descriptor, which is named as it was first, is handed on in no memory; another takes memory
/// for its descriptors, and `Memory` if there is none.
pub fn hear_kinds<K: Fn(ExportId) -> Option<Standing>>(
    alloc: Global,
    came: Envelope,
    standing: K,
) -> Result<Kinds, Memory>
where
    K: Drop,
    requires { K.IsAlwaysCallable standing }
    ensures { (stands : Standings) → Tells (K.post standing) stands → IfOk result (λ kinds. seen_kinds kinds ≡ comes stands (seen_envelope came)) }
{
    match aside_of(&came, &standing) {
        Some(aside) => Ok(aside),
        None => hear(alloc, came, &standing),
    }
}

// What comes of an envelope that is set aside.
fn aside_of<K: Fn(ExportId) -> Option<Standing>>(came: &Envelope, standing: &K) -> Option<Kinds>
    requires { K.IsAlwaysCallable standing.now }
    ensures { (stands : Standings) → Tells (K.post standing.now) stands → MatchOption result
        (comes stands (seen_envelope came.now) ≡ hears stands (seen_envelope came.now))
        (λ kinds. seen_kinds kinds ≡ comes stands (seen_envelope came.now)) }
{
    match resolve_in(came) {
        Some(resolve) => resolve_aside(resolve, standing),
        None => None,
    }
}

fn resolve_aside<K: Fn(ExportId) -> Option<Standing>>(
    resolve: &Resolve,
    standing: &K,
) -> Option<Kinds>
    requires { K.IsAlwaysCallable standing.now }
    ensures { (stands : Standings) (w : What) → Tells (K.post standing.now) stands → MatchOption result
        (comes_by stands w (Some resolve.now) ≡ hears stands w)
        (λ kinds. seen_kinds kinds ≡ comes_by stands w (Some resolve.now)) }
{
    if is_hosted(standing(resolve.promise)) {
        return Some(Kinds::SetAside(given_to(&resolve.to)));
    }
    None
}

// What comes of an envelope that is not set aside.
fn hear<K: Fn(ExportId) -> Option<Standing>>(
    alloc: Global,
    came: Envelope,
    standing: &K,
) -> Result<Kinds, Memory>
    requires { K.IsAlwaysCallable standing.now }
    ensures { (stands : Standings) → Tells (K.post standing.now) stands → IfOk result (λ kinds. seen_kinds kinds ≡ hears stands (seen_envelope came)) }
{
    let heard = in_first_kinds(alloc, came, standing)?;
    Ok(Kinds::Heard(heard))
}

// The Resolve that an envelope is.
fn resolve_in(came: &Envelope) -> Option<&Resolve>
    ensures { option_copied result ≡ resolve_in (seen_envelope came.now) }
{
    match came {
        Envelope::Message(message) => message_resolve(message),
        _ => None,
    }
}

fn message_resolve(message: &Message) -> Option<&Resolve>
    ensures { option_copied result ≡ resolve_in (profile message.now) }
{
    match message {
        Message::Plain(message) => plain_resolve(message),
        Message::Unimplemented(_) => None,
    }
}

fn plain_resolve(said: &PlainMessage) -> Option<&Resolve>
    ensures { option_copied result ≡ resolve_in (profile (message.Plain said.now)) }
{
    match said {
        PlainMessage::Resolve(resolve) => Some(resolve),
        _ => None,
    }
}

// What came, with each name in the kind of the first one.
fn in_first_kinds<K: Fn(ExportId) -> Option<Standing>>(
    alloc: Global,
    came: Envelope,
    standing: &K,
) -> Result<Envelope, Memory>
    requires { K.IsAlwaysCallable standing.now }
    ensures { (stands : Standings) → Tells (K.post standing.now) stands → IfOk result (λ heard. seen_envelope heard ≡ in_first_kinds stands (seen_envelope came)) }
{
    if is_alone(descriptors_in(&came), standing) {
        return Ok(came);
    }
    let heard = in_kinds(alloc, descriptors_in(&came), standing)?;
    Ok(envelope_with(came, heard))
}

// Whether there is no descriptor, or one alone, which is heard as it is.
fn is_alone<K: Fn(ExportId) -> Option<Standing>>(descriptors: &[Descriptor], standing: &K) -> bool
    requires { K.IsAlwaysCallable standing.now }
    ensures { (stands : Standings) → Tells (K.post standing.now) stands → IsTrue result → heard_descriptors stands descriptors.now ≡ descriptors.now }
{
    match descriptors {
        [] => true,
        [descriptor] => is_first(*descriptor, standing),
        _ => false,
    }
}

// Whether a descriptor that is alone in its message is heard as it is.
fn is_first<K: Fn(ExportId) -> Option<Standing>>(descriptor: Descriptor, standing: &K) -> bool
    requires { K.IsAlwaysCallable standing.now }
    ensures { (stands : Standings) → Tells (K.post standing.now) stands → IsTrue result → heard_descriptor stands (descriptor ∷ []) descriptor ≡ descriptor }
{
    match descriptor {
        Descriptor::SenderHosted(export) => match standing(export) {
            Some(Standing::Promise) => false,
            _ => true,
        },
        Descriptor::SenderPromise(export) => match standing(export) {
            Some(Standing::Hosted) => false,
            _ => true,
        },
        _ => true,
    }
}

fn in_kinds<K: Fn(ExportId) -> Option<Standing>>(
    alloc: Global,
    descriptors: &[Descriptor],
    standing: &K,
) -> Result<Items<Descriptor>, Memory>
    requires { K.IsAlwaysCallable standing.now }
    ensures { (stands : Standings) → Tells (K.post standing.now) stands → IfOk result (λ heard. heard ≡ heard_descriptors stands descriptors.now) }
{
    let mut heard = Vec::with_capacity(alloc, descriptors.len())?;
    let mut firsts = Firsts::new(alloc);
    for descriptor in descriptors {
        let first = firsts.hear(*descriptor, standing)?;
        heard.push(first)?;
    }
    Ok(Items::from_vec(heard))
}

fn is_hosted(standing: Option<Standing>) -> bool
    ensures { result ≡ is_hosted standing }
{
    matches!(standing, Some(Standing::Hosted))
}

// The export of which a Resolve gives one.
fn given_to(to: &ResolvedTo) -> Option<ExportId>
    ensures { result ≡ given_to to.now }
{
    match to {
        ResolvedTo::Cap(descriptor) => given_by(*descriptor),
        ResolvedTo::Exception(_) => None,
    }
}

fn given_by(descriptor: Descriptor) -> Option<ExportId>
    ensures { result ≡ given_by descriptor }
{
    match descriptor {
        Descriptor::SenderHosted(export) => Some(export),
        Descriptor::SenderPromise(export) => Some(export),
        _ => None,
    }
}
