//! The functions run no code: what each ensures is the law.

ghost use Rattle.laws_messages.specs.Between.{ExportsStand};
ghost use Rattle.laws_messages.specs.Oldest.{ExportsResolveOnce};
ghost use Rattle.laws_messages.specs.Steps.{SettledExportsAreTold};

use laws_runs::counts_agree_in_scenes;
use rpc_machine::sends_raise_counts;

/// A vat gives an object, a promise or a field as an export only while that leads nowhere else. In the step in which
/// the node of an export comes to lead on, one Resolve of it is sent, and never another one.
pub fn settled_exports_are_told()
    ensures { SettledExportsAreTold }
{}

/// As long as no vat falls and nothing is refused, and so in each scene, each export of either vat and the other's
/// import of it, with what is on the way of them, stand as their session says. So counts and kinds fit. Behind a
/// Resolve that finds its import nothing of that id is on the way. An import that was resolved is the last of its
/// session.
pub fn exports_stand()
    ensures { ExportsStand }
{
    sends_raise_counts();
    counts_agree_in_scenes();
}

/// So there the oldest message on its way to a vat never resolves an import that is an object's or was resolved before, and
/// never gives one as another kind, or once it was resolved.
pub fn exports_resolve_once()
    ensures { ExportsResolveOnce }
{
    sends_raise_counts();
    counts_agree_in_scenes();
}
