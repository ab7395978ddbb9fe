//! The functions run no code: what each ensures is the law.

ghost use Rattle.laws_messages.specs.Found.{NamedExportsAreThere};
ghost use Rattle.laws_messages.specs.Imports.{ImportsAnswer};
ghost use Rattle.laws_messages.specs.Kinds.{ExportsKeepNodes};
ghost use Rattle.laws_messages.specs.OfAKind.{ExportsAreOfOneKind};
ghost use Rattle.laws_messages.specs.Mentions.{DescriptorsStand, MentionsStand};

use laws_runs::counts_agree_in_scenes;
use rpc_machine::sends_raise_counts;

/// An export is given as what its node is, hosted or promised, each time that it is given; and while it is there it keeps
/// its node.
pub fn exports_keep_nodes()
    ensures { ExportsKeepNodes }
{}

/// What a vat names on the wire is there at that moment: each import that is a target or that a descriptor names, and
/// each question whose answer is named, and its Finish was not sent.
pub fn mentions_stand()
    ensures steps { MentionsStand }
    ensures descriptors { DescriptorsStand }
{}

/// By itself a vat does with each import what its session allows: it names it only while it holds it, lets go of no more
/// than it holds, and leaves its kind and what its Resolve said.
pub fn imports_answer()
    ensures { ImportsAnswer }
{}

/// As long as no vat falls and nothing is refused, and so in each scene, the oldest message on its way to a vat finds
/// each export that it names. What it calls, and what its descriptors give back, is still there.
pub fn named_exports_are_there()
    ensures { NamedExportsAreThere }
{
    sends_raise_counts();
    counts_agree_in_scenes();
}

/// So is an export of one kind at both vats. Each descriptor of it that is on the way, and the other vat's import, say
/// hosted if its node is an object, and promise if it is a promise or a field.
pub fn exports_are_of_one_kind()
    ensures { ExportsAreOfOneKind }
{
    sends_raise_counts();
    counts_agree_in_scenes();
}
