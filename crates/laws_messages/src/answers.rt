//! The functions run no code: what each ensures is the law.

ghost use Rattle.laws_runs.specs.Between.{IsKept};
ghost use Rattle.laws_messages.specs.Loopbacks.{EmbargoesStand, EmbargoesAreAbout, DisembargosAreMet};
ghost use Rattle.laws_messages.specs.Named.{NamedAnswersAreThere};
ghost use Rattle.laws_messages.specs.PayloadCaps.{PayloadsFit};
ghost use Rattle.laws_messages.specs.Returned.{AnswersReturnOnceKnown};

use laws_nodes::embargoes_pair;
use laws_runs::{counts_agree_in_scenes, sessions_stand};
use laws_steps::nodes_are_there;

/// As long as no vat falls and nothing is refused, and so in each scene, an embargo is there exactly as long as one
/// Disembargo of it is. That is on its way to the other vat, or on its way back. There are never two.
pub fn embargoes_are_about()
    ensures kept { IsKept EmbargoesStand }
    ensures about { EmbargoesAreAbout }
{
    sessions_stand();
    embargoes_pair();
    counts_agree_in_scenes();
}

/// In each scene a Disembargo that comes back finds its embargo: it meets no fault.
pub fn disembargos_are_met()
    ensures { DisembargosAreMet }
{
    embargoes_are_about();
    counts_agree_in_scenes();
}

/// In each state to which a vat comes, each answer has its outcome, and its Return was sent exactly if that is known.
pub fn answers_return_once_known()
    ensures { AnswersReturnOnceKnown }
{
    nodes_are_there();
}

/// In each scene every Call and Return on its way has as many capabilities in its payload as it has descriptors.
pub fn payloads_fit()
    ensures { PayloadsFit }
{}

/// In each scene the oldest message on its way to a vat finds each answer that it names: the answer that it calls, and those
/// that its descriptors give back, are open still.
pub fn named_answers_are_there()
    ensures { NamedAnswersAreThere }
{
    counts_agree_in_scenes();
}
