//! The functions run no code: what each ensures is the law.
ghost use Rattle.laws_peers.specs.Alike.{FittingNamesAreAlike, KindsStandAside};
ghost use Rattle.laws_peers.specs.Fits.{HeardFits};

use laws_messages::exports_resolve_once;

/// As long as no vat falls and nothing is refused, and so in each scene, the oldest message on its way to a vat names each export in
/// one kind and resolves no object: `peer_kinds` hands it on as it came.
pub fn kinds_stand_aside()
    ensures { KindsStandAside }
{
    exports_resolve_once();
    peer_kinds::stands_aside();
}

/// A message that names no import in another kind, and resolves no import twice, names each export in one kind, and resolves no
/// object.
pub fn fitting_names_are_alike()
    ensures { FittingNamesAreAlike }
{}

/// Of any peer: what a vat hears with `peer_kinds` before it names no import in another kind than its own, and no export in two kinds,
/// except for imports of which a Resolve came. And it is no Resolve of an object.
pub fn heard_kinds_fit()
    ensures { HeardFits }
{
    peer_kinds::hears_alike();
}
