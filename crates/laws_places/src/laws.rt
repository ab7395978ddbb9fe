//! The functions run no code: what each ensures is the law.

ghost use Rattle.laws_places.specs.Foreseen.{ExportsAreForeseen, PlacesSuffice};

use laws_nodes::nodes_settle;

/// In a state to which a vat comes: what settles a promise or an outcome makes at most as many exports as it may want, by itself and for
/// the calls that wait. So if those that it may want by itself have a place, it passes the limit of exports only by what these calls
/// carry.
pub fn exports_are_foreseen()
    ensures foreseen { ExportsAreForeseen }
    ensures suffice { PlacesSuffice }
{
    nodes_settle();
}
