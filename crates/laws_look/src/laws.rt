//! The function runs no code: what it ensures is the law.
ghost use Rattle.laws_look.specs.Law.{NoneIsAccused};

use laws_nodes::embargoes_pair;
use rpc_machine::sends_raise_counts;

/// Whatever two new vats of level 1 do, and from whatever point on their links they are seen, the books of a look accuse no message
/// of theirs of anything. Each message passes the point once, at any time between its sending and its receipt; and a vat may fall.
pub fn none_is_accused()
    ensures { NoneIsAccused }
{
    sends_raise_counts();
    embargoes_pair();
}
