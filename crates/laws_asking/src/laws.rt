//! The functions run no code: what each ensures is the law.
ghost use Rattle.laws_asking.specs.Heard.{NoneIsAFault};
ghost use Rattle.laws_asking.specs.Turns.{StepsAskInTurn};

/// In each step of a vat of any level, whatever it receives but questions of its own: it asks by an id only if the
/// question of that id is finished, and finishes only one that it asked.
pub fn steps_ask_in_turn()
    ensures { StepsAskInTurn }
{}

/// So an adapter that hears all that a vat says finds no message of it at fault, whatever the tables of the vat behind the adapter, and
/// whatever that vat says.
pub fn no_message_is_a_fault()
    ensures { NoneIsAFault }
{
    steps_ask_in_turn();
}
