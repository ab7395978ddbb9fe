//! What is proved of the machine and of two vats. The functions run no code: what each ensures is the law.

ghost use Rattle.rpc_machine.specs.Laws.{OfEachStep, StaysDown, SettlesWhereItLeads, SendsRaiseCounts, IdleIsRight};

/// A vat that is down stays as it is in every step, and says nothing.
pub fn down_stays_down()
    ensures { OfEachStep StaysDown }
{}

/// A node that does not go round settles where its links end.
pub fn settles_where_it_leads()
    ensures { SettlesWhereItLeads }
{}

/// The count of an export rises by the descriptors that a step sends, and falls by what a received message takes off.
pub fn sends_raise_counts()
    ensures { SendsRaiseCounts }
{}

/// No call of a reference is pending exactly if the world says that it is idle.
pub fn idle_is_none_pending()
    ensures { IdleIsRight }
{}
