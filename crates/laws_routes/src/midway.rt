//! What the laws of pieces take as known of a state follows from one record of what is so in the middle of a step. No code runs
//! here.

ghost use Rattle.laws_routes.specs.Midway.{
  AllHeldMayGoFollows,
  AllMayGoFollows,
  AllMaySendFollows,
  CallersMayBeTold,
  CollectedFollows,
  DrainsFollow,
  LinksRestFollows,
  MayActFollows,
  MayAdvanceFollows,
  MayAskFollows,
  MayCallFollows,
  MayFixFollows,
  MayGoFollows,
  MayKeepFollows,
  MayOpenFollows,
  MaySayFollows,
  MaySendFollows,
  MaySettleFollows,
  MayTakeFollows,
  MidwayAsRouted,
  SettlingKeepsIt,
};
ghost use Rattle.laws_routes.specs.Between.{JoinsFollow, NewVatsAreSo, SplitsFollow};
ghost use Rattle.laws_routes.specs.WholeSteps.{CommandsFollow, EndsFollow, SweptFollows};

/// A free id or key may be used: a question may be asked with it, an outcome kept, a promise opened, an import taken.
pub fn free_ids_may_be_used()
    ensures asked { MayAskFollows }
    ensures kept { MayKeepFollows }
    ensures opened { MayOpenFollows }
    ensures taken { MayTakeFollows }
{}

/// Links rest, a call may be routed to any node that is held, and one may be made through any reference.
pub fn calls_may_go()
    ensures rest { LinksRestFollows }
    ensures goes { MayGoFollows }
    ensures made { MayCallFollows }
{}

/// A descriptor may be made of where any such node settles, a Resolve sent of any export, and any reference may advance.
pub fn more_may_be_said()
    ensures said { MaySayFollows }
    ensures sent { MaySendFollows }
    ensures advances { MayAdvanceFollows }
{}

/// A command may do its first act at a vat of level 1, if it is not refused. Behind one that settles a promise or an outcome it
/// is so too.
pub fn commands_may_act()
    ensures acts { MayActFollows }
    ensures kept { SettlingKeepsIt }
{}

/// A call that goes on keeps what is so in the middle of a step. So a list of calls may be routed, one after the other, and those
/// that waited for an outcome.
pub fn routed_calls_keep_it()
    ensures one { MidwayAsRouted }
    ensures list { AllMayGoFollows }
    ensures held { AllHeldMayGoFollows }
{}

/// The Resolves of a promise or of an outcome may be sent, and keep what is so in the middle of a step.
pub fn resolves_keep_it()
    ensures { AllMaySendFollows }
{}

/// A promise may be fixed to what is held and does not lead to it: its calls go on and its Resolves are sent, and it is so behind
/// them.
pub fn fixed_promises_keep_it()
    ensures { MayFixFollows }
{}

/// An outcome may settle with a value whose capabilities are held: its caller is told, its calls go on and its Resolves are sent,
/// and it is so behind them.
pub fn settled_outcomes_keep_it()
    ensures any { MaySettleFollows }
    ensures told { CallersMayBeTold }
{}

/// What arose may settle, one after the other, if the capabilities of what came first are held; and it is so behind all.
pub fn drains_keep_it()
    ensures { DrainsFollow }
{}

/// What no place names may go, one after the other: it is so behind them.
pub fn collecting_keeps_it()
    ensures { CollectedFollows }
{}

/// At the end of a step what no place names goes, questions are finished and imports are released: it is so behind all of it.
pub fn sweeps_keep_it()
    ensures { SweptFollows }
{}

/// Behind the first act of a step all may go on that the laws of whole steps ask of it, and what is so in the middle of a step is
/// so behind the whole step. So a command that is done at a vat of level 1 may do all of it.
pub fn whole_steps_keep_it()
    ensures ends { EndsFollow }
    ensures commands { CommandsFollow }
{}

/// Between two steps that record is what is so of each vat alone, and what is so of one with the other and with what is on its way.
/// All of it is so of two new vats.
pub fn steps_begin_and_end_with_it()
    ensures joins { JoinsFollow }
    ensures splits { SplitsFollow }
    ensures new_vats { NewVatsAreSo }
{}
