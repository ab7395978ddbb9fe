//! Runs of two vats: from their beginning, or from given ones (a promise resolved across, an over-release).

ghost use Rattle.rpc_machine_examples.specs.BackAndForth.{IsBackAndForth};
ghost use Rattle.rpc_machine_examples.specs.CalledBack.{IsCalledBack};
ghost use Rattle.rpc_machine_examples.specs.GivenAgain.{IsGivenAgain};
ghost use Rattle.rpc_machine_examples.specs.GivenBack.{IsGivenBack};
ghost use Rattle.rpc_machine_examples.specs.GivenTwice.{IsGivenTwice};
ghost use Rattle.rpc_machine_examples.specs.LateResolve.{IsLateResolve};
ghost use Rattle.rpc_machine_examples.specs.OneCall.{IsOneCall};
ghost use Rattle.rpc_machine_examples.specs.Promised.{IsPromised};
ghost use Rattle.rpc_machine_examples.specs.Relayed.{IsRelayed};
ghost use Rattle.rpc_machine_examples.specs.OverRelease.{OverReleaseEndsBoth};
ghost use Rattle.rpc_machine_examples.specs.Across.{ResolvesAcross};
ghost use Rattle.rpc_machine_examples.specs.EarlyFinish.{IsEarlyFinish};

/// Vat A asks for B's bootstrap object, calls its field before it is known, is told the results, and lets all go: by a
/// Release, or by the flag of the Finish.
pub fn one_bootstrapped_call()
    ensures { IsOneCall }
{}

/// A finishes a call before its results come. B answers that it was canceled, and delivers the call that waited for a
/// field of the results.
pub fn early_finish()
    ensures { IsEarlyFinish }
{}

/// A promise of B, at which calls of A wait, is resolved to A's own object. A turns to the shorter path, and the calls are
/// delivered as they were made: those that waited, one that was on its way, and those that waited for its Disembargo.
pub fn resolved_across()
    ensures { ResolvesAcross }
{}

/// A promise of B leads to one of A, that to another one of B, and that to A's object. A call goes the whole way, twice over
/// the link each way; A turns to the shorter path twice, each time behind a Disembargo, and the calls are delivered as they
/// were made.
pub fn back_and_forth()
    ensures { IsBackAndForth }
{}

/// A drops a promise of B's, and B resolves it before the Release has come. A takes the capability of the Resolve and
/// releases it at once; then B exports neither.
pub fn late_resolve()
    ensures { IsLateResolve }
{}

/// B receives a Release of none, or of more than it gave. It goes down and sends an Abort, which takes A down; commands
/// are refused, and no message is taken any more.
pub fn over_release()
    ensures { OverReleaseEndsBoth }
{}

/// A calls what B's answer will give, which is an object of A's own. B sends the waiting call back, and relays its Return.
pub fn relayed_back()
    ensures { IsRelayed }
{}

/// A gives an object with a call, and B lets it go: by the flag of the Return, or later by a Release. At each moment the
/// export's count is the import's and what is under way.
pub fn given_back()
    ensures { IsGivenBack }
{}

/// A gives an object with two calls, and B drops what came with the first. The Return of the first takes one back by its
/// flag; that of the second takes none, since a reference names what is left.
pub fn given_twice()
    ensures { IsGivenTwice }
{}

/// B releases an object that a call gave it, and A gives it again before the Release has come. The Release takes off one,
/// and the export lasts: at each moment its count is the import's and what is under way.
pub fn given_again()
    ensures { IsGivenAgain }
{}

/// A gives an object twice with one call. B calls it, and gives it to itself, which A takes as its own object. B drops both
/// references, and the Return of the call takes both back by its flag: the export goes, and A's references last.
pub fn called_back()
    ensures { IsCalledBack }
{}

/// B answers A's call with what a call of its own will give, and sends a Resolve once it knows. A's reference switches to
/// that, and the Finish of A's call takes the promise back by its flag.
pub fn promised_answer()
    ensures { IsPromised }
{}
