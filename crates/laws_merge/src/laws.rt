//! What is proved of logs. These functions run no code: what they ensure is the theorem.

ghost use Rattle.std.specs.Prelude.{List};
ghost use Rattle.laws_merge.specs.Machine.{Input, side};
ghost use Rattle.laws_merge.specs.Laws.{
  LogsInterleave,
  CutLogsInterleave,
  AcksOfOneSideSuffice,
  LateAcksInterleave,
  LogGrows,
  AckedGrows,
  FramesGrow,
  MergeOfViews,
};
ghost use Rattle.laws_merge.specs.Crossing.{AcksAreNeeded};

/// A kind of side, by its steps: `step old input note sends new` says that from the state `old`, on the input, the
/// side may give this note (its answer and its effects), send these messages and be in the state `new`.
pub trait Steps {
    type State;

    type Command;

    type Note;

    type In;

    type Out;

    ghost step: { Self.State → Input Self.Command Self.In → Self.Note → List Self.Out → Self.State → Type 0 };
}

/// Two lawful logs that fit have an interleaving, and it is their merge. That is a run of the pair machine in which
/// each received frame is the oldest of its link. Its steps at each side are that side's log, entry by entry. It ends
/// where the logs do, and what was made and not received is still on its way.
///
/// `cut`: the same of logs that are cut so that their beginnings fit. `one_side`: it is enough that one of the sides,
/// whichever, looked at the acks that came. `late`: acks that are too high do no harm.
pub fn logs_interleave<A: Steps, B: Steps<In = A::Out, Out = A::In>>()
    ensures whole { LogsInterleave (side A.step) (side B.step) }
    ensures cut { CutLogsInterleave (side A.step) (side B.step) }
    ensures one_side { AcksOfOneSideSuffice (side A.step) (side B.step) }
    ensures late { LateAcksInterleave (side A.step) (side B.step) }
{}

/// Two logs, each lawful, that received what the other made, and for which there is no interleaving at all: each
/// received first what the other made only as it received. The check of acks refuses them.
pub fn acks_are_needed()
    ensures { AcksAreNeeded }
{}

/// What keeps a log lawful, and its acks checked, when one entry is added; and what it then received and made.
pub fn log_grows<S: Steps>()
    ensures lawful { LogGrows (side S.step) }
    ensures acks { AckedGrows (side S.step) }
    ensures frames { FramesGrow (side S.step) }
{}

/// The merge of a program's entries stands for the merge of what the entries stand for.
pub fn merge_of_views<P, Q, A: Steps, B: Steps<In = A::Out, Out = A::In>>()
    ensures { MergeOfViews P Q (side A.step) (side B.step) }
{}
