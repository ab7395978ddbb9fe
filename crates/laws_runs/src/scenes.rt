//! The functions run no code: what each ensures is the law.

ghost use Rattle.laws_runs.specs.SoundScenes.{SoundByScenes, ScenesBySound};
ghost use Rattle.laws_runs.specs.Woven.{RunsAreRuns, LogsAreRuns, LogsAreSound};

/// All that is promised of runs holds once this does of scenes: the order, that all is delivered, and the counts. Also
/// that what is delivered was made and what ends a call answered it, and that no oldest message is refused except for
/// the limit of waiting calls. So only steps that are done are left to look at: no refusal, no fall and no lack of
/// room. And all of it but the last follows from what is promised of runs, so no more is asked of scenes.
pub fn sound_by_scenes()
    ensures runs { SoundByScenes }
    ensures scenes { ScenesBySound }
{}

/// Two lawful logs of two new vats that fit are a run of two vats, in the order of their merge. It ends where the logs
/// do, with what was made and not received on its way. So what is promised of every run holds of them.
pub fn logs_are_runs()
    ensures runs { RunsAreRuns }
    ensures logs { LogsAreRuns }
    ensures sound { LogsAreSound }
{}
