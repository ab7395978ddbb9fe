ghost use Rattle.std.specs.Prelude.{◌≡◌};
ghost use Rattle.std.specs.FinMap as map;
ghost use Rattle.rpc_machine.specs.Fullness.{has_no_room};
ghost use Rattle.vat_core.specs.Foreseen.{is_broken, is_exception, is_finished, is_sent, named_as};

use crate::vat::Core;
use rpc_machine::{Finishing, Resolution, SenderKind};
use rpc_msg::{ExportId, QuestionId};
use vat_tables::TABLE_LIMIT;

impl Core {
    /// Whether the peer's export of that id is a promise of which a Resolve has said that it is broken: a message that names it
    /// again takes the vat down. Takes no memory.
    pub fn is_broken(&self, export: ExportId) -> bool
        ensures { result ≡ is_broken (map.get self.now.imports export.0) }
    {
        match self.machine.step.store.imports.get(export.0) {
            None => false,
            Some(import) => is_exception(&import.resolution),
        }
    }

    /// The kind in which the peer's export of that id was named first, if it is an import here, and whether a Resolve of it came.
    /// Takes no memory.
    pub fn named_as(&self, export: ExportId) -> Option<(SenderKind, bool)>
        ensures { result ≡ named_as (map.get self.now.imports export.0) }
    {
        match self.machine.step.store.imports.get(export.0) {
            None => None,
            Some(import) => Some((import.kind, import.resolution.is_some())),
        }
    }

    /// Whether it has as many answers as it may have: a Call or Bootstrap more takes the vat down. Takes no memory.
    pub fn has_all_answers(&self) -> bool
        ensures { result ≡ has_no_room self.now.answers }
    {
        self.machine.step.store.answers.len() >= TABLE_LIMIT
    }

    /// Whether the question of that id is there and its Finish was sent. Takes no memory.
    pub fn is_finished(&self, question: QuestionId) -> bool
        ensures { result ≡ is_finished (map.get self.now.questions question.0) }
    {
        match self.machine.step.store.questions.get(question) {
            None => false,
            Some(entry) => is_sent(entry.finish),
        }
    }
}

fn is_exception(resolution: &Option<Resolution>) -> bool
    ensures { result ≡ is_exception resolution.now }
{
    matches!(resolution, Some(Resolution::Exception(_)))
}

fn is_sent(finishing: Finishing) -> bool
    ensures { result ≡ is_sent finishing }
{
    matches!(finishing, Finishing::Sent)
}
