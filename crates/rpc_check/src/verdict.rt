/// What `check` says of a trace. Entries count from 1.
#[derive(Clone, Copy, Debug, PartialEq, Eq, Drop)]
pub enum Verdict {
    /// No entry breaks a law; that many calls were delivered.
    Good(u64),
    /// This entry delivers a call out of its turn, or at another place than the reference's first.
    Order(u64),
    /// At this entry a vat receives although no message is on its way to it.
    Unmatched(u64),
    /// At this entry a vat acts that was down before.
    AfterDown(u64),
    /// At this entry, of the counts of both vats, an export's count is not what its importer and the messages on their
    /// way make of it.
    Count(u64),
}
