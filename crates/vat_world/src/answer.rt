use core_telling::Answer;
use rpc_machine::Effects;

/// What an event answers. The messages that its effects sent are on their way to the other vat, and their copies stand in
/// the journal: so the effects name none. Once they were looked at they are given back (`World::give_back`), or taken apart.
pub enum StepAnswer {
    /// What the command answers.
    Answered(Answer),
    /// What the received message did.
    Handled(Effects),
    /// There was no message, or the vat is down.
    Empty,
}
