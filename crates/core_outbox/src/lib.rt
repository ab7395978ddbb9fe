//! The effects of a step in the making: what a vat sends, delivers and ends in it, the Finishes and Releases of its end,
//! and the one Abort of a vat that goes down. Room is made beforehand: nothing else takes memory.
//!
//! - `outbox.rt`: `Outbox`, to which a step says what it sends, delivers and ends, and of which its `Effects` are taken at
//!   the end.
//! - `rising.rt` keeps entries by rising id as they come.
//! - `lists.rt`: what the lists share: a list that is empty grows by new memory, so that nothing is copied.
//! - `spare.rt`: the memory in which lists go out. If it is as much as the list's, the list goes out and the spare
//!   memory takes its place. Else up to four items are set apart and go out in the spare memory. The list keeps its own
//!   then, if it is for 512 items at most, not counting the messages for Finishes and Releases. More items go out in
//!   the list's memory. Spare memory is made with the room, for four items, or for as many as the list if effects come
//!   back (`recycle`); it never is for more than 512.
//! - `abort.rt`: the memory of one Abort.
//!
//! Contracts see an outbox as `Outgoing` (`specs/Outgoing`). It has what was said so far, and the Finishes and the
//! Releases as maps by id, as the machine has the imports that went. It says whether an Abort's memory is still kept,
//! and which room there is: of messages, deliveries and ended calls, of Finishes, and of Releases. `effects_of` puts
//! them together: messages, then Finishes, then Releases, each by rising id. Two clauses say the same in the machine's
//! words: `take` answers what `releases` makes of any step in progress that said so, and a Finish with the greatest id
//! so far is sent behind all that was said. The room stays if the lists keep as much memory as they had, so that a step
//! which needs no more finds it.
#![tactic(auto)]

mod abort;
mod lists;
mod outbox;
mod rising;
mod spare;

pub use outbox::Outbox;
