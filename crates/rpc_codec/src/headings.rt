//! What a frame says of questions, whether or not the rest of it is understood.
ghost use Rattle.std.specs.Prelude.{◌≡◌};
ghost use Rattle.capn_trees.specs.Trees.{Tree};
ghost use Rattle.capn_reading.specs.Looking.{At};
ghost use Rattle.rpc_codec.specs.Headings.{heading_by, heading_of, heading_at};

use crate::encoding::ANY_CAPS;
use capn_reading::{Place, View, visited_words};
use capn_trees::PayloadFault;
use rpc_msg::{AnswerId, QuestionId};

/// What a frame says of questions.
#[derive(Clone, Copy, Debug, PartialEq, Eq, Drop)]
pub enum Heading {
    /// A Call, Bootstrap, Provide, Accept or Join.
    Asks {
        /// `questionId`.
        question: QuestionId,
        /// `onlyPromisePipeline` of a Call: its sender needs no Return.
        only_promise_pipeline: bool,
    },
    /// A Return.
    Answers {
        /// `answerId`.
        answer: AnswerId,
        /// `noFinishNeeded`: the question ends with the Return, and no Finish comes.
        no_finish_needed: bool,
    },
    /// Any other message.
    Other,
}

fn heading_in(number: u16, message: &Place) -> Heading
    ensures { (t : Tree) → At message.now t → result ≡ heading_by number t }
{
    let Some(id) = message.number::<u32>(0) else {
        return Heading::Other;
    };
    match number {
        2 => Heading::Asks {
            question: QuestionId(id),
            only_promise_pipeline: message.number::<bool>(130).unwrap_or(false),
        },
        8 | 10 | 11 | 12 => Heading::Asks {
            question: QuestionId(id),
            only_promise_pipeline: false,
        },
        3 => Heading::Answers {
            answer: QuestionId(id),
            no_finish_needed: message.number::<bool>(33).unwrap_or(false),
        },
        _ => Heading::Other,
    }
}

fn heading_under(root: &Place) -> Heading
    ensures { (t : Tree) → At root.now t → result ≡ heading_of t }
{
    let Some(number) = root.number::<u16>(0) else {
        return Heading::Other;
    };
    let Some(message) = root.field(0) else {
        return Heading::Other;
    };
    heading_in(number, &message)
}

/// What the bytes of one frame say of questions. [`decode`](crate::decode) answers `Unknown` or `UnknownReturn` if it
/// does not understand all of a message: such a message asks its question all the same, or answers it. The fault is
/// that of the encoding, as of `decode`. The bytes stay as they are.
#[tactic(auto, unfolding(crate::specs::Headings::heading_at))]
pub fn read_heading(bytes: &[u8]) -> Result<Heading, PayloadFault>
    ensures { result ≡ heading_at bytes.now }
{
    visited_words(bytes, ANY_CAPS)?;
    let view = View::of(bytes, ANY_CAPS);
    Ok(heading_under(&view.root()))
}
