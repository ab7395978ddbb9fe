//! The room that is left for contents and reasons in the frames that carry them.
ghost use Rattle.std.specs.Prelude.{◌≡◌, ◌≤◌, ◌<◌, ◌^◌, true, nat_lt, length, IsOk};
ghost use Rattle.rpc_msg.specs.Payloads.{words_in};
ghost use Rattle.rpc_msg.specs.declared.message.Message.{Message as SpecMessage};
ghost use Rattle.rpc_codec.specs.Frames.{message_frame};
ghost use Rattle.rpc_codec_fits.specs.Carrying.{Carries, StandsAlone, HasRoom, fits, fits_beside, table_room, reason_room};

use rpc_machine::Command;
use rpc_msg::{Exception, Payload};

/// The levels that a content may have in a Call or a Return, behind those of the message, of its struct and of the
/// payload.
const CONTENT_LEVELS: u32 = 61;

/// The words of a frame, without its root pointer.
const FRAME_WORDS: u64 = 65_535;

/// The words of a Call besides its content and its table. There are 2 of the message, 6 of the Call, 2 of its target
/// with 2 of the answer and 17 of a path of 16 steps, and 2 of the payload.
const CALL_WORDS: u64 = 31;

/// The words of a Return besides its content and its table: 2 of the message, 3 of the Return and 2 of the payload.
const RETURN_WORDS: u64 = 7;

/// The words of a Return besides the reason of its exception, whose own are 3. A Resolve has fewer.
const REASON_WORDS: u64 = 8;

/// The words of the largest table with so many rows: its tag, and for each descriptor its own two, two of an answer and 17
/// of a path.
fn table_words(rows: u32) -> u64
    ensures room { result ≡ table_room rows }
    ensures small { result < 2 ^ 40 }
{
    if rows == 0 {
        return 0;
    }
    1 + 21 * u64::from(rows)
}

fn content_fits(payload: &Payload, beside: u64) -> bool
    requires { beside ≤ 64 }
    ensures exact { result ≡ fits_beside beside payload.now (words_in payload.now 61) }
    ensures room { result ≡ true → HasRoom payload.now beside }
{
    let Some(words) = payload.words_within(CONTENT_LEVELS) else {
        return false;
    };
    let table = table_words(payload.caps());
    if FRAME_WORDS < u64::from(words) + beside + table {
        return false;
    }
    true
}

fn reason_fits(exception: &Exception) -> bool
    ensures exact { result ≡ nat_lt (length exception.now.reason) 524216 }
    ensures room { result ≡ true → reason_room exception.now ≤ 65535 }
{
    let bytes = exception.reason.as_str().len() as u64;
    if 8 * (FRAME_WORDS - REASON_WORDS) <= bytes {
        return false;
    }
    true
}

/// Does what a command gives fit into the frame of every message that carries it to a peer? That is so with whatever
/// target, and with descriptors of whatever length, that a Call or a Return may have. A command for which it says no
/// would be refused by `encode` later, or could be, with the longest of paths. Its content nests deeper than 61 levels
/// or takes more words than the largest message of its kind leaves for it, or its reason is too long for a Return.
/// Other commands give nothing that can be too large.
#[tactic(auto, using(crate::proofs::Room::calls_fit, crate::proofs::Room::returns_fit, crate::proofs::Room::rejects_fit, crate::proofs::Room::throws_fit, crate::proofs::Room::alone))]
pub fn fits_envelope(command: &Command) -> bool
    ensures carried { result ≡ true → (m : SpecMessage) → Carries command.now m → IsOk (message_frame m) }
    // and what is carried can be read as it was
    ensures alone { result ≡ true → StandsAlone command.now }
    ensures exact { result ≡ fits command.now }
{
    match command {
        Command::Call(call) => content_fits(&call.payload, CALL_WORDS),
        Command::Answer(_, payload, _) => content_fits(payload, RETURN_WORDS),
        Command::Reject(_, exception) | Command::Fail(_, exception) => reason_fits(exception),
        _ => true,
    }
}
