//! The largest contents and reasons that fit, and the smallest that don't.
use crate::tests::contents::{nested, reason, sevens};
use capn_trees::{Tree, WriteFault};
use rpc_codec_fits::fits_envelope;
use rpc_machine::{CallCommand, Command};
use rpc_msg::{Exception, Items, Payload, PromiseId, RefId, TaskId};
use std::alloc::Global;
use std::test::Fail;

/// The command that has the contents.
#[derive(Clone, Copy, Drop)]
enum Carrier {
    Call,
    Answer,
}

#[derive(Clone, Copy, Drop)]
enum Contents {
    /// That nest so deep.
    Levels(usize),
    /// A list of so many words.
    Words(usize),
}

use Carrier::{Answer, Call};
use Contents::{Levels, Words};

/// Contents with so many capabilities, and whether they fit.
const FIT: [(Carrier, Contents, u32, bool); 10] = [
    (Call, Levels(61), 0, true),
    (Call, Levels(62), 0, false),
    (Answer, Levels(61), 0, true),
    (Answer, Levels(62), 0, false),
    (Call, Words(65_504), 0, true),
    (Call, Words(65_505), 0, false),
    (Call, Words(65_461), 2, true),
    (Call, Words(65_462), 2, false),
    (Answer, Words(65_528), 0, true),
    (Answer, Words(65_529), 0, false),
];

fn tree_of(alloc: Global, contents: Contents) -> Result<Tree, WriteFault> {
    match contents {
        Levels(levels) => nested(alloc, levels),
        Words(count) => sevens(alloc, count),
    }
}

fn payload(alloc: Global, contents: Contents, caps: u32) -> Result<Payload, WriteFault> {
    let tree = tree_of(alloc, contents)?;
    Payload::write(alloc, &tree, caps)
}

fn goes(command: Command) -> bool {
    fits_envelope(&command)
}

fn fits(alloc: Global, carrier: Carrier, payload: Payload) -> bool {
    match carrier {
        Carrier::Call => goes(Command::Call(CallCommand {
            reference: RefId(0),
            interface: 1,
            method: 2,
            payload,
            refs: Items::new(alloc),
        })),
        Carrier::Answer => goes(Command::Answer(TaskId(0), payload, Items::new(alloc))),
    }
}

#[test]
fn contents_fit_up_to_their_levels_and_words(rt: HostRuntime) -> Result<(), Fail> {
    for (number, (carrier, contents, caps, wanted)) in FIT.iter().enumerate() {
        let payload = payload(rt.alloc(), *contents, *caps)?;
        let is_fit = fits(rt.alloc(), *carrier, payload);
        assert!(rt; is_fit == *wanted, "contents {number}");
    }
    Ok(())
}

fn fails(exception: Exception) -> bool {
    goes(Command::Fail(TaskId(0), exception))
}

fn rejects(exception: Exception) -> bool {
    goes(Command::Reject(PromiseId(0), exception))
}

#[test]
fn reasons_fit_up_to_their_room(rt: HostRuntime) -> Result<(), Fail> {
    for (bytes, wanted) in [(524_215, true), (524_216, false)] {
        assert!(rt; fails(reason(rt.alloc(), bytes)?) == wanted);
        assert!(rt; rejects(reason(rt.alloc(), bytes)?) == wanted);
    }
    assert!(rt; goes(Command::Bootstrap));
    Ok(())
}
