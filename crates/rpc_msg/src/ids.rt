ghost use Rattle.std.specs.Prelude.{◌≡◌};
ghost use Rattle.rpc_msg.specs.Vats.{other_vat};

/// One of the two vats.
#[derive(Clone, Copy, Debug, PartialEq, Eq, PartialOrd, Ord, Hash, Drop)]
pub enum Vat {
    A,
    B,
}

impl Vat {
    /// The other vat.
    pub fn other(self) -> Vat
        ensures { result ≡ other_vat self }
    {
        match self {
            Vat::A => Vat::B,
            Vat::B => Vat::A,
        }
    }
}

/// Names a question (`QuestionId`), and at the other vat its answer.
///
/// The caller chooses it, and may choose any that is free; the ids that the other vat chooses have nothing to do with
/// its own. It is free again once the Return was received and the Finish was sent, in whichever order. At the other
/// vat the answer goes once the Return was sent and the Finish was received.
#[derive(Clone, Copy, Debug, PartialEq, Eq, PartialOrd, Ord, Hash, Drop)]
pub struct QuestionId(pub u32);

/// Names an answer (`AnswerId`): the id of the other vat's question.
pub type AnswerId = QuestionId;

/// Names an export (`ExportId`), and at the other vat its import.
///
/// The exporter chooses it, and may choose any that is free. It is free again once every reference to it that was
/// given was given back: see `Descriptor`, `Release` and the release flags.
#[derive(Clone, Copy, Debug, PartialEq, Eq, PartialOrd, Ord, Hash, Drop)]
pub struct ExportId(pub u32);

/// Names an import (`ImportId`): the id of the other vat's export.
pub type ImportId = ExportId;

/// Names an embargo (`EmbargoId`). The sender of the senderLoopback chooses it, the other vat sends it back as it is,
/// and nobody else reads it. It is free again once its receiverLoopback was received.
#[derive(Clone, Copy, Debug, PartialEq, Eq, PartialOrd, Ord, Hash, Drop)]
pub struct EmbargoId(pub u32);

/// Names a reference of a vat's application. Numbered from 0, none is used again.
#[derive(Clone, Copy, Debug, PartialEq, Eq, PartialOrd, Ord, Hash, Drop)]
pub struct RefId(pub u64);

/// Names a call or a Bootstrap that a vat's application made. Numbered from 0, none is used again.
#[derive(Clone, Copy, Debug, PartialEq, Eq, PartialOrd, Ord, Hash, Drop)]
pub struct CallId(pub u64);

/// Names a call that was delivered to a vat's application. Numbered from 0, none is used again.
#[derive(Clone, Copy, Debug, PartialEq, Eq, PartialOrd, Ord, Hash, Drop)]
pub struct TaskId(pub u64);

/// Names a promise that a vat's application made. Numbered from 0, none is used again.
#[derive(Clone, Copy, Debug, PartialEq, Eq, PartialOrd, Ord, Hash, Drop)]
pub struct PromiseId(pub u64);

/// Names an object of a vat's application, which chooses it.
#[derive(Clone, Copy, Debug, PartialEq, Eq, PartialOrd, Ord, Hash, Drop)]
pub struct ObjectId(pub u64);

/// Which call it is: the vat and the reference through which it was made, and how many calls were accepted through
/// that reference before. It is set when the application makes the call and copied on every hop; no decision reads
/// it. It is no part of `rpc.capnp`.
#[derive(Clone, Copy, Debug, PartialEq, Eq, PartialOrd, Ord, Hash, Drop)]
pub struct Stamp {
    pub vat: Vat,
    pub reference: RefId,
    pub index: u64,
}
