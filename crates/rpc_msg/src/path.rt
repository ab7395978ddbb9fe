ghost use Rattle.std.specs.Prelude.{◌≡◌, ◌≤◌, ◌<◌, ◌↔◌, [], ◌∷◌, ◌++◌, length, IfSome, IsNone};
ghost use Rattle.rpc_msg.specs.Paths.{fields};

use capn_wire::Op;
use std::marker::Model;

/// The most steps that a path may have. The standard sets no limit.
pub const PATH_LIMIT: usize = 16;

/// A path from the root of a payload to a pointer in it (`PromisedAnswer.transform`), of at most 16 steps, Noops too.
/// A step says a pointer by its place in the pointer section of a struct, so no schema is needed to follow it. Seen
/// by contracts as the list of its steps. It takes no memory.
#[derive(Clone, Copy, Debug, PartialEq, Eq, PartialOrd, Ord, Hash, Drop)]
pub struct Path {
    /// The steps, and Noops behind them.
    places: [Op; PATH_LIMIT],
    len: usize,
}

impl Model for Path {
    ghost use Rattle.std.specs.Prelude.{List, length, take};
    ghost use Rattle.capn_wire.specs.declared.path.Op.{Op};

    ghost Value = { List Op };

    ghost use Rattle.rpc_msg.specs.Places.{padded, IsPadded, padded_take};

    ghost view = { λ a. take a.len a.places };

    ghost invariant = { λ a. IsPadded a.len a.places };

    ghost inverse = { λ ops. record { places = padded ops; len = length ops } };

    ghost inverse_ok = { λ a h. padded_take a.len a.places h (λ places len. record { places = places; len = len }) };
}

impl Path {
    /// The empty path.
    pub fn root() -> Self
        ensures { result ≡ [] }
    {
        Path {
            places: [Op::Noop; PATH_LIMIT],
            len: 0,
        }
    }

    /// The path of these steps, if there are at most 16.
    pub fn from_ops(ops: &[Op]) -> Option<Self>
        ensures some { IfSome result (λ path. path ≡ ops.now) }
        ensures none { IsNone result ↔ (16 < length ops.now) }
    {
        if ops.len() > PATH_LIMIT {
            return None;
        }
        let mut path = Path::root();
        for op in ops {
            path.push(*op);
        }
        Some(path)
    }

    /// The steps, in order.
    pub fn as_slice(&self) -> &[Op]
        ensures value { result.now ≡ self.now }
        ensures short { length result.now ≤ 16 }
    {
        &self.places[..self.len]
    }

    /// The path without its Noops, which lead nowhere.
    pub fn fields(&self) -> Self
        ensures { result ≡ fields self.now }
    {
        let mut kept = Path::root();
        for op in self.as_slice() {
            if let Op::Field(_) = op {
                kept.push(*op);
            }
        }
        kept
    }

    fn push(&mut self, op: Op)
        requires { length self.old < 16 }
        ensures { self.new ≡ self.old ++ op ∷ [] }
    {
        self.places[self.len] = op;
        self.len += 1;
    }
}
