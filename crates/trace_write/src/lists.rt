ghost use Rattle.std.specs.Prelude.{◌≡◌, IfOk, OnOk};
ghost use Rattle.serde_json.specs.View.{view};
ghost use Rattle.trace_write.specs.Parts.{list, path_data, reference_data, op_data, pair_data, descriptor_data};
ghost use Rattle.trace_write.specs.Fits.{FitsAny, FitsAll, FitsPath, FitsOp, FitsPair, FitsDescriptor};

use crate::members::{write_number, write_only};
use crate::part::Part;
use crate::parts::write_answer_place;
use rpc_msg::{Descriptor, ExportId, Items, Op, Path, RefId};
use serde_json::{ToValue, Value};
use std::alloc::{AllocError, Global};

fn write_list<T: Part>(alloc: Global, parts: &[T]) -> Result<Value, AllocError>
    ensures is { IfOk result (λ v. view v ≡ list T.shown parts.now) }
    ensures fits { OnOk result (FitsAll T.fits parts.now) }
{
    let mut values = Vec::new(alloc);
    for part in parts {
        values.push(part.write(alloc)?)?;
    }
    Ok(Value::Array(values))
}

impl<T: Part> Part for Items<T> {
    ghost shown = { list T.shown };

    ghost fits = { FitsAll T.fits };

    fn write(&self, alloc: Global) -> Result<Value, AllocError> {
        write_list(alloc, self.as_slice())
    }
}

impl Part for Path {
    ghost shown = { path_data };

    ghost fits = { FitsPath };

    fn write(&self, alloc: Global) -> Result<Value, AllocError> {
        write_list(alloc, self.as_slice())
    }
}

impl Part for RefId {
    ghost shown = { reference_data };

    ghost fits = { FitsAny };

    fn write(&self, _alloc: Global) -> Result<Value, AllocError> {
        Ok(Value::from(self.0))
    }
}

impl Part for Op {
    ghost shown = { op_data };

    ghost fits = { FitsOp };

    fn write(&self, _alloc: Global) -> Result<Value, AllocError> {
        match self {
            Op::Noop => Ok(Value::Null),
            Op::Field(n) => Ok(Value::from(*n)),
        }
    }
}

impl Part for (ExportId, u32) {
    ghost shown = { pair_data };

    ghost fits = { FitsPair };

    fn write(&self, alloc: Global) -> Result<Value, AllocError> {
        let pair = vec![in alloc; Value::from(self.0.0), Value::from(self.1)]?;
        Ok(Value::Array(pair))
    }
}

impl Part for Descriptor {
    ghost shown = { descriptor_data };

    ghost fits = { FitsDescriptor };

    fn write(&self, alloc: Global) -> Result<Value, AllocError> {
        match self {
            Descriptor::None => "none".to_value(alloc),
            Descriptor::SenderHosted(id) => write_number(alloc, "senderHosted", id.0),
            Descriptor::SenderPromise(id) => write_number(alloc, "senderPromise", id.0),
            Descriptor::ReceiverHosted(id) => write_number(alloc, "receiverHosted", id.0),
            Descriptor::ReceiverAnswer(question, path) => {
                let answer = write_answer_place(alloc, *question, path)?;
                write_only(alloc, "receiverAnswer", answer)
            }
        }
    }
}
