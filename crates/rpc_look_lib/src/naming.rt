//! By what names a conversation is told, and whether its contents are.
use crate::failure::Failure;
use crate::weaving::read_all;
use look_books::{Asked, Method};
use look_lines::{Names, Unnamed};
use look_names::{Schema, SchemaError, write_bare};
use rpc_msg::{Descriptor, Memory, Op, Path, Payload};
use std::alloc::{AllocError, Global};
use std::io::Read;

/// The names of a schema, if there is one; and contents, if they are asked for.
#[derive(Drop)]
pub struct Naming {
    /// By what it takes memory.
    pub alloc: Global,
    /// The schema.
    pub schema: Option<Schema>,
    /// Whether contents are told.
    pub payloads: bool,
}

/// Reads a schema, as `capnp compile -o-` writes it. `NoSchema` if the bytes are none, `Unreadable` if the reader fails, `Memory`
/// if a growth was refused.
pub fn read_schema<R: Read>(alloc: Global, reader: &mut R) -> Result<Schema, Failure> {
    let bytes = read_all(alloc, reader)?;
    match Schema::read(alloc, bytes.as_slice()) {
        Ok(schema) => Ok(schema),
        Err(SchemaError::Memory) => Err(Failure::Memory),
        Err(error) => Err(Failure::NoSchema(error)),
    }
}

/// The pointers of a path.
fn pointers_of(alloc: Global, path: &Path) -> Result<Vec<u16>, AllocError> {
    let mut pointers = Vec::new(alloc);
    for step in path.as_slice() {
        if let Op::Field(pointer) = step {
            pointers.push(*pointer).map_err(AllocError::from)?;
        }
    }
    Ok(pointers)
}

impl Naming {
    /// The struct of the results of what was asked, if the schema has its method.
    fn results_of(&self, schema: &Schema, asked: Asked) -> Option<u64> {
        match asked {
            Asked::Call(method) => {
                let called = schema.method(method.interface, method.number)?;
                Some(called.results)
            }
            Asked::Bootstrap | Asked::Unknown(_) => None,
        }
    }

    /// Writes a content, as a struct of that id, behind a colon.
    fn write_content(
        &self,
        out: &mut String,
        id: Option<u64>,
        payload: &Payload,
        descriptors: &[Descriptor],
    ) -> Result<(), AllocError> {
        out.push_str(": ")?;
        let tree = match payload.tree(self.alloc) {
            Ok(tree) => tree,
            Err(Memory) => return Err(AllocError),
        };
        match (&self.schema, id) {
            (Some(schema), Some(id)) => schema.write_content(out, &tree, id, descriptors),
            _ => write_bare(out, &tree, descriptors),
        }
    }
}

impl Names for Naming {
    fn write_method(&self, out: &mut String, method: Method) -> Result<(), AllocError> {
        let Some(schema) = &self.schema else {
            return Unnamed.write_method(out, method);
        };
        let called = schema.method(method.interface, method.number);
        match (schema.name(method.interface), called) {
            (Some(interface), Some(called)) => write!(out, "{interface}.{}", called.name),
            (Some(interface), None) => write!(out, "{interface}.{}", method.number),
            _ => Unnamed.write_method(out, method),
        }
    }

    fn write_place(&self, out: &mut String, asked: Asked, path: &Path) -> Result<(), AllocError> {
        let Some(schema) = &self.schema else {
            return Unnamed.write_place(out, asked, path);
        };
        let Some(results) = self.results_of(schema, asked) else {
            return Unnamed.write_place(out, asked, path);
        };
        let pointers = pointers_of(self.alloc, path)?;
        if pointers.is_empty() {
            return Ok(());
        }
        out.push_str(", ")?;
        schema.write_path(out, results, pointers.as_slice())
    }

    fn write_params(
        &self,
        out: &mut String,
        method: Method,
        payload: &Payload,
        descriptors: &[Descriptor],
    ) -> Result<(), AllocError> {
        if !self.payloads {
            return Ok(());
        }
        let id = match &self.schema {
            Some(schema) => match schema.method(method.interface, method.number) {
                Some(called) => Some(called.params),
                None => None,
            },
            None => None,
        };
        self.write_content(out, id, payload, descriptors)
    }

    fn write_results(
        &self,
        out: &mut String,
        asked: Option<Asked>,
        payload: &Payload,
        descriptors: &[Descriptor],
    ) -> Result<(), AllocError> {
        if !self.payloads {
            return Ok(());
        }
        let id = match (&self.schema, asked) {
            (Some(schema), Some(asked)) => self.results_of(schema, asked),
            _ => None,
        };
        self.write_content(out, id, payload, descriptors)
    }
}
