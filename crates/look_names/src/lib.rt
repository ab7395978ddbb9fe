//! Names by schema: interfaces, methods, and the fields of contents, as `capnp compile -o-` writes them.
//!
//! A [`Schema`] is read from a `CodeGeneratorRequest` of schema.capnp. It says the name of a method, the fields on a path
//! through structs, and a content by the names of its fields:
//!
//! ```text
//! let schema = Schema::read(alloc, &bytes)?;
//! if let Some(method) = schema.method(0xa5e1_c0ff_ee00_0004, 6) {
//!     schema.write_path(&mut text, method.results, &[0, 1])?; // registry.counter
//!     schema.write_content(&mut text, &tree, method.params, &descriptors)?; // (printer = Printer <senderHosted 0>)
//! }
//! ```
//!
//! Names are proved: which node has an id, and what its methods are called. Paths and contents are tested alone.
#![tactic(auto)]

mod bare;
mod content;
mod descriptor;
mod error;
mod part;
mod path;
mod scalar;
mod schema;
mod text;

pub use bare::write_bare;
pub use descriptor::write_descriptor;
pub use error::SchemaError;
pub use schema::{Method, Schema};
