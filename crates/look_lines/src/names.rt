//! Where names and contents come from.
use crate::parts::write_path;
use look_books::{Asked, Method};
use look_pieces::Side;
use rpc_msg::{Descriptor, Path, Payload};
use std::alloc::AllocError;

/// Names of methods and of fields, and contents.
pub trait Names {
    /// Writes the name of a method.
    fn write_method(&self, out: &mut String, method: Method) -> Result<(), AllocError>;

    /// Writes where a path leads in the results of what was asked, behind a comma. Of a path without pointers nothing is
    /// written.
    fn write_place(&self, out: &mut String, asked: Asked, path: &Path) -> Result<(), AllocError>;

    /// Writes the content of a Call, behind a colon, if contents are asked for.
    fn write_params(
        &self,
        out: &mut String,
        method: Method,
        payload: &Payload,
        descriptors: &[Descriptor],
    ) -> Result<(), AllocError>;

    /// Writes the content of a Return, behind a colon, if contents are asked for. `asked` is what asked its question, if that
    /// is known.
    fn write_results(
        &self,
        out: &mut String,
        asked: Option<Asked>,
        payload: &Payload,
        descriptors: &[Descriptor],
    ) -> Result<(), AllocError>;
}

/// No names, and no contents: a method is named by its numbers, as `a5e1c0ffee000004.6`, and a place by its pointers.
#[derive(Clone, Copy, Debug, PartialEq, Eq, Drop)]
pub struct Unnamed;

impl Names for Unnamed {
    fn write_method(&self, out: &mut String, method: Method) -> Result<(), AllocError> {
        write!(out, "{:016x}.{}", method.interface, method.number)
    }

    fn write_place(&self, out: &mut String, _asked: Asked, path: &Path) -> Result<(), AllocError> {
        let _some = write_path(out, ", pointer ", path)?;
        Ok(())
    }

    fn write_params(
        &self,
        _out: &mut String,
        _method: Method,
        _payload: &Payload,
        _descriptors: &[Descriptor],
    ) -> Result<(), AllocError> {
        Ok(())
    }

    fn write_results(
        &self,
        _out: &mut String,
        _asked: Option<Asked>,
        _payload: &Payload,
        _descriptors: &[Descriptor],
    ) -> Result<(), AllocError> {
        Ok(())
    }
}

/// How the ends are called.
#[derive(Drop)]
pub struct Ends {
    /// The one that connected.
    pub client: String,
    /// The one that listened.
    pub server: String,
}

impl Ends {
    /// How an end is called.
    pub fn name(&self, side: Side) -> &str {
        match side {
            Side::Client => self.client.as_str(),
            Side::Server => self.server.as_str(),
        }
    }
}
