//! A fault's number, as programs print it.

use crate::numbered::fault_of;
use std::fmt;

/// A number with which a vat went down: with the fault's name and meaning behind it, if it is one's.
#[derive(Clone, Copy, Debug, PartialEq, Eq, Drop)]
pub struct ShownFault(pub u16);

impl fmt::Display for ShownFault {
    fn fmt<W: fmt::Write>(&self, f: &mut fmt::Formatter<W>) -> fmt::Result {
        let number = self.0;
        match fault_of(number) {
            Some(fault) => write!(f, "{number} ({fault})"),
            None => write!(f, "{number}"),
        }
    }
}
