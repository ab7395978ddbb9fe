//! Numbers, by the kinds of `Type`.
ghost use Rattle.std.specs.Prelude.{◌<◌};

use crate::schema::Schema;
use rpc_codec_parts::Block;
use ryu::Buffer;
use std::alloc::AllocError;
use std::num::{f32_from_bits_with_nan, f64_from_bits_with_nan};

/// A type whose values have bits of their own.
#[derive(Clone, Copy, Debug, PartialEq, Eq, Drop)]
pub(crate) enum Scalar {
    Bool,
    Int8,
    Int16,
    Int32,
    Int64,
    Uint8,
    Uint16,
    Uint32,
    Uint64,
    Float32,
    Float64,
    Enum,
}

/// The type of that number in the union of `Type`, if it is one of them.
pub(crate) fn scalar_of(kind: u16) -> Option<Scalar> {
    match kind {
        1 => Some(Scalar::Bool),
        2 => Some(Scalar::Int8),
        3 => Some(Scalar::Int16),
        4 => Some(Scalar::Int32),
        5 => Some(Scalar::Int64),
        6 => Some(Scalar::Uint8),
        7 => Some(Scalar::Uint16),
        8 => Some(Scalar::Uint32),
        9 => Some(Scalar::Uint64),
        10 => Some(Scalar::Float32),
        11 => Some(Scalar::Float64),
        15 => Some(Scalar::Enum),
        _ => None,
    }
}

/// The bits of a field of a struct, at so many times their number. A bit that its default has is turned.
pub(crate) fn bits_in(part: &Block, at: u32, scalar: Scalar, default: &Block) -> u64 {
    match scalar {
        Scalar::Bool => u64::from(part.number::<bool>(at) != default.number::<bool>(16)),
        Scalar::Int8 | Scalar::Uint8 => {
            u64::from(part.number::<u8>(at) ^ default.number::<u8>(2))
        }
        Scalar::Int16 | Scalar::Uint16 | Scalar::Enum => {
            u64::from(part.number::<u16>(at) ^ default.number::<u16>(1))
        }
        Scalar::Int32 | Scalar::Uint32 | Scalar::Float32 => {
            u64::from(part.number::<u32>(at) ^ default.number::<u32>(1))
        }
        Scalar::Int64 | Scalar::Uint64 | Scalar::Float64 => {
            part.number::<u64>(at) ^ default.number::<u64>(1)
        }
    }
}

/// A number below a power of two, in two's complement.
fn write_signed(out: &mut String, number: u64, power: u64) -> Result<(), AllocError>
    requires { number < power }
{
    if number < power / 2 {
        write!(out, "{number}")
    } else {
        write!(out, "-{}", power - number)
    }
}

fn write_long(out: &mut String, number: u64) -> Result<(), AllocError> {
    if number < 0x8000_0000_0000_0000 {
        write!(out, "{number}")
    } else {
        write!(out, "-{}", u64::MAX - number + 1)
    }
}

fn write_single(out: &mut String, bits: u32) -> Result<(), AllocError> {
    let number = f32_from_bits_with_nan(bits);
    if number.is_finite() {
        out.push_str(Buffer::new().format_finite_with_plus(number))
    } else {
        out.push_str(Buffer::new().format(number))
    }
}

fn write_double(out: &mut String, bits: u64) -> Result<(), AllocError> {
    let number = f64_from_bits_with_nan(bits);
    if number.is_finite() {
        out.push_str(Buffer::new().format_finite_with_plus(number))
    } else {
        out.push_str(Buffer::new().format(number))
    }
}

impl Schema {
    /// The value that a number's lowest bits are; of an enum its type says which.
    pub(crate) fn write_scalar(
        &self,
        out: &mut String,
        number: u64,
        scalar: Scalar,
        kind: &Block,
    ) -> Result<(), AllocError> {
        match scalar {
            Scalar::Bool => out.push_str(if number % 2 == 1 { "true" } else { "false" }),
            Scalar::Int8 => write_signed(out, number % 0x100, 0x100),
            Scalar::Int16 => write_signed(out, number % 0x1_0000, 0x1_0000),
            Scalar::Int32 => write_signed(out, number % 0x1_0000_0000, 0x1_0000_0000),
            Scalar::Int64 => write_long(out, number),
            Scalar::Uint8 => write!(out, "{}", number % 0x100),
            Scalar::Uint16 => write!(out, "{}", number % 0x1_0000),
            Scalar::Uint32 => write!(out, "{}", number % 0x1_0000_0000),
            Scalar::Uint64 => write!(out, "{number}"),
            Scalar::Float32 => write_single(out, (number % 0x1_0000_0000) as u32),
            Scalar::Float64 => write_double(out, number),
            Scalar::Enum => self.write_enumerant(out, kind.number(1), (number % 0x1_0000) as u16),
        }
    }

    fn write_enumerant(&self, out: &mut String, id: u64, number: u16) -> Result<(), AllocError> {
        match self.enumerant(id, number) {
            Some(name) => out.push_str(name),
            None => write!(out, "{number}"),
        }
    }
}
