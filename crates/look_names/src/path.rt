//! Paths through structs, by the names of their fields.
use crate::part::{part_at, text_at};
use crate::schema::Schema;
use rpc_codec_parts::Block;
use std::alloc::AllocError;

/// How deep groups are gone into.
const MOST_GROUPS: u32 = 16;

/// How many fields are looked at for one name. Groups of a schema that no compiler wrote may hold one another.
const MOST_FIELDS: u32 = 65_536;

/// `Field`: whether it is a group.
pub(crate) fn is_group(field: &Block) -> bool {
    field.number::<u16>(4) == 1
}

/// `Field.group.typeId`.
pub(crate) fn group_of(field: &Block) -> u64 {
    field.number(2)
}

/// `Type`: whether a value of it is a pointer (Text, Data, List, a struct, an interface, AnyPointer).
fn is_pointer(kind: u16) -> bool {
    matches!(kind, 12 | 13 | 14 | 16 | 17 | 18)
}

/// Whether a field is the slot of that pointer.
fn is_slot(field: &Block, pointer: u16) -> bool {
    !is_group(field)
        && is_pointer(part_at(field, 2).number(0))
        && field.number::<u32>(1) == u32::from(pointer)
}

/// The struct or interface that a field's type names.
fn leads_to(field: &Block) -> Option<u64> {
    let kind = part_at(field, 2);
    match kind.number::<u16>(0) {
        16 | 17 => Some(kind.number(1)),
        _ => None,
    }
}

impl Schema {
    /// Writes a path of pointers from a struct on, by the names of its fields, with those of the groups that hold them:
    /// `registry.counter`. From the first pointer on that is no field's, it is written by numbers.
    pub fn write_path(
        &self,
        out: &mut String,
        start: u64,
        pointers: &[u16],
    ) -> Result<(), AllocError> {
        let mut at = Some(start);
        let mut is_first = true;
        for pointer in pointers {
            if !is_first {
                out.push('.')?;
            }
            is_first = false;
            at = self.write_step(out, at, *pointer)?;
        }
        Ok(())
    }

    /// Writes one step, and answers the struct that it leads to.
    fn write_step(
        &self,
        out: &mut String,
        at: Option<u64>,
        pointer: u16,
    ) -> Result<Option<u64>, AllocError> {
        let Some(id) = at else {
            write!(out, "{pointer}")?;
            return Ok(None);
        };
        if !self.has_slot(id, pointer, MOST_GROUPS, MOST_FIELDS).0 {
            write!(out, "{pointer}")?;
            return Ok(None);
        }
        self.write_slot(out, id, pointer, MOST_GROUPS)
    }

    /// Whether a field of a struct, or of its groups, is the slot of that pointer; and how many more fields may be looked at.
    fn has_slot(&self, id: u64, pointer: u16, levels: u32, fields: u32) -> (bool, u32) {
        let mut left = fields;
        for field in self.fields(id) {
            if left == 0 {
                return (false, 0);
            }
            left -= 1;
            let field = Block::of_fields(field);
            if is_slot(&field, pointer) {
                return (true, left);
            }
            if is_group(&field) && levels > 0 {
                let (has, after) = self.has_slot(group_of(&field), pointer, levels - 1, left);
                if has {
                    return (true, after);
                }
                left = after;
            }
        }
        (false, left)
    }

    /// Writes the name of the field that is the slot of that pointer, and answers the struct that it leads to.
    fn write_slot(
        &self,
        out: &mut String,
        id: u64,
        pointer: u16,
        levels: u32,
    ) -> Result<Option<u64>, AllocError> {
        for field in self.fields(id) {
            let field = Block::of_fields(field);
            if is_slot(&field, pointer) {
                out.push_str(text_at(&field, 0))?;
                return Ok(leads_to(&field));
            }
            if is_group(&field) && levels > 0 {
                let group = group_of(&field);
                if self.has_slot(group, pointer, levels - 1, MOST_FIELDS).0 {
                    out.push_str(text_at(&field, 0))?;
                    out.push('.')?;
                    return self.write_slot(out, group, pointer, levels - 1);
                }
            }
        }
        Ok(None)
    }
}
