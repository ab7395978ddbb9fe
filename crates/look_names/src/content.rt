//! Contents by the names of their fields.
use crate::bare::{self, MOST_LEVELS};
use crate::descriptor::write_capability;
use crate::part::{part_at, text_at};
use crate::path::{group_of, is_group};
use crate::scalar::{Scalar, bits_in, scalar_of};
use crate::schema::Schema;
use capn_trees::{Element, Fields, Items, Tree};
use rpc_codec_parts::Block;
use rpc_msg::Descriptor;
use std::alloc::AllocError;

/// How many fields are written of one content: what comes behind has two dots.
const MOST_FIELDS: u32 = 65_536;

impl Schema {
    /// Writes a content that is a struct of that id, by the names of its fields: `(line = 1, printer = Printer <senderHosted 0>)`.
    /// What the schema doesn't know is written as by `write_bare`.
    pub fn write_content(
        &self,
        out: &mut String,
        tree: &Tree,
        id: u64,
        descriptors: &[Descriptor],
    ) -> Result<(), AllocError> {
        let mut content = Content {
            schema: self,
            descriptors,
            fields: MOST_FIELDS,
        };
        content.write_tree(out, tree, id, MOST_LEVELS)
    }
}

/// What goes along with the writing of a content.
#[derive(Drop)]
struct Content<'c> {
    schema: &'c Schema,
    descriptors: &'c [Descriptor],
    /// How many more fields may be written.
    fields: u32,
}

impl<'c> Content<'c> {
    #[cycle(content)]
    fn write_tree(
        &mut self,
        out: &mut String,
        tree: &Tree,
        id: u64,
        levels: u32,
    ) -> Result<(), AllocError> {
        let Some(node) = self.schema.node(id) else {
            return bare::write_tree(out, tree, self.descriptors, levels);
        };
        match tree {
            Tree::Null if self.schema.fields(id).is_empty() => out.push_str("()"),
            Tree::Struct { words, pointers } => {
                let part = Block {
                    words: words.as_slice(),
                    pointers: pointers.as_slice(),
                };
                self.write_part(out, &part, id, &node, levels)
            }
            _ => bare::write_tree(out, tree, self.descriptors, levels),
        }
    }

    /// The fields of a struct or a group, in parentheses.
    #[cycle(content)]
    fn write_part(
        &mut self,
        out: &mut String,
        part: &Block,
        id: u64,
        node: &Block,
        levels: u32,
    ) -> Result<(), AllocError> {
        if levels == 0 {
            return out.push_str("..");
        }
        let which = discriminant_of(part, node);
        out.push('(')?;
        let mut is_first = true;
        for field in self.schema.fields(id) {
            let field = Block::of_fields(field);
            if !is_there(&field, which) {
                continue;
            }
            if !is_first {
                out.push_str(", ")?;
            }
            is_first = false;
            if self.fields == 0 {
                out.push_str("..")?;
                break;
            }
            self.fields -= 1;
            out.push_str(text_at(&field, 0))?;
            out.push_str(" = ")?;
            self.write_field(out, part, &field, levels - 1)?;
        }
        out.push(')')
    }

    /// A group, or the value of a slot.
    #[cycle(content)]
    fn write_field(
        &mut self,
        out: &mut String,
        part: &Block,
        field: &Block,
        levels: u32,
    ) -> Result<(), AllocError> {
        if is_group(field) {
            let id = group_of(field);
            return match self.schema.node(id) {
                Some(node) => self.write_part(out, part, id, &node, levels),
                None => out.push_str("()"),
            };
        }
        let at = field.number::<u32>(1);
        let kind = part_at(field, 2);
        if kind.number::<u16>(0) == 0 {
            return out.push_str("void");
        }
        if let Some(scalar) = scalar_of(kind.number(0)) {
            let number = bits_in(part, at, scalar, &part_at(field, 3));
            return self.schema.write_scalar(out, number, scalar, &kind);
        }
        match part.pointer(at as usize) {
            Some(tree) => self.write_pointer(out, tree, &kind, levels),
            None => out.push_str("null"),
        }
    }

    /// What a pointer of that kind leads to.
    #[cycle(content)]
    fn write_pointer(
        &mut self,
        out: &mut String,
        tree: &Tree,
        kind: &Block,
        levels: u32,
    ) -> Result<(), AllocError> {
        if levels == 0 {
            return out.push_str("..");
        }
        match (kind.number::<u16>(0), tree) {
            (_, Tree::Null) => out.push_str("null"),
            (14, Tree::List(items)) => {
                self.write_list(out, tree, items, &part_at(kind, 0), levels - 1)
            }
            (16, Tree::Struct { .. }) => self.write_tree(out, tree, kind.number(1), levels - 1),
            (17, Tree::Cap(index)) => self.write_interface(out, kind.number(1), *index),
            _ => bare::write_tree(out, tree, self.descriptors, levels - 1),
        }
    }

    fn write_interface(&self, out: &mut String, id: u64, index: u32) -> Result<(), AllocError> {
        match self.schema.name(id) {
            Some(name) => out.push_str(name)?,
            None => write!(out, "@0x{id:016x}")?,
        }
        out.push(' ')?;
        write_capability(out, index, self.descriptors)
    }

    /// A list of elements of that kind.
    #[cycle(content)]
    fn write_list(
        &mut self,
        out: &mut String,
        tree: &Tree,
        items: &Items,
        kind: &Block,
        levels: u32,
    ) -> Result<(), AllocError> {
        match (items, scalar_of(kind.number(0))) {
            (Items::Structs { items, .. }, _) => {
                self.write_structs(out, items, kind.number(1), levels)
            }
            (Items::Pointers(pointers), _) => {
                self.write_pointers(out, pointers.as_slice(), kind, levels)
            }
            (Items::Bits(numbers), Some(scalar)) => self.write_numbers(out, numbers, scalar, kind),
            (Items::Bytes(numbers), Some(scalar)) => self.write_numbers(out, numbers, scalar, kind),
            (Items::Twos(numbers), Some(scalar)) => self.write_numbers(out, numbers, scalar, kind),
            (Items::Fours(numbers), Some(scalar)) => self.write_numbers(out, numbers, scalar, kind),
            (Items::Eights(numbers), Some(scalar)) => self.write_numbers(
                out, numbers, scalar, kind,
            ),
            _ => bare::write_tree(out, tree, self.descriptors, levels),
        }
    }

    fn write_numbers<E: Element>(
        &self,
        out: &mut String,
        numbers: &[E],
        scalar: Scalar,
        kind: &Block,
    ) -> Result<(), AllocError> {
        out.push('[')?;
        let mut is_first = true;
        for number in numbers {
            if !is_first {
                out.push_str(", ")?;
            }
            is_first = false;
            self.schema
                .write_scalar(out, number.number(), scalar, kind)?;
        }
        out.push(']')
    }

    #[cycle(content)]
    fn write_pointers(
        &mut self,
        out: &mut String,
        pointers: &[Tree],
        kind: &Block,
        levels: u32,
    ) -> Result<(), AllocError> {
        out.push('[')?;
        let mut is_first = true;
        for pointer in pointers {
            if !is_first {
                out.push_str(", ")?;
            }
            is_first = false;
            self.write_pointer(out, pointer, kind, levels)?;
        }
        out.push(']')
    }

    #[cycle(content)]
    fn write_structs(
        &mut self,
        out: &mut String,
        structs: &[Fields],
        id: u64,
        levels: u32,
    ) -> Result<(), AllocError> {
        out.push('[')?;
        let mut is_first = true;
        for fields in structs {
            if !is_first {
                out.push_str(", ")?;
            }
            is_first = false;
            let part = Block::of_fields(fields);
            match self.schema.node(id) {
                Some(node) => self.write_part(out, &part, id, &node, levels)?,
                None => bare::write_struct(
                    out,
                    part.words,
                    part.pointers,
                    self.descriptors,
                    levels,
                )?,
            }
        }
        out.push(']')
    }
}

/// The number in the union of a struct, if it has one.
fn discriminant_of(part: &Block, node: &Block) -> Option<u16> {
    if node.number::<u16>(15) == 0 {
        return None;
    }
    Some(part.number(node.number(8)))
}

/// Whether a field is there: one of a union is there if the union's number is its own.
fn is_there(field: &Block, which: Option<u16>) -> bool {
    let own = field.number::<u16>(1) ^ 0xffff;
    own == 0xffff || Some(own) == which
}
