mod cases;

use crate::tests::cases::{CONTENTS, SCHEMA};
use capn_trees::PayloadFault;
use look_names::{Schema, SchemaError};
use rpc_msg::{Descriptor, ExportId, Payload};
use std::alloc::Global;
use std::test::Fail;
use tests_parts::bytes_of;

/// What the ids of the schema begin with.
const FAMILY: u64 = 0xb1e5_a5e1_c0ff_ee00;

const PRINTER: u64 = FAMILY + 2;

const CHOICES: u64 = FAMILY + 8;

const LISTS: u64 = FAMILY + 7;

const UNKNOWN: u64 = FAMILY + 15;

/// What the contents' capabilities are.
const DESCRIPTORS: [Descriptor; 2] = [
    Descriptor::SenderHosted(ExportId(0)),
    Descriptor::SenderPromise(ExportId(3)),
];

fn schema(alloc: Global) -> Result<Schema, Fail> {
    let bytes = bytes_of(alloc, SCHEMA)?;
    Ok(Schema::read(alloc, &bytes)?)
}

/// The numbers of the printer's methods, and their names.
const METHODS: [(u16, Option<&str>); 3] = [(0, Some("print")), (1, Some("make")), (2, None)];

#[test]
fn methods_have_their_names(rt: HostRuntime) -> Result<(), Fail> {
    let schema = schema(rt.alloc())?;
    assert!(rt; schema.name(PRINTER) == Some("Printer"));
    assert!(rt; schema.name(UNKNOWN).is_none());
    for (number, wanted) in METHODS {
        let method = schema.method(PRINTER, number);
        assert!(rt;
            method.map(|method| method.name) == wanted,
            "method {number}"
        );
    }
    assert!(rt; schema.method(CHOICES, 0).is_none());
    assert!(rt; schema.method(UNKNOWN, 0).is_none());
    Ok(())
}

/// The struct from which a path goes, its pointers, and how it is written.
const PATHS: [(u64, &[u16], &str); 9] = [
    (CHOICES, &[], ""),
    (CHOICES, &[0], "two"),
    (
        CHOICES,
        &[1, 1, 2],
        "place.next.place.next.place.inner.deep",
    ),
    (CHOICES, &[3], "choice.right"),
    (CHOICES, &[1, 9, 1], "place.next.9.1"),
    (CHOICES, &[2, 0], "place.inner.deep.0"),
    (LISTS, &[7], "places"),
    (LISTS, &[9], "9"),
    (UNKNOWN, &[4, 5], "4.5"),
];

fn path_of(alloc: Global, schema: &Schema, start: u64, path: &[u16]) -> Result<String, Fail> {
    let mut text = String::new(alloc);
    schema.write_path(&mut text, start, path)?;
    Ok(text)
}

#[test]
fn paths_go_by_names(rt: HostRuntime) -> Result<(), Fail> {
    let schema = schema(rt.alloc())?;
    for (start, path, wanted) in PATHS {
        let text = path_of(rt.alloc(), &schema, start, path)?;
        assert!(rt; text.as_str() == wanted, "{text}");
    }
    // a method leads to the structs of its parameters and results
    let made = schema.method(PRINTER, 1).ok_or("no method")?;
    let text = path_of(rt.alloc(), &schema, made.results, &[0, 1])?;
    assert!(rt; text.as_str() == "choices.place.next", "{text}");
    let text = path_of(rt.alloc(), &schema, made.params, &[0])?;
    assert!(rt; text.as_str() == "choices", "{text}");
    Ok(())
}

fn content_of(alloc: Global, schema: &Schema, id: u64, text: &str) -> Result<String, Fail> {
    let bytes = bytes_of(alloc, text)?;
    let tree = Payload::read(alloc, &bytes, 100)?.tree(alloc)?;
    let mut text = String::new(alloc);
    schema.write_content(&mut text, &tree, id, &DESCRIPTORS)?;
    Ok(text)
}

#[test]
fn contents_go_by_names(rt: HostRuntime) -> Result<(), Fail> {
    let schema = schema(rt.alloc())?;
    for (content, id, bytes, wanted) in CONTENTS {
        let text = content_of(rt.alloc(), &schema, FAMILY + id, bytes)?;
        assert!(rt; text.as_str() == wanted, "{content}: {text}");
    }
    Ok(())
}

fn error_of(alloc: Global, bytes: &[u8]) -> Option<SchemaError> {
    Schema::read(alloc, bytes).err()
}

/// What is no request: too few bytes, a null root, and a root without nodes.
const FAULTY: [(&[u8], SchemaError); 3] = [
    (&[0, 0, 0], SchemaError::Encoding(PayloadFault::Short)),
    (
        &[0, 0, 0, 0, 1, 0, 0, 0, 0, 0, 0, 0, 0, 0, 0, 0],
        SchemaError::NoNodes,
    ),
    (
        &[0, 0, 0, 0, 1, 0, 0, 0, 0, 0, 0, 0, 255, 255, 0, 0],
        SchemaError::Encoding(PayloadFault::OutOfBounds),
    ),
];

#[test]
fn what_is_no_schema_is_refused(rt: HostRuntime) -> Result<(), Fail> {
    for (bytes, wanted) in FAULTY {
        assert!(rt; error_of(rt.alloc(), bytes) == Some(wanted), "{wanted}");
    }
    Ok(())
}
