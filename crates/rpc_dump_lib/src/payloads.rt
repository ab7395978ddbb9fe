//! Payloads, with their trees if they are asked for.
ghost use Rattle.std.specs.Prelude.{◌≡◌, true, IfOk};
ghost use Rattle.serde_json.specs.View.{view};
ghost use Rattle.trace_write.specs.Parts.{payload_data, in_base64};
ghost use Rattle.rpc_dump_lib.specs.Lines.{payload_as, results_as, body_as, return_as};

use crate::trees::write_tree;
use rpc_msg::{Descriptor, Items, Payload, Return, ReturnBody};
use serde_json::{Map, Value, put};
use std::alloc::{AllocError, Global};
use trace_write::{Part, add_member, put_part, write_numbers, write_only};

/// A payload as traces have it; with `trees` its tree beside it.
pub fn write_payload(alloc: Global, payload: &Payload, trees: bool) -> Result<Value, AllocError>
    ensures { IfOk result (λ v. view v ≡ payload_as trees payload.now) }
{
    let value = payload.write(alloc)?;
    if !trees {
        return Ok(value);
    }
    add_tree(alloc, payload, value)
}

/// The payload's tree, beside what is said of it.
fn add_tree(alloc: Global, payload: &Payload, value: Value) -> Result<Value, AllocError>
    requires { view value ≡ payload_data (in_base64 payload.now) }
    ensures { IfOk result (λ v. view v ≡ payload_as true payload.now) }
{
    let Value::Object(mut members) = value else {
        unreachable!()
    };
    let Ok(tree) = payload.tree(alloc) else {
        return Err(AllocError);
    };
    let tree = write_tree(alloc, &tree)?;
    put(&mut members, alloc, "tree", tree)?;
    Ok(Value::Object(members))
}

fn write_results(
    alloc: Global,
    payload: &Payload,
    descriptors: &Items<Descriptor>,
    trees: bool,
) -> Result<Value, AllocError>
    ensures { IfOk result (λ v. view v ≡ results_as trees payload.now descriptors.now) }
{
    let payload = write_payload(alloc, payload, trees)?;
    let mut members = Map::new(alloc);
    put_part(&mut members, alloc, "caps", descriptors)?;
    add_member(members, alloc, "payload", payload)
}

fn write_body(alloc: Global, body: &ReturnBody, trees: bool) -> Result<Value, AllocError>
    ensures { IfOk result (λ v. view v ≡ body_as trees body.now) }
{
    match body {
        ReturnBody::Results(payload, descriptors) => {
            let results = write_results(alloc, payload, descriptors, trees)?;
            write_only(alloc, "results", results)
        }
        _ => body.write(alloc),
    }
}

/// A Return, with the tree of its payload if `trees` are asked for.
pub fn write_return(alloc: Global, said: &Return, trees: bool) -> Result<Value, AllocError>
    ensures { IfOk result (λ v. view v ≡ return_as trees said.now) }
{
    let body = write_body(alloc, &said.body, trees)?;
    let mut members = write_numbers(alloc, &[("answer", u64::from(said.answer.0))])?;
    put(&mut members, alloc, "body", body)?;
    let flag = Value::Bool(said.release_param_caps);
    add_member(members, alloc, "releaseParamCaps", flag)
}
