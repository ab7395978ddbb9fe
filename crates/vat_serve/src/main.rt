//! Serves the registry of `interop/registry.capnp` over standard input and output (docs/serving.md).
//!
//! - `conversation.rt`: the conversation: bytes are read, the service works, and bytes are written.
//! - `service.rt`: a vat with the objects that it serves. Each call is answered, and the outcome of each own call is passed on.
//! - `objects.rt`: the objects by their numbers. `counter.rt`, `printer.rt`, `sink.rt` and `registry.rt`: one interface each.
//!   `methods.rt`: the methods of registries, which use the vat more than others. `results.rt`: the results of methods.
#![tactic(auto)]

mod conversation;
mod counter;
mod methods;
mod objects;
mod printer;
mod registry;
mod results;
mod service;
mod sink;

use anyhow::{Result, bail};
use conversation::{Ending, MIB, converse, limits_of};
use service::Service;
use std::env;
use std::process::ExitCode;

/// The status if the words ask for nothing, and if input, output or memory fails.
const FAILED: u8 = 2;

const USAGE: &str = "usage: vat_serve [--tell] [--limit MIB]";

/// `vat_serve [--tell] [--limit MIB]`: serves one client over standard input and output. It ends with status 0 if it was the client
/// that ended the conversation, and with 1 if a fault did. The status is 2 if input, output or memory failed, or if calls that wait
/// for an answer are larger than the limit. With `--tell` it says on standard error how it ended, and whether anything was left
/// between the two. The limit is of what it holds of the client, and of what waits to be sent: 8 MiB each, unless another number is said.
fn main(rt: HostRuntime) -> ExitCode {
    match serve(&rt) {
        Ok(ending) if ending.is_by_client() => ExitCode::SUCCESS,
        Ok(_) => ExitCode::FAILURE,
        Err(error) => {
            let _told = eprintln!(rt; "vat_serve: {error}");
            ExitCode::from(FAILED)
        }
    }
}

fn serve(rt: &HostRuntime) -> Result<Ending> {
    let asked = read_words(rt)?;
    let mut service = Service::new(rt.alloc(), limits_of(asked.mib))?;
    let ending = converse(&mut service, &mut rt.stdin(), &mut rt.stdout())?;
    if asked.tells {
        eprintln!(rt; "{ending}")?;
    }
    Ok(ending)
}

/// What the words ask for: an account at the end, and another limit.
#[derive(Clone, Copy)]
struct Asked {
    tells: bool,
    mib: u32,
}

// What the words of the command line ask for.
fn read_words(rt: &HostRuntime) -> Result<Asked> {
    let mut words = env::args(rt)?;
    let _program = words.next();
    let mut asked = Asked {
        tells: false,
        mib: MIB,
    };
    let mut wants_limit = false;
    for word in words {
        if wants_limit {
            asked.mib = mib_of(word.as_str())?;
            wants_limit = false;
            continue;
        }
        match word.as_str() {
            "--tell" => asked.tells = true,
            "--limit" => wants_limit = true,
            _ => bail!("{USAGE}"),
        }
    }
    if wants_limit {
        bail!("{USAGE}");
    }
    Ok(asked)
}

fn mib_of(word: &str) -> Result<u32> {
    match word.parse() {
        Ok(mib) => Ok(mib),
        Err(_) => bail!("{USAGE}"),
    }
}
