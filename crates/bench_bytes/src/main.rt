//! Measures messages in bytes. What it prints differs from run to run; `docs/benchmarks.md` has figures.
//!
//! `bench_bytes both ROUNDS` encodes and decodes a Call, a Return and a Finish with null contents, ROUNDS times.
//! `bench_bytes encode BYTES ROUNDS` encodes a Call whose params are data of so many bytes, ROUNDS times.
//! `bench_bytes decode BYTES ROUNDS` decodes its frame.
//! Without arguments it does nothing.
#![tactic(auto)]

use anyhow::{Result, anyhow};
use rpc_codec::{decode, encode};
use rpc_msg::{
    Call, ExportId, Finish, Items, Message, Payload, PlainMessage, QuestionId, RefId, Return,
    ReturnBody, Stamp, Target, Tree, Vat,
};
use std::alloc::Global;
use std::env;
use std::process::ExitCode;
use std::time::Instant;

const STAMP: Stamp = Stamp {
    vat: Vat::A,
    reference: RefId(0),
    index: 0,
};

fn call(alloc: Global, payload: Payload) -> Message {
    Message::Plain(PlainMessage::Call(Call {
        question: QuestionId(1),
        target: Target::ImportedCap(ExportId(2)),
        interface: 0xfeed_beef,
        method: 3,
        payload,
        descriptors: Items::new(alloc),
        stamp: STAMP,
    }))
}

fn returned(alloc: Global, payload: Payload) -> Message {
    Message::Plain(PlainMessage::Return(Return {
        answer: QuestionId(1),
        release_param_caps: false,
        body: ReturnBody::Results(payload, Items::new(alloc)),
    }))
}

fn finish() -> Message {
    Message::Plain(PlainMessage::Finish(Finish {
        question: QuestionId(1),
        release_result_caps: false,
    }))
}

const USAGE: &str =
    "usage: bench_bytes both ROUNDS | bench_bytes encode BYTES ROUNDS | bench_bytes decode BYTES ROUNDS";

/// A Call whose params are so many bytes.
fn call_of_data(alloc: Global, count: usize) -> Result<Message> {
    let bytes = Vec::from_elem(alloc, 7, count)?;
    let tree = Tree::data(alloc, bytes.as_slice())?;
    let payload = Payload::write(alloc, &tree, 0).map_err(|error| anyhow!("{error}"))?;
    Ok(call(alloc, payload))
}

/// Encodes a message and decodes its frame.
fn both_ways(alloc: Global, message: &Message) -> Result<()> {
    let frame = encode(alloc, message).map_err(|error| anyhow!("{error}"))?;
    decode(alloc, frame.bytes(), STAMP).map_err(|error| anyhow!("{error}"))?;
    Ok(())
}

fn encode_often(alloc: Global, message: &Message, rounds: u32) -> Result<()> {
    for _ in 0..rounds {
        encode(alloc, message).map_err(|error| anyhow!("{error}"))?;
    }
    Ok(())
}

fn decode_often(alloc: Global, bytes: &[u8], rounds: u32) -> Result<()> {
    for _ in 0..rounds {
        decode(alloc, bytes, STAMP).map_err(|error| anyhow!("{error}"))?;
    }
    Ok(())
}

/// A Call, a Return and a Finish, the first two with null contents.
fn bare_messages(alloc: Global) -> Result<Vec<Message>> {
    let mut messages = Vec::with_capacity(alloc, 3)?;
    messages.push_reserved(call(alloc, Payload::null(alloc)?));
    messages.push_reserved(returned(alloc, Payload::null(alloc)?));
    messages.push_reserved(finish());
    Ok(messages)
}

fn all_ways(alloc: Global, messages: &[Message]) -> Result<()> {
    for message in messages {
        both_ways(alloc, message)?;
    }
    Ok(())
}

fn both_often(alloc: Global, messages: &[Message], rounds: u32) -> Result<()> {
    for _ in 0..rounds {
        all_ways(alloc, messages)?;
    }
    Ok(())
}

fn measure_both(alloc: Global, rounds: u32) -> Result<()> {
    let messages = bare_messages(alloc)?;
    both_often(alloc, messages.as_slice(), rounds)
}

fn measure_encoding(alloc: Global, count: usize, rounds: u32) -> Result<()> {
    let message = call_of_data(alloc, count)?;
    encode_often(alloc, &message, rounds)
}

fn measure_decoding(alloc: Global, count: usize, rounds: u32) -> Result<()> {
    let message = call_of_data(alloc, count)?;
    let frame = encode(alloc, &message).map_err(|error| anyhow!("{error}"))?;
    decode_often(alloc, frame.bytes(), rounds)
}

/// Measures what the words ask for, and gives how many rounds it made.
fn measure(alloc: Global, words: &[String]) -> Result<u32> {
    match words {
        [what, rounds] if what.as_str() == "both" => {
            let rounds = rounds.as_str().parse()?;
            measure_both(alloc, rounds)?;
            Ok(rounds)
        }
        [what, bytes, rounds] if what.as_str() == "encode" => {
            let rounds = rounds.as_str().parse()?;
            measure_encoding(alloc, bytes.as_str().parse()?, rounds)?;
            Ok(rounds)
        }
        [what, bytes, rounds] if what.as_str() == "decode" => {
            let rounds = rounds.as_str().parse()?;
            measure_decoding(alloc, bytes.as_str().parse()?, rounds)?;
            Ok(rounds)
        }
        _ => Err(anyhow!("{USAGE}")),
    }
}

fn main(rt: HostRuntime) -> Result<ExitCode> {
    let mut words = Vec::new(rt.alloc());
    for word in env::args(&rt)?.skip(1) {
        words.push(word)?;
    }
    if words.is_empty() {
        return Ok(ExitCode::SUCCESS);
    }
    let start = Instant::now(&rt)?;
    let rounds = measure(rt.alloc(), words.as_slice())?;
    let nanos = start.elapsed(&rt)?.as_nanos();
    println!(rt; "{} ns a round", nanos / u128::from(rounds.max(1)))?;
    Ok(ExitCode::SUCCESS)
}
