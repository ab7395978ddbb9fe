//! Scripts of many lines, and long lines.

use crate::tests::names::{act_of, name};
use rpc_machine::{Command, Event};
use rpc_msg::{Memory, RefId, Vat};
use script_language::{Act, Line, LineFault, Names, Program, ReadFault, read_script};
use std::alloc::Global;

/// A text, and then another so many times.
fn repeated(alloc: Global, first: &str, then: &str, times: u32) -> Result<String, Memory> {
    let mut text = String::new(alloc);
    text.push_str(first)?;
    for _ in 0..times {
        text.push_str(then)?;
    }
    Ok(text)
}

#[test]
fn a_script_of_many_lines(rt: HostRuntime) -> Result<(), Memory> {
    let line = "a call one obj 7 1 x,y\n";
    let text = repeated(rt.alloc(), "tables\n", line, 200_000)?;
    let lines = read_script(rt.alloc(), Program::Run, text.as_bytes());
    assert!(rt; matches!(&lines, Ok(lines) if lines.len() == 200_002));
    Ok(())
}

/// Whether it is an answer with all the capabilities that may be.
fn is_full(act: &Act) -> bool {
    match act {
        Act::Happens(Event::Command(_, Command::Answer(_, payload, refs))) => {
            payload.caps() == 65_535 && refs.len() == 65_535
        }
        _ => false,
    }
}

fn answers_by_all(alloc: Global, names: &Names) -> Result<bool, Memory> {
    let text = repeated(alloc, "b answer 0 x", ",x", 65_534)?;
    match &act_of(alloc, names, Program::Pair, text.as_str()) {
        Ok(act) => Ok(is_full(act)),
        Err(_) => Ok(false),
    }
}

/// What is wrong with the line, if it is not read.
fn fault_of(alloc: Global, program: Program, text: &str) -> Option<ReadFault> {
    match Line::read(alloc, program, text) {
        Ok(_) => None,
        Err(fault) => Some(fault),
    }
}

#[test]
fn a_payload_of_all_the_capabilities_that_may_be(rt: HostRuntime) -> Result<(), Memory> {
    let mut names = Names::new(rt.alloc());
    assert!(rt; name(&mut names, Vat::B, "x", RefId(1)));
    assert!(rt; answers_by_all(rt.alloc(), &names)?);
    let text = repeated(rt.alloc(), "b answer 0 x", ",x", 65_535)?;
    let more = fault_of(rt.alloc(), Program::Pair, text.as_str());
    assert!(rt; more == Some(ReadFault::Line(LineFault::ManyCaps)));
    Ok(())
}

#[test]
fn a_long_line_is_read_as_any_other(rt: HostRuntime) -> Result<(), Memory> {
    let text = repeated(rt.alloc(), "#", " a comment", 100_000)?;
    let line = Line::read(rt.alloc(), Program::Run, text.as_str());
    assert!(rt; matches!(&line, Ok(Line::Skip)));
    let text = repeated(rt.alloc(), "a drop x", " y", 100_000)?;
    let fault = fault_of(rt.alloc(), Program::Run, text.as_str());
    assert!(rt; fault == Some(ReadFault::Line(LineFault::Count)));
    Ok(())
}
