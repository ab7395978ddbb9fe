//! Plays what a hostile peer may send, and what a careless application may do, at any size: steps whose cost must not grow
//! faster than they do. Each input is made in code, and what was played is printed; `scripts/hostile` counts the
//! instructions at four sizes.
//!
//! `bench_hostile WHAT SIZE` plays one input, `bench_hostile all SIZE` each of them. Those of the peer:
//!
//! - `fields`: a Return whose capabilities are fields of one another; `deep`: each 16 steps down; `circle`: the last leads to
//!   the first.
//! - `kept`: a chain of kept outcomes, each of which leads to the one before, made by three messages a link; `wide`: the
//!   chain, and a Return that names its end so many times.
//! - `flag`: so many descriptors of one id in a Call, which its Return gives back at once; `each`: of so many ids; `twice`: of
//!   half as many ids, each of which stands there twice.
//! - `result`, `results`: so many descriptors of one id, or each of its own, in a Return, which the Finish gives back.
//! - `given`: so many descriptors of one id in a Call of this vat, which the peer's Return gives back.
//! - `trace`: a trace to be checked, in which a Return with so many descriptors is followed by so many Finishes.
//!
//! Chains that are made from the first link on, and the first is named so many times, twice: `called`, outcomes, by
//! descriptors of a Call that goes on; `returned`, by those of a Return; `exported`, promises of the vat, by those of a Call.
//! `moved`: so many calls wait, and 64 times they are moved on and wait again.
//!
//! Those of the application: `promises`, a chain of promises that are resolved from the first on, and calls through it;
//! `backwards`, the same from the last on; `call`, a call with so many references near the limit of exports; `passed`, two
//! calls that pass the first of a chain of promises so many times; `advanced`, it asks so many times for a shorter path.
#![tactic(auto)]

mod astray;
mod chains;
mod contents;
mod exports;
mod fields;
mod flags;
mod onward;
mod played;
mod promises;
mod side;
mod traces;

use anyhow::Result;
use astray::Astray;
use fields::OBJECT;
use played::Played;
use side::Side;
use std::alloc::Global;
use std::env;
use std::process::ExitCode;

const INPUTS: [&str; 21] = [
    "fields",
    "deep",
    "circle",
    "kept",
    "wide",
    "flag",
    "each",
    "twice",
    "result",
    "results",
    "given",
    "trace",
    "called",
    "returned",
    "exported",
    "moved",
    "promises",
    "backwards",
    "call",
    "passed",
    "advanced",
];

fn main(rt: HostRuntime) -> Result<ExitCode> {
    let mut words = env::args(&rt)?;
    let _program = words.next();
    let (Some(what), Some(size)) = (words.next(), words.next()) else {
        println!(rt; "usage: bench_hostile WHAT SIZE | bench_hostile all SIZE")?;
        return Ok(ExitCode::from(2));
    };
    let size: u16 = size.as_str().parse()?;
    if what.as_str() == "all" {
        tell_all(&rt, size)?;
    } else {
        tell(&rt, what.as_str(), size)?;
    }
    Ok(ExitCode::SUCCESS)
}

fn tell_all(rt: &HostRuntime, size: u16) -> Result<()> {
    for input in INPUTS {
        tell(rt, input, size)?;
    }
    Ok(())
}

fn tell(rt: &HostRuntime, what: &str, size: u16) -> Result<()> {
    let played = play(rt.alloc(), what, size)?;
    let (steps, sent, passed) = (played.steps, played.sent, played.passed);
    println!(rt; "{what} {size}: {steps} steps, {sent} messages sent with {passed} capabilities")?;
    Ok(())
}

/// Plays an input of that size.
fn play(alloc: Global, what: &str, size: u16) -> Result<Played, Astray> {
    if what == "trace" {
        return traces::with_finishes(alloc, size);
    }
    let mut side = Side::new(alloc)?;
    let expected = play_at(&mut side, what, size)?;
    side.played.is(expected)
}

// What that has to play in all.
fn play_at(side: &mut Side, what: &str, size: u16) -> Result<Played, Astray> {
    match what {
        "promises" => return promises::from_the_first(side, size),
        "backwards" => return promises::from_the_last(side, size),
        _ => {}
    }
    side.begin()?;
    match what {
        "fields" => fields::in_a_row(side, size, 0, OBJECT),
        "deep" => fields::in_a_row(side, size, 15, OBJECT),
        "circle" => fields::in_a_circle(side, size),
        "kept" => chains::of_outcomes(side, size),
        "wide" => chains::named_often(side, size),
        "call" => exports::near_the_limit(side, size),
        "called" | "returned" | "exported" | "moved" | "passed" | "advanced" => {
            play_onward(side, what, size)
        }
        _ => play_flag(side, what, size),
    }
}

fn play_onward(side: &mut Side, what: &str, size: u16) -> Result<Played, Astray> {
    match what {
        "called" => onward::in_calls(side, size),
        "returned" => onward::in_returns(side, size),
        "exported" => onward::exported(side, size),
        "moved" => onward::moved(side, size),
        "passed" => onward::passed(side, size),
        "advanced" => onward::advanced(side, size),
        _ => Err(Astray::NoInput),
    }
}

fn play_flag(side: &mut Side, what: &str, size: u16) -> Result<Played, Astray> {
    match what {
        "flag" => flags::of_params(side, size, 1),
        "each" => flags::of_params(side, size, size),
        "twice" => flags::of_params(side, size, size / 2),
        "result" => flags::of_results(side, size, 1),
        "results" => flags::of_results(side, size, size),
        "given" => flags::of_own(side, size),
        _ => Err(Astray::NoInput),
    }
}
