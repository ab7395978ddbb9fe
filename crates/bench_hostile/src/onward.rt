//! Chains that are made from the first link on, so that no step looks along one before it is whole.

use crate::astray::Astray;
use crate::contents::{fields, path_to, repeated, result_at};
use crate::played::Played;
use crate::promises::{lead_all, lead_on, make_all};
use crate::side::{BEGUN, Side};
use rpc_msg::{Descriptor, ExportId, Items, Path, RefId};

/// The peer's question to which the first link leads.
const FIRST: u32 = 2;

/// The reference to the first promise, behind that to the peer's object.
const PROMISE: RefId = RefId(1);

/// What is exported first, behind the bootstrap object.
const FIRST_EXPORT: ExportId = ExportId(1);

/// What is exported next to that.
const SECOND: ExportId = ExportId(2);

/// How often calls that wait are moved.
const ROUNDS: u16 = 64;

/// A chain of outcomes, and two Calls that name its first link so many times, which are sent on.
pub(crate) fn in_calls(side: &mut Side, size: u16) -> Result<Played, Astray> {
    let field = path_to(side.alloc, 0, 0)?;
    chain(side, size, field)?;
    call_with(side, next_to(size), result_at(FIRST, field), size)?;
    let next = next_to(size).saturating_add(1);
    call_with(side, next, result_at(FIRST, field), size)?;
    Ok(chained(size).more(2, 2, 2 * u64::from(size)))
}

/// A chain of outcomes, and two Returns that name its first link so many times, which are passed on.
pub(crate) fn in_returns(side: &mut Side, size: u16) -> Result<Played, Astray> {
    let field = path_to(side.alloc, 0, 0)?;
    chain(side, size, field)?;
    return_with(side, next_to(size), size)?;
    return_with(side, next_to(size).saturating_add(1), size)?;
    Ok(chained(size).more(4, 6, 2 * u64::from(size)))
}

/// A chain of promises, the first of which is exported, and two Calls that name it so many times. Its Resolve gives the second,
/// which the peer releases.
pub(crate) fn exported(side: &mut Side, size: u16) -> Result<Played, Astray> {
    let promises = make_all(side, size)?;
    let passed = Items::one(side.alloc, PROMISE)?;
    side.call(RefId(0), passed)?;
    for index in 0..promises.len() {
        lead_on(side, &promises, index)?;
        if index == 0 && promises.len() > 1 {
            side.releases(SECOND)?;
        }
    }
    call_with(side, FIRST, exported_first(), size)?;
    call_with(side, FIRST + 1, exported_first(), size)?;
    let named = 2 * u64::from(size);
    if size < 2 {
        return Ok(BEGUN.more(3, 3, 1 + named));
    }
    Ok(BEGUN.more(3 + u64::from(size), 4, 2 + named))
}

fn exported_first() -> Descriptor {
    Descriptor::ReceiverHosted(FIRST_EXPORT)
}

/// So many calls wait for the first of some outcomes, each of which leads to the next, so that all wait again.
pub(crate) fn moved(side: &mut Side, size: u16) -> Result<Played, Astray> {
    let field = path_to(side.alloc, 0, 0)?;
    side.calls(FIRST, 1, field, Items::new(side.alloc))?;
    for waiting in 0..size {
        let question = next_to(ROUNDS).saturating_add(u32::from(waiting));
        side.calls(question, FIRST, field, Items::new(side.alloc))?;
    }
    add_links(side, ROUNDS, field)?;
    Ok(chained(ROUNDS).more(u64::from(size), 0, 0))
}

/// A chain of promises, and two calls of the application that pass the first so many times.
pub(crate) fn passed(side: &mut Side, size: u16) -> Result<Played, Astray> {
    let promises = make_all(side, size)?;
    lead_all(side, &promises)?;
    pass(side, size)?;
    pass(side, size)?;
    let links = u64::from(size).saturating_sub(1);
    Ok(BEGUN.more(2 + links, 2, 2 * u64::from(size)))
}

/// A chain of promises that leads to the peer's object, and the first asks so many times for a shorter path.
pub(crate) fn advanced(side: &mut Side, size: u16) -> Result<Played, Astray> {
    let promises = make_all(side, size)?;
    lead_all(side, &promises)?;
    if let Some(last) = promises.last() {
        side.resolve(last.0, RefId(0))?;
    }
    for _ in 0..size {
        side.advance(PROMISE)?;
    }
    Ok(BEGUN.more(2 * u64::from(size), 0, 0))
}

// One call is left open, and so is its answer, to which all links lead.
fn chain(side: &mut Side, size: u16, field: Path) -> Result<(), Astray> {
    side.calls(FIRST, 1, field, Items::new(side.alloc))?;
    add_links(side, size, field)
}

fn add_links(side: &mut Side, size: u16, field: Path) -> Result<(), Astray> {
    for link in 0..size {
        add_link(side, link, field)?;
    }
    Ok(())
}

// The next call goes out, and the last returns what stands in its answer. Its Return gives an export, which the peer releases.
// All answers but the first are finished.
fn add_link(side: &mut Side, link: u16, field: Path) -> Result<(), Astray> {
    let last = FIRST.saturating_add(u32::from(link));
    let next = last.saturating_add(1);
    side.calls(next, 1, field, Items::new(side.alloc))?;
    let payload = fields(side.alloc, 0, 1)?;
    let descriptors = Items::one(side.alloc, result_at(next, field))?;
    side.returns_to(asked_as(link), payload, descriptors)?;
    side.releases(FIRST_EXPORT)?;
    if link == 0 {
        return Ok(());
    }
    side.finishes(last)
}

// Of each link a Call, a Return and a Finish go out.
fn chained(size: u16) -> Played {
    let links = u64::from(size);
    BEGUN.more(4 * links, 1 + 3 * links, links)
}

// The vat's question for the call of that link: there are two at most, which take turns.
fn asked_as(link: u16) -> u32 {
    if link % 2 == 0 { 0 } else { 1 }
}

// The first question that the chain doesn't take.
fn next_to(size: u16) -> u32 {
    FIRST.saturating_add(u32::from(size)).saturating_add(1)
}

fn call_with(side: &mut Side, question: u32, named: Descriptor, size: u16) -> Result<(), Astray> {
    let descriptors = repeated(side.alloc, named, size)?;
    side.calls(question, 1, path_to(side.alloc, 0, 0)?, descriptors)
}

// A call, and its Return.
fn return_with(side: &mut Side, question: u32, size: u16) -> Result<(), Astray> {
    let field = path_to(side.alloc, 0, 0)?;
    side.calls(question, 1, field, Items::new(side.alloc))?;
    let payload = fields(side.alloc, 0, size)?;
    let descriptors = repeated(side.alloc, result_at(FIRST, field), size)?;
    side.returns_to(asked_as(size.saturating_add(1)), payload, descriptors)
}

fn pass(side: &mut Side, size: u16) -> Result<(), Astray> {
    let refs = repeated(side.alloc, PROMISE, size)?;
    side.call(RefId(0), refs)?;
    Ok(())
}
