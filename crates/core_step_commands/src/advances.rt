ghost use Rattle.std.specs.Prelude.{◌≡◌, ◌+◌, ◌<◌, ◌≤◌, None, Some, true, false, IsSome};
ghost use Rattle.std.specs.FinMap as map;
ghost use Rattle.rpc_machine.specs.declared.command.Command.TheVariants as command;
ghost use Rattle.rpc_machine.specs.declared.command.Granted.TheVariants as granted;
ghost use Rattle.rpc_machine.specs.Advancing.{AdvancesBy, AdvancesTo, AdvancesFrom, Embargoes, headed, known_of_wire, wire_target};
ghost use Rattle.rpc_machine.specs.Commands.{Acts};
ghost use Rattle.rpc_machine.specs.Fullness.{has_no_room, switch_lacks_room, advance_by};
ghost use Rattle.rpc_machine.specs.Nodes.{settle, is_wire};
ghost use Rattle.rpc_machine.specs.Refusals.{refused};
ghost use Rattle.core_store.specs.Holding.{state_of};
ghost use Rattle.core_step.specs.InProgress.{progress_of, IsReady};
ghost use Rattle.core_step_checks.specs.Wires.{as_known};
ghost use Rattle.core_step_commands.specs.Named.{IsNamed};

use core_step::{Step, send};
use core_step_checks::{Known, known_of_wire, leads_back, wire_target};
use core_store::{settle, shorten};
use core_store_handles::{set_head, turn_under};
use core_store_waits::open_embargo;
use rpc_journal::Advanced;
use rpc_machine::{Node, Reference};
use rpc_msg::{Descriptor, Disembargo, DisembargoContext, PlainMessage, RefId};

// The reference leads there from now on.
fn head_to(step: &mut Step, id: RefId, from: &Reference, to: &Node)
    requires ready { IsReady step.old }
    requires slack { 0 < step.old.store.slack }
    requires entry { map.get step.old.store.refs.entries id.0 ≡ Some from.now }
    ensures headed { progress_of step.new ≡ headed (progress_of step.old) id.0 from.now to.now }
    ensures left { step.old.store.slack ≤ step.new.store.slack + 3 }
    ensures taken { step.new.store.waits.taken ≡ step.old.store.waits.taken }
    ensures ready { IsReady step.new }
{
    set_head(&mut step.store, id, *to);
}

// The reference leads there from now on, and its calls wait until the Disembargo that goes to the wire is back.
fn put_under_embargo(step: &mut Step, id: RefId, from: &Reference, wire: &Node, to: &Node)
    requires ready { IsReady step.old }
    requires slack { 3 ≤ step.old.store.slack }
    requires entry { map.get step.old.store.refs.entries id.0 ≡ Some from.now }
    requires wire { is_wire wire.now ≡ true }
    requires room { has_no_room step.old.store.waits.embargoes ≡ false }
    ensures under { Embargoes (progress_of step.old) id.0 from.now (wire_target wire.now) to.now (granted.Advanced Advanced.Embargoed) (progress_of step.new) }
    ensures left { step.old.store.slack ≤ step.new.store.slack + 3 }
    ensures taken { step.new.store.waits.taken ≡ step.old.store.waits.taken }
    ensures ready { IsReady step.new }
{
    let Some(target) = wire_target(wire) else {
        unreachable!()
    };
    let embargo = open_embargo(&mut step.store, id, *to);
    turn_under(&mut step.store, id, *to, embargo);
    let context = DisembargoContext::SenderLoopback(embargo);
    send(
        step,
        PlainMessage::Disembargo(Disembargo { target, context }),
    );
}

// By the kind of the descriptor to which the wire was resolved.
fn advance_by(
    step: &mut Step,
    id: RefId,
    from: &Reference,
    wire: &Node,
    said: Descriptor,
    to: &Node,
) -> Advanced
    requires ready { IsReady step.old }
    requires slack { 3 ≤ step.old.store.slack }
    requires entry { map.get step.old.store.refs.entries id.0 ≡ Some from.now }
    requires wire { is_wire wire.now ≡ true }
    requires named { IsNamed said }
    requires room { switch_lacks_room (state_of step.old.store) said ≡ false }
    ensures by { AdvancesBy (progress_of step.old) id.0 from.now wire.now said to.now (granted.Advanced result) (progress_of step.new) }
    ensures left { step.old.store.slack ≤ step.new.store.slack + 3 }
    ensures taken { step.new.store.waits.taken ≡ step.old.store.waits.taken }
    ensures ready { IsReady step.new }
{
    match said {
        Descriptor::None => unreachable!(),
        Descriptor::SenderHosted(_) => {
            head_to(step, id, from, to);
            Advanced::Switched
        }
        Descriptor::SenderPromise(_) => {
            head_to(step, id, from, to);
            Advanced::Switched
        }
        Descriptor::ReceiverHosted(_) => {
            put_under_embargo(step, id, from, wire, to);
            Advanced::Embargoed
        }
        Descriptor::ReceiverAnswer(_, _) => {
            put_under_embargo(step, id, from, wire, to);
            Advanced::Embargoed
        }
    }
}

// By what is known of the wire to which the head settles.
fn advance_knowing(
    step: &mut Step,
    id: RefId,
    from: &Reference,
    wire: &Node,
    known: &Known,
) -> Advanced
    requires ready { IsReady step.old }
    requires slack { 3 ≤ step.old.store.slack }
    requires entry { map.get step.old.store.refs.entries id.0 ≡ Some from.now }
    requires known { as_known known.now ≡ known_of_wire (state_of step.old.store) wire.now }
    requires room { advance_by (state_of step.old.store) wire.now (as_known known.now) ≡ false }
    ensures to { AdvancesTo (progress_of step.old) id.0 from.now wire.now (as_known known.now) (granted.Advanced result) (progress_of step.new) }
    ensures left { step.old.store.slack ≤ step.new.store.slack + 3 }
    ensures taken { step.new.store.waits.taken ≡ step.old.store.waits.taken }
    ensures ready { IsReady step.new }
{
    match known {
        Known::Nothing => Advanced::Nothing,
        Known::Broken(reason) => {
            head_to(step, id, from, &Node::Broken(*reason));
            Advanced::Broke
        }
        Known::Leads(said, to) => {
            if leads_back(&step.store, *to, *wire) {
                return Advanced::Nothing;
            }
            advance_by(step, id, from, wire, *said, to)
        }
    }
}

// A reference without an embargo, by the wire to which its head settles.
fn advance_from(step: &mut Step, id: RefId, from: &Reference, wire: &Node) -> Advanced
    requires ready { IsReady step.old }
    requires slack { 3 ≤ step.old.store.slack }
    requires entry { map.get step.old.store.refs.entries id.0 ≡ Some from.now }
    requires room { advance_by (state_of step.old.store) wire.now (known_of_wire (state_of step.old.store) wire.now) ≡ false }
    ensures to { AdvancesTo (progress_of step.old) id.0 from.now wire.now (known_of_wire (state_of step.old.store) wire.now) (granted.Advanced result) (progress_of step.new) }
    ensures left { step.old.store.slack ≤ step.new.store.slack + 3 }
    ensures taken { step.new.store.waits.taken ≡ step.old.store.waits.taken }
    ensures ready { IsReady step.new }
{
    let known = known_of_wire(&step.store, *wire);
    advance_knowing(step, id, from, wire, &known)
}

/// Lets a reference take the shorter path, if one is known and that is not refused. It stays as it is while its calls
/// wait under an embargo, while nothing is known, and if its wire leads back to itself. Else it leads to what its wire
/// was resolved to; if that is of this vat, its calls wait until the Disembargo that it sends is back. Takes no memory,
/// but at most three of the slack, and what there is to make the ways that it looks along short.
pub fn advance(step: &mut Step, id: RefId) -> Advanced
    requires ready { IsReady step.old }
    requires slack { 3 ≤ step.old.store.slack }
    requires allowed { refused (state_of step.old.store) (command.Advance id) ≡ None }
    ensures acts { Acts (progress_of step.old) (command.Advance id) (granted.Advanced result) (progress_of step.new) }
    ensures left { step.old.store.slack ≤ step.new.store.slack + 3 }
    ensures taken { step.new.store.waits.taken ≡ step.old.store.waits.taken }
    ensures ready { IsReady step.new }
{
    shorten_ways(step, id);
    advance_walked(step, id)
}

// Has the reference, and what its wire was resolved to, lead at once to where they lead, as far as there is memory for that.
fn shorten_ways(step: &mut Step, id: RefId)
    requires { IsReady step.old }
    ensures { step.new ≡ step.old }
{
    let Some(reference) = step.store.refs.get(id.0) else {
        return;
    };
    let head = reference.head;
    let wire = shorten(&mut step.store, head);
    shorten_beyond(step, wire);
}

// The same of what a wire was resolved to.
fn shorten_beyond(step: &mut Step, wire: Node)
    requires { IsReady step.old }
    ensures { step.new ≡ step.old }
{
    let Known::Leads(_, to) = known_of_wire(&step.store, wire) else {
        return;
    };
    shorten(&mut step.store, to);
}

// The same as `advance`, if the ways are short.
fn advance_walked(step: &mut Step, id: RefId) -> Advanced
    requires ready { IsReady step.old }
    requires slack { 3 ≤ step.old.store.slack }
    requires allowed { refused (state_of step.old.store) (command.Advance id) ≡ None }
    ensures acts { Acts (progress_of step.old) (command.Advance id) (granted.Advanced result) (progress_of step.new) }
    ensures left { step.old.store.slack ≤ step.new.store.slack + 3 }
    ensures taken { step.new.store.waits.taken ≡ step.old.store.waits.taken }
    ensures ready { IsReady step.new }
{
    let Some(reference) = step.store.refs.get(id.0) else {
        unreachable!()
    };
    let None = reference.embargo else {
        return Advanced::Nothing;
    };
    let from = Reference {
        head: reference.head,
        embargo: None,
        made: reference.made,
    };
    let wire = settle(&step.store, from.head);
    advance_from(step, id, &from, &wire)
}
