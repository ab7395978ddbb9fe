//! What is done at one of the two, and noted in the journal.
ghost use Rattle.std.specs.Prelude.{◌≡◌, ◌⊎◌, ◌<◌, ◌++◌, vec_len, vec_capacity, false, Some, IfOk, IfErr, OnOk, OnErr};
ghost use Rattle.rpc_machine.specs.Refusals.{is_shut};
ghost use Rattle.vat_host.specs.declared.event.Event.{Event};
ghost use Rattle.vat_connection.specs.Calling.{answered};
ghost use Rattle.vat_connections.specs.OneConnection.{Acts};
ghost use Rattle.vat_connections.specs.OneConnection.Act.{Commands};
ghost use Rattle.vat_joined.specs.Recorded.{entries_by_act, on_way};
ghost use Rattle.vat_joined.specs.Doing.{HandsOut, TakesIn, IsToldAndNoted};

use crate::copies::{copy_command, copy_event};
use crate::entry::JoinedEntry;
use crate::stream::Stream;
use rpc_machine::{Command, Granted, Refusal};
use rpc_msg::{Memory, Vat};
use std::alloc::Global;
use vat_connection::Connection;
use vat_host::{Event, Refused};

/// Gives a connection a command. One that is done has its entry, except for a shut.
pub(crate) fn give_command(
    alloc: Global,
    vat: Vat,
    connection: &mut Connection,
    journal: &mut Vec<JoinedEntry>,
    command: Command,
) -> Result<Granted, Refused<Command>>
    ensures acts { Acts connection.old (Commands command (answered result (λ granted. granted) (λ e. e.refusal))) connection.new }
    ensures noted { journal.new.items ≡ journal.old.items ++ entries_by_act vat (Commands command (answered result (λ granted. granted) (λ e. e.refusal))) }
    ensures handed_back { IfErr result (λ e. e.back ≡ command) }
{
    if is_shut(&command) {
        // Each arm by itself: a result that is handed on whole leaves its clauses to be proved by cases.
        match connection.command(command) {
            Ok(granted) => return Ok(granted),
            Err(refused) => return Err(refused),
        }
    }
    command_noted(alloc, vat, connection, journal, command)
}

fn is_shut(command: &Command) -> bool
    ensures { result ≡ is_shut command.now }
{
    matches!(command, Command::Shut(_))
}

// Gives a connection a command that is no shut. Without memory for its entry it is refused.
fn command_noted(
    alloc: Global,
    vat: Vat,
    connection: &mut Connection,
    journal: &mut Vec<JoinedEntry>,
    command: Command,
) -> Result<Granted, Refused<Command>>
    requires { is_shut command ≡ false }
    ensures acts { Acts connection.old (Commands command (answered result (λ granted. granted) (λ e. e.refusal))) connection.new }
    ensures noted { journal.new.items ≡ journal.old.items ++ entries_by_act vat (Commands command (answered result (λ granted. granted) (λ e. e.refusal))) }
    ensures handed_back { IfErr result (λ e. e.back ≡ command) }
{
    let Ok(copy) = copy_with_place(alloc, journal, &command) else {
        return Err(Refused {
            refusal: Refusal::Memory,
            back: command,
        });
    };
    match connection.command(command) {
        Ok(granted) => {
            journal.push_reserved(JoinedEntry::Commanded(vat, copy, granted));
            return Ok(granted);
        }
        Err(refused) => return Err(refused),
    }
}

// A copy of a command, and a place for one entry.
fn copy_with_place(
    alloc: Global,
    journal: &mut Vec<JoinedEntry>,
    command: &Command,
) -> Result<Command, Memory>
    ensures copied { IfOk result (λ copy. copy ≡ command.now) }
    ensures same { journal.new.items ≡ journal.old.items }
    ensures place { OnOk result (vec_len journal.new < vec_capacity journal.new) }
{
    make_place(journal)?;
    copy_command(alloc, command)
}

// Makes a place for one entry.
fn make_place(journal: &mut Vec<JoinedEntry>) -> Result<(), Memory>
    ensures same { journal.new.items ≡ journal.old.items }
    ensures place { OnOk result (vec_len journal.new < vec_capacity journal.new) }
{
    match journal.reserve(1) {
        Ok(()) => return Ok(()),
        Err(_) => return Err(Memory),
    }
}

/// Puts the bytes that a connection has for its peer behind those that are on their way there. Says how many. `Memory` if a growth was
/// refused: nothing is handed out.
pub(crate) fn hand_out(from: &mut Connection, stream: &mut Stream) -> Result<usize, Memory>
    ensures given { IfOk result (λ count. HandsOut from.old (on_way stream.old) count from.new (on_way stream.new)) }
    ensures err { OnErr result ((from.new ≡ from.old) × (on_way stream.new ≡ on_way stream.old)) }
{
    stream.gather()?;
    let bytes = from.outgoing();
    let count = bytes.len();
    stream.put(bytes);
    Ok(count)
}

/// Hands the first so many of the bytes on their way to a connection to it, or all if there are fewer. Says how many. `Memory` if a growth
/// was refused: nothing came.
pub(crate) fn take_in(
    alloc: Global,
    to: &mut Connection,
    stream: &mut Stream,
    most: usize,
) -> Result<usize, Memory>
    ensures came { IfOk result (λ count. TakesIn to.old (on_way stream.old) most count to.new (on_way stream.new)) }
    ensures err { OnErr result ((to.new ≡ to.old) × (on_way stream.new ≡ on_way stream.old)) }
{
    let bytes = stream.take(alloc, most)?;
    to.received(bytes.as_slice());
    Ok(bytes.len())
}

/// Asks a connection for what it has to tell, and notes that. `Memory` if a growth was refused: for its entry, and nothing was told; or for
/// the copy that is handed out, and it was told in the journal alone.
pub(crate) fn tell_noted(
    alloc: Global,
    vat: Vat,
    connection: &mut Connection,
    journal: &mut Vec<JoinedEntry>,
) -> Result<Option<Event>, Memory>
    ensures told { IfOk result (λ event. IsToldAndNoted connection.old journal.old.items vat event connection.new journal.new.items) }
    ensures err { OnErr result (((connection.new ≡ connection.old) × (journal.new.items ≡ journal.old.items)) ⊎ ((event : Event) × IsToldAndNoted connection.old journal.old.items vat (Some event) connection.new journal.new.items)) }
{
    make_place(journal)?;
    let Some(event) = connection.next_event() else {
        return Ok(None);
    };
    let copy = copy_event(alloc, &event);
    journal.push_reserved(JoinedEntry::Told(vat, event));
    match copy {
        Ok(copy) => return Ok(Some(copy)),
        Err(memory) => return Err(memory),
    }
}
