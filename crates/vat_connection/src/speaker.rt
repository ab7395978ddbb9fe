//! A vat with the bytes that it says, and its commands.
ghost use Rattle.std.specs.Prelude.{◌≡◌, ◌⊎◌, false, Ok, Err, IfOk, IfErr, OnOk, is_some};
ghost use Rattle.rpc_machine.specs.declared.command.Command.TheVariants as command;
ghost use Rattle.rpc_machine.specs.declared.command.Refusal.TheVariants as refusal;
ghost use Rattle.rpc_machine.specs.State.{start};
ghost use Rattle.vat_host.specs.Hosting.{Does, Refuses, idle};
ghost use Rattle.rpc_codec_fits.specs.Carrying.{fits};
ghost use Rattle.rpc_outgoing.specs.Outflows.{nothing_out};
ghost use Rattle.peer_large.specs.Sparing.{fresh as fresh_adapter};
ghost use Rattle.vat_connection.specs.Calling.{Calls, FindsNoRoom, FindsRoom, Fits, IsTooLarge, call_of};
ghost use Rattle.vat_connection.specs.Load.{nothing_heard};
ghost use Rattle.vat_connection.specs.Hearing.{IsReady, may_hear};
ghost use Rattle.vat_connection.specs.Speaking.{Falls, Shuts, finishing, given, want_of_room};

use crate::load::{Intake, Limits};
use crate::places::lacks_places;
use peer_adapter::Finishes;
use peer_large::SparingAdapter;
use rpc_codec_fits::fits_envelope;
use rpc_machine::{CallCommand, Command, Fault, Granted, Level, Refusal};
use rpc_msg::{CallId, Memory, ObjectId, Vat};
use rpc_outgoing::Outgoing;
use std::alloc::Global;
use std::marker::Model;
use vat_host::{Host, Refused};

/// A vat, the bytes that it says, its adapter, and what it has heard.
#[derive(Drop)]
pub(crate) struct Speaker {
    pub(crate) host: Host,
    pub(crate) out: Outgoing,
    pub(crate) adapter: SparingAdapter,
    pub(crate) heard: Intake,
    pub(crate) alloc: Global,
}

impl Model for Speaker {
    ghost use Rattle.vat_connection.specs.Speaking.{Speaking, speaking_code};

    ghost Value = { Speaking };

    ghost coded = { speaking_code };

    ghost view = { λ a. record { host = a.host; out = a.out; adapter = a.adapter; heard = a.heard } };
}

impl Speaker {
    /// A new vat that has heard and said nothing.
    pub(crate) fn new(
        alloc: Global,
        vat: Vat,
        level: Level,
        bootstrap: Option<ObjectId>,
    ) -> Result<Speaker, Memory>
        ensures { IfOk result (λ speaker. speaker ≡ record { host = idle (start vat level bootstrap); out = nothing_out; adapter = fresh_adapter; heard = nothing_heard }) }
    {
        let host = Host::new(alloc, vat, level, bootstrap)?;
        Ok(Speaker {
            host,
            out: Outgoing::new(alloc),
            adapter: SparingAdapter::new(alloc),
            heard: Intake::new(alloc),
            alloc,
        })
    }

    pub(crate) fn is_down(&self) -> bool
        ensures { result ≡ is_some self.now.host.core.down }
    {
        self.host.core().down().is_some()
    }

    /// Whether one more frame may be heard, by the load.
    pub(crate) fn may_hear(&self, limits: Limits) -> bool
        ensures { result ≡ may_hear limits self.now }
    {
        limits.has(self.heard.words(), self.out.bytes().len() as u64)
    }

    /// Puts the frames of all that a vat that is up has to say behind the bytes. Says whether it may hear one more frame then.
    pub(crate) fn is_ready(&mut self, limits: Limits) -> bool
        ensures { IsReady limits self.old result self.new }
    {
        if self.is_down() {
            return false;
        }
        self.say();
        if self.is_down() {
            return false;
        }
        self.may_hear(limits)
    }

    /// Takes the vat down with that number, if it is up.
    pub(crate) fn fall(&mut self, number: u16)
        ensures { Falls self.old number self.new }
    {
        self.host.shut(number);
    }

    /// From now on the Finish of a question that the vat asks goes at once, or behind its Return. Takes no memory.
    pub(crate) fn set_finishes(&mut self, finishes: Finishes)
        ensures { self.new ≡ finishing self.old finishes }
    {
        self.adapter.set_finishes(finishes);
    }

    /// Takes a command of any kind, unless what it gives may be too large for the frames that carry it, or the exports that it may
    /// want by itself have no place.
    pub(crate) fn command(&mut self, command: Command) -> Result<Granted, Refused<Command>>
        ensures done { IfOk result (λ granted. Does self.old.host command granted self.new.host × FindsRoom self.old.host command) }
        ensures refused { IfErr result (λ e. Refuses self.old.host command e.refusal self.new.host ⊎ FindsNoRoom self.old.host command e.refusal self.new.host) }
        ensures handed_back { IfErr result (λ e. e.back ≡ command) }
        ensures rest { self.new ≡ record self.old { host = self.new.host } }
    {
        if !fits_envelope(&command) {
            return Err(Refused {
                refusal: Refusal::Full,
                back: command,
            });
        }
        if lacks_places(self.host.core(), &command) {
            return Err(Refused {
                refusal: Refusal::Full,
                back: command,
            });
        }
        // Each arm by itself: a result that is handed on whole leaves its clauses to be proved by cases.
        match self.host.command(command) {
            Ok(granted) => return Ok(granted),
            Err(refused) => return Err(refused),
        }
    }

    /// Makes a call, unless what it gives may be too large for the frames that carry it. Its reference takes the shorter path
    /// before, if one is known.
    pub(crate) fn call(&mut self, call: CallCommand) -> Result<CallId, Refused<CallCommand>>
        ensures done { IfOk result (λ id. Calls self.old.host call (Ok id) self.new.host × Fits (command.Call call)) }
        ensures refused { IfErr result (λ e. Calls self.old.host call (Err e.refusal) self.new.host ⊎ IsTooLarge self.old.host (command.Call call) e.refusal self.new.host) }
        ensures handed_back { IfErr result (λ e. e.back ≡ call) }
        ensures rest { self.new ≡ record self.old { host = self.new.host } }
    {
        let call = match fitting(call) {
            Ok(call) => call,
            Err(refused) => return Err(refused),
        };
        let _ = self.host.advance(call.reference);
        self.host.call(call)
    }

    /// Hands out the bytes, once. Takes no memory.
    pub(crate) fn take_bytes(&mut self) -> Vec<u8>
        ensures taken { result.items ≡ self.old.out.bytes }
        ensures left { self.new ≡ given self.old }
    {
        self.out.take()
    }
}

fn call_in(command: Command) -> Option<CallCommand>
    ensures { result ≡ call_of command }
{
    match command {
        Command::Call(call) => Some(call),
        _other => None,
    }
}

// A call whose payload fits into each frame that carries it; else it is handed back.
fn fitting(call: CallCommand) -> Result<CallCommand, Refused<CallCommand>>
    ensures same { IfOk result (λ same. same ≡ call) }
    ensures fits { OnOk result (Fits (command.Call call)) }
    ensures refused { IfErr result (λ e. (e.refusal ≡ refusal.Full) × (fits (command.Call call) ≡ false)) }
    ensures handed_back { IfErr result (λ e. e.back ≡ call) }
{
    let command = Command::Call(call);
    let fits = fits_envelope(&command);
    let Some(call) = call_in(command) else {
        unreachable!()
    };
    if fits {
        return Ok(call);
    }
    Err(Refused {
        refusal: Refusal::Full,
        back: call,
    })
}

/// Takes the vat down for lack of room, or of memory, if it is up.
pub(crate) fn lack_room(host: &mut Host)
    ensures { Shuts host.old want_of_room host.new }
{
    host.shut(Fault::WantOfRoom.code());
}
