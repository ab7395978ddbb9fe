ghost use Rattle.std.specs.Prelude.{◌≡◌, ◌≤◌, ◌<◌, ◌+◌, [], ◌∷◌, ◌++◌, length, take, cond, nat_eq, not, option_to_list, IsTrue};
ghost use Rattle.std.specs.List.{list_all};
ghost use Rattle.std.specs.FinMap as map;
ghost use Rattle.rpc_msg.specs.Messages.{given};
ghost use Rattle.rpc_machine.specs.Flags.{flag_for, give_each, give_if, is_spared};
ghost use Rattle.rpc_machine.specs.Lists.{how_many, is_empty};
ghost use Rattle.rpc_machine.specs.Progress.{numbers};
ghost use Rattle.rpc_machine.specs.Sweeping.{descriptors_said, got_of};
ghost use Rattle.core_step_collects.specs.Standing.{StandsAmong};
ghost use Rattle.core_store.specs.Holding.{state_of, IsSound};

use crate::flags::{as_number, may_lose};
use crate::runs::{FEW, MANY, sorted_spared};
use core_store::Store;
use core_store_tables::give_one;
use rpc_machine::{Level, Node, Returned};
use rpc_msg::{Descriptor, ExportId};

/// The release flag for the descriptors of a Return, while their own place stands, as `flag_for` gives it for ids. Takes no
/// memory. No call may be taken out to be routed.
pub fn flag_for_returned(store: &Store, said: &Option<Returned>) -> bool
    requires sound { IsSound store.now }
    requires none_taken { store.now.waits.taken ≡ [] }
    ensures { result ≡ flag_for (state_of store.now) (got_of said.now) }
{
    match said {
        Some(Returned::Results(_, caps)) => flag_for_got(store, caps),
        Some(Returned::Exception(_)) => flag_for_none(store),
        None => flag_for_none(store),
    }
}

fn flag_for_none(store: &Store) -> bool
    ensures { result ≡ flag_for (state_of store.now) [] }
{
    match store.level {
        Level::Zero => true,
        Level::One => false,
    }
}

fn flag_for_got(store: &Store, caps: &[(Descriptor, Node)]) -> bool
    requires sound { IsSound store.now }
    requires none_taken { store.now.waits.taken ≡ [] }
    ensures { result ≡ flag_for (state_of store.now) (given (descriptors_said caps.now)) }
{
    match store.level {
        Level::Zero => true,
        Level::One => gives_any(caps) && all_got_spared(store, caps),
    }
}

// Whether one of these descriptors adds one to the count of an export.
fn gives_any(caps: &[(Descriptor, Node)]) -> bool
    ensures { result ≡ not (is_empty (given (descriptors_said caps.now))) }
{
    for cap in caps {
        if given_id(&cap.0).is_some() {
            return true;
        }
    }
    false
}

fn all_got_spared(store: &Store, caps: &[(Descriptor, Node)]) -> bool
    requires sound { IsSound store.now }
    requires none_taken { store.now.waits.taken ≡ [] }
    ensures { result ≡ list_all (is_spared (state_of store.now) (given (descriptors_said caps.now))) (given (descriptors_said caps.now)) }
{
    if caps.len() > FEW && caps.len() <= MANY {
        return many_got_spared(store, caps);
    }
    each_got_spared(store, caps)
}

// Apart, as `many_spared` is.
#[cold]
#[inline(never)]
fn many_got_spared(store: &Store, caps: &[(Descriptor, Node)]) -> bool
    requires sound { IsSound store.now }
    requires none_taken { store.now.waits.taken ≡ [] }
    requires fit { length caps.now ≤ MANY }
    ensures { result ≡ list_all (is_spared (state_of store.now) (given (descriptors_said caps.now))) (given (descriptors_said caps.now)) }
{
    let mut copied = [0; MANY];
    let len = copy_got(caps, &mut copied);
    sorted_spared(store, &mut copied[..len])
}

// Copies the ids that the descriptors give, and answers how many there are.
fn copy_got(caps: &[(Descriptor, Node)], copied: &mut [u32]) -> usize
    requires { length caps.now ≤ length copied.old }
    ensures fit { result ≤ length copied.new }
    ensures ids { take result copied.new ≡ given (descriptors_said caps.now) }
{
    let mut len = 0;
    for cap in caps {
        len = copy_id(&cap.0, copied, len);
    }
    len
}

// Copies the id that the descriptor gives, if it does, to that place, and answers the next free one.
fn copy_id(one: &Descriptor, copied: &mut [u32], place: usize) -> usize
    requires { place < length copied.old }
    ensures len { length copied.new ≡ length copied.old }
    ensures next { result ≤ place + 1 }
    ensures ids { take result copied.new ≡ take place copied.old ++ given (one.now ∷ []) }
{
    let Some(id) = given_id(one) else {
        return place;
    };
    copied[place] = id.0;
    place + 1
}

fn each_got_spared(store: &Store, caps: &[(Descriptor, Node)]) -> bool
    requires sound { IsSound store.now }
    requires none_taken { store.now.waits.taken ≡ [] }
    ensures { result ≡ list_all (is_spared (state_of store.now) (given (descriptors_said caps.now))) (given (descriptors_said caps.now)) }
{
    for at in 0..caps.len() {
        let one = &caps[at].0;
        if stands_among(caps, at, one) {
            continue;
        }
        if !is_got_spared(store, caps, one) {
            return false;
        }
    }
    true
}

// Whether a descriptor before that place adds one to the count of the same export, looked for from there back.
fn stands_among(caps: &[(Descriptor, Node)], place: usize, one: &Descriptor) -> bool
    requires { place ≤ length caps.now }
    ensures { IsTrue result → StandsAmong caps.now place one.now }
{
    if given_id(one).is_none() {
        return false;
    }
    let mut at = place;
    while at > 0 {
        at -= 1;
        if gives_the_same(&caps[at].0, one) {
            return true;
        }
    }
    false
}

// Whether both descriptors add one to the count of the same export.
fn gives_the_same(one: &Descriptor, other: &Descriptor) -> bool
    ensures { IsTrue result → given (one.now ∷ []) ≡ given (other.now ∷ []) }
{
    let Some(id) = given_id(one) else {
        return false;
    };
    let Some(same) = given_id(other) else {
        return false;
    };
    id.0 == same.0
}

fn is_got_spared(store: &Store, caps: &[(Descriptor, Node)], one: &Descriptor) -> bool
    requires sound { IsSound store.now }
    requires none_taken { store.now.waits.taken ≡ [] }
    ensures { result ≡ list_all (is_spared (state_of store.now) (given (descriptors_said caps.now))) (given (one.now ∷ [])) }
{
    let Some(id) = given_id(one) else {
        return true;
    };
    may_lose(store, id, times_got(caps, id))
}

// How often the id is among those of these descriptors.
fn times_got(caps: &[(Descriptor, Node)], id: ExportId) -> usize
    ensures { result ≡ how_many (nat_eq id.0) (given (descriptors_said caps.now)) }
{
    let mut times = 0;
    for cap in caps {
        times += times_given_by(&cap.0, id);
    }
    times
}

fn times_given_by(one: &Descriptor, id: ExportId) -> usize
    ensures times { result ≡ how_many (nat_eq id.0) (given (one.now ∷ [])) }
    ensures most { result ≤ 1 }
{
    let Some(other) = given_id(one) else {
        return 0;
    };
    as_number(id.0 == other.0)
}

// The id of the export to whose count the descriptor adds one, if it does.
fn given_id(one: &Descriptor) -> Option<ExportId>
    ensures { given (one.now ∷ []) ≡ numbers (option_to_list result) }
{
    match *one {
        Descriptor::SenderHosted(id) => Some(id),
        Descriptor::SenderPromise(id) => Some(id),
        Descriptor::None => None,
        Descriptor::ReceiverHosted(_) => None,
        Descriptor::ReceiverAnswer(_, _) => None,
    }
}

/// Gives back what a true flag for the descriptors of a Return lets go: one of the count of each of their imports. Takes no
/// memory.
pub fn give_if_returned(store: &mut Store, flag: bool, said: &Option<Returned>)
    requires { IsSound store.old }
    ensures state { state_of store.new ≡ give_if (state_of store.old) flag (got_of said.now) }
    ensures left { store.new.slack ≡ store.old.slack }
    ensures waits { store.new.waits ≡ store.old.waits }
    ensures sound { IsSound store.new }
{
    if !flag {
        return;
    }
    match said {
        Some(Returned::Results(_, caps)) => give_each_got(store, caps),
        Some(Returned::Exception(_)) => {}
        None => {}
    }
}

fn give_each_got(store: &mut Store, caps: &[(Descriptor, Node)])
    requires { IsSound store.old }
    ensures state { state_of store.new ≡ record (state_of store.old) { imports = give_each (state_of store.old).imports (given (descriptors_said caps.now)) } }
    ensures left { store.new.slack ≡ store.old.slack }
    ensures waits { store.new.waits ≡ store.old.waits }
    ensures sound { IsSound store.new }
{
    for cap in caps {
        give_one_got(store, &cap.0);
    }
}

fn give_one_got(store: &mut Store, one: &Descriptor)
    requires { IsSound store.old }
    ensures state { state_of store.new ≡ record (state_of store.old) { imports = give_each (state_of store.old).imports (given (one.now ∷ [])) } }
    ensures left { store.new.slack ≡ store.old.slack }
    ensures waits { store.new.waits ≡ store.old.waits }
    ensures sound { IsSound store.new }
{
    let Some(id) = given_id(one) else {
        return;
    };
    give_one(store, id);
}
