ghost use Rattle.std.specs.Prelude.{◌≡◌, ◌+◌, ◌≤◌, ◌<◌, [], ◌∷◌, ◌++◌, length, vec_len, vec_capacity, IsOk, IsTrue, OnOk};
ghost use Rattle.core_outbox.specs.Outgoing.{finish_messages, release_messages};

use rpc_msg::{ExportId, Finish, Memory, Message, PlainMessage, QuestionId, Release};
use std::alloc::Global;

// What is reserved beyond what is asked of a list that is empty, so that growth is rare.
const SPARE: usize = 64;

/// So many items go out of a list in memory of their own.
pub(crate) const FEW: usize = 4;

/// A list that is empty keeps memory for so many items at most, except for the room of what is said at the end of a step.
pub(crate) const KEPT: usize = 512;

/// Makes room for so many more. Refused only if the growth was. Memory in which nothing stands is not copied.
pub(crate) fn grow<Item: Drop>(
    list: &mut Vec<Item>,
    more: usize,
    alloc: Global,
) -> Result<(), Memory>
    ensures items { list.new.items ≡ list.old.items }
    ensures len { vec_len list.new ≡ vec_len list.old }
    ensures ok { OnOk result (vec_len list.new + more ≤ vec_capacity list.new) }
    ensures capacity { vec_capacity list.old ≤ vec_capacity list.new }
    ensures had_room { vec_len list.old + more ≤ vec_capacity list.old → IsOk result }
{
    if list.is_empty() {
        return grow_empty(list, more, alloc);
    }
    match list.reserve(more) {
        Ok(()) => Ok(()),
        Err(_) => Err(Memory),
    }
}

fn grow_empty<Item: Drop>(list: &mut Vec<Item>, more: usize, alloc: Global) -> Result<(), Memory>
    requires none { list.old.items ≡ [] }
    requires no_len { vec_len list.old ≡ 0 }
    ensures items { list.new.items ≡ [] }
    ensures len { vec_len list.new ≡ 0 }
    ensures ok { OnOk result (more ≤ vec_capacity list.new) }
    ensures capacity { vec_capacity list.old ≤ vec_capacity list.new }
    ensures had_room { more ≤ vec_capacity list.old → IsOk result }
{
    if more <= list.capacity() {
        return Ok(());
    }
    let Some(wanted) = more.checked_add(SPARE) else {
        return Err(Memory);
    };
    *list = Vec::with_capacity(alloc, wanted)?;
    Ok(())
}

/// Whether there is room for so many more.
pub(crate) fn fits<Item>(list: &Vec<Item>, more: usize) -> bool
    ensures { IsTrue result → vec_len list.now + more ≤ vec_capacity list.now }
{
    more <= list.capacity() - list.len()
}

/// Whether a list has memory for more than so many items.
pub(crate) fn is_more<Item>(list: &Vec<Item>, kept: usize) -> bool {
    kept < list.capacity()
}

/// Lets the memory of a list go that is empty, if it is much.
#[cold]
#[inline(never)]
pub(crate) fn let_go<Item: Drop>(list: &mut Vec<Item>, alloc: Global)
    requires none { list.old.items ≡ [] }
    requires no_len { vec_len list.old ≡ 0 }
    ensures items { list.new.items ≡ [] }
    ensures len { vec_len list.new ≡ 0 }
{
    if is_more(list, KEPT) {
        *list = Vec::new(alloc);
    }
}

/// Puts an item at the end, if there is room.
pub(crate) fn push_kept<Item: Drop>(list: &mut Vec<Item>, item: Item)
    requires { vec_len list.old < vec_capacity list.old }
    ensures items { list.new.items ≡ list.old.items ++ item ∷ [] }
    ensures len { vec_len list.new ≡ vec_len list.old + 1 }
    ensures capacity { vec_capacity list.old ≤ vec_capacity list.new }
{
    list.push_reserved(item);
}

/// Sends these Finishes, if there is room.
pub(crate) fn push_finishes(sends: &mut Vec<Message>, finishes: &[(u32, bool)])
    requires { vec_len sends.old + length finishes.now ≤ vec_capacity sends.old }
    ensures items { sends.new.items ≡ sends.old.items ++ finish_messages finishes.now }
    ensures len { vec_len sends.new ≡ vec_len sends.old + length finishes.now }
    ensures capacity { vec_capacity sends.old ≤ vec_capacity sends.new }
{
    for &(id, release_result_caps) in finishes {
        let finish = Finish {
            question: QuestionId(id),
            release_result_caps,
        };
        push_kept(sends, Message::Plain(PlainMessage::Finish(finish)));
    }
}

/// Sends these Releases, if there is room.
pub(crate) fn push_releases(sends: &mut Vec<Message>, releases: &[(u32, u32)])
    requires { vec_len sends.old + length releases.now ≤ vec_capacity sends.old }
    ensures items { sends.new.items ≡ sends.old.items ++ release_messages releases.now }
    ensures len { vec_len sends.new ≡ vec_len sends.old + length releases.now }
    ensures capacity { vec_capacity sends.old ≤ vec_capacity sends.new }
{
    for &(id, count) in releases {
        let release = Release {
            export: ExportId(id),
            count,
        };
        push_kept(sends, Message::Plain(PlainMessage::Release(release)));
    }
}
