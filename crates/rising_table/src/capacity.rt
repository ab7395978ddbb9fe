ghost use Rattle.std.specs.Prelude.{◌≡◌, ◌+◌, ◌≤◌, vec_len, vec_capacity, IsOk, OnOk};

use rpc_msg::Memory;

/// How much memory a table of so many entries is made, if it needs memory for so many more. It is for an eighth of its
/// entries at least, so that a large table seldom grows, and has little memory that is never used.
pub fn growth(len: usize, more: usize) -> usize
    ensures { more ≤ result }
{
    more.max(len / 8)
}

/// Makes room for so many more.
pub fn grow<Item>(list: &mut Vec<Item>, more: usize) -> Result<(), Memory>
    ensures items { list.new.items ≡ list.old.items }
    ensures len { vec_len list.new ≡ vec_len list.old }
    ensures ok { OnOk result (vec_len list.new + more ≤ vec_capacity list.new) }
    ensures capacity { vec_capacity list.old ≤ vec_capacity list.new }
    ensures succeeds { vec_len list.old + more ≤ vec_capacity list.old → IsOk result }
{
    if more <= list.capacity() - list.len() {
        return Ok(());
    }
    match list.reserve_exact(growth(list.len(), more)) {
        Ok(()) => Ok(()),
        Err(_) => Err(Memory),
    }
}
