ghost use Rattle.std.specs.Prelude.{◌≡◌, ◌<◌, ◌≤◌, [], vec_len, vec_capacity};

use crate::lists::KEPT;
use std::alloc::Global;
use std::mem;

/// Memory of a list that is empty, in which later items go out.
#[derive(Drop)]
pub(crate) struct Spare<Item> {
    list: Vec<Item>,
    ghost none: { list.items ≡ [] },
    ghost no_len: { vec_len list ≡ 0 },
}

impl<Item: Drop> Spare<Item> {
    /// None.
    pub(crate) fn new(alloc: Global) -> Self
        ensures { vec_capacity result.list ≡ 0 }
    {
        Spare {
            list: Vec::new(alloc),
        }
    }

    /// Makes memory for so many items, if some is found.
    pub(crate) fn make(&mut self, wanted: usize, alloc: Global) {
        if wanted <= self.list.capacity() {
            return;
        }
        if let Ok(list) = Vec::with_capacity(alloc, wanted) {
            *self = Spare { list };
        }
    }

    /// Makes as much memory as a list has, if that is not much. Else it won't take the list's place, and is let go.
    pub(crate) fn make_like(&mut self, list: &Vec<Item>, alloc: Global) {
        if list.capacity() <= KEPT {
            self.make(list.capacity(), alloc);
        } else {
            *self = Spare::new(alloc);
        }
    }

    /// Takes the memory of a list that came back, if it is more, and not much.
    #[inline(always)]
    pub(crate) fn reuse(&mut self, list: Vec<Item>) {
        if list.capacity() == 0 {
            return mem::forget(list);
        }
        if list.is_empty() && self.list.capacity() == 0 && list.capacity() <= KEPT {
            return mem::forget(mem::replace(self, Spare { list }));
        }
        self.reuse_emptied(list);
    }

    // The same, if the list is to be emptied, or there is memory already, or too much came back.
    #[inline(never)]
    fn reuse_emptied(&mut self, mut list: Vec<Item>) {
        list.clear();
        if list.capacity() <= self.list.capacity() || KEPT < list.capacity() {
            return list.destroy_empty();
        }
        let before = mem::replace(self, Spare { list });
        let Spare { list } = before;
        list.destroy_empty();
    }

    /// What stands in a list. If the spare memory is as much as the list's own, it takes its place, and nothing is copied.
    /// Else a few items go out in the spare memory, and the list then keeps its own, unless that is for more than `kept`;
    /// more go out in the list's memory.
    #[inline(always)]
    pub(crate) fn hand_out(&mut self, list: &mut Vec<Item>, kept: usize, alloc: Global) -> Vec<Item>
        ensures items { result.items ≡ list.old.items }
        ensures left { list.new.items ≡ [] }
        ensures len { vec_len list.new ≡ 0 }
        ensures kept { vec_capacity result ≤ vec_capacity list.new → vec_capacity list.old ≤ vec_capacity list.new }
    {
        if list.is_empty() {
            return Vec::new(alloc);
        }
        self.match_list(list, kept, alloc);
        mem::replace(list, self.take(alloc))
    }

    // Sees to it that the list goes out if the spare memory takes its place.
    #[inline(always)]
    fn match_list(&mut self, list: &mut Vec<Item>, kept: usize, alloc: Global)
        requires { 0 < vec_len list.old }
        ensures items { list.new.items ≡ list.old.items }
        ensures kept { vec_capacity list.new ≤ vec_capacity self.new.list → vec_capacity list.old ≤ vec_capacity self.new.list }
    {
        if self.list.capacity() < list.capacity() {
            self.set_apart(list, kept, alloc);
        }
    }

    // Sets a few items apart from the list's memory, which is spare memory then, unless it is for more than `kept`.
    #[cold]
    #[inline(never)]
    fn set_apart(&mut self, list: &mut Vec<Item>, kept: usize, alloc: Global)
        requires { 0 < vec_len list.old }
        ensures items { list.new.items ≡ list.old.items }
        ensures kept { vec_capacity list.new ≤ vec_capacity self.new.list → vec_capacity list.old ≤ vec_capacity self.new.list }
    {
        let before = list.capacity();
        let mut few = self.take(alloc);
        if few.capacity() < list.len() {
            return few.destroy_empty();
        }
        let Ok(()) = few.append(list) else {
            unreachable!()
        };
        let own = mem::replace(list, few);
        if before <= own.capacity() && own.capacity() <= kept {
            *self = Spare { list: own };
        }
    }

    // The memory, as a list that is empty.
    fn take(&mut self, alloc: Global) -> Vec<Item>
        ensures items { result.items ≡ [] }
        ensures len { vec_len result ≡ 0 }
        ensures capacity { vec_capacity result ≡ vec_capacity self.old.list }
        ensures none { vec_capacity self.new.list ≡ 0 }
    {
        let spare = mem::replace(self, Spare::new(alloc));
        let Spare { list } = spare;
        list
    }
}
