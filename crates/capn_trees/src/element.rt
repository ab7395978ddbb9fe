//! The elements of lists without pointers, by the numbers that their bits say.
ghost use Rattle.std.specs.Prelude.{◌≡◌, ℕ, ◌^◌, ◌<◌, map};
ghost use Rattle.capn_trees.specs.Trees.{packed};
ghost use Rattle.capn_trees.specs.Views.{bit, items_view};
ghost use Rattle.capn_trees.specs.Widths.{AreOf};

use crate::tree::Items;

/// An element of a list without pointers, whose bits say a number.
pub trait Element: Copy {
    ghost BITS: { ℕ };

    ghost said: { Self → ℕ };

    /// How many bits it has.
    const BITS: u8;

    /// The number that its bits say.
    fn number(self) -> u64
        ensures { result ≡ said self };

    /// The element whose bits say that number.
    fn of_number(number: u64) -> Self
        requires { number < 2 ^ BITS }
        ensures { said result ≡ number };

    /// The numbers of elements take no more bits. It does nothing.
    fn fit(elements: &[Self])
        ensures { AreOf BITS (map said elements.now) };

    /// The list of these elements.
    fn list(elements: Vec<Self>) -> Items
        ensures { items_view result ≡ packed BITS (map said elements.items) };
}

impl Element for bool {
    ghost BITS = { 1 };

    ghost said = { bit };

    const BITS: u8 = 1;

    fn number(self) -> u64 {
        u64::from(self)
    }

    fn of_number(number: u64) -> Self {
        number == 1
    }

    fn fit(_elements: &[bool]) {}

    fn list(elements: Vec<bool>) -> Items
        ensures { items_view result ≡ packed 1 (map bit elements.items) }
    {
        Items::Bits(elements)
    }
}

impl Element for u8 {
    ghost BITS = { 8 };

    ghost said = { λ x. x };

    const BITS: u8 = 8;

    fn number(self) -> u64 {
        u64::from(self)
    }

    fn of_number(number: u64) -> Self {
        number as u8
    }

    fn fit(_elements: &[u8]) {}

    fn list(elements: Vec<u8>) -> Items
        ensures { items_view result ≡ packed 8 (map (λ x. x) elements.items) }
    {
        Items::Bytes(elements)
    }
}

impl Element for u16 {
    ghost BITS = { 16 };

    ghost said = { λ x. x };

    const BITS: u8 = 16;

    fn number(self) -> u64 {
        u64::from(self)
    }

    fn of_number(number: u64) -> Self {
        number as u16
    }

    fn fit(_elements: &[u16]) {}

    fn list(elements: Vec<u16>) -> Items
        ensures { items_view result ≡ packed 16 (map (λ x. x) elements.items) }
    {
        Items::Twos(elements)
    }
}

impl Element for u32 {
    ghost BITS = { 32 };

    ghost said = { λ x. x };

    const BITS: u8 = 32;

    fn number(self) -> u64 {
        u64::from(self)
    }

    fn of_number(number: u64) -> Self {
        number as u32
    }

    fn fit(_elements: &[u32]) {}

    fn list(elements: Vec<u32>) -> Items
        ensures { items_view result ≡ packed 32 (map (λ x. x) elements.items) }
    {
        Items::Fours(elements)
    }
}

impl Element for u64 {
    ghost BITS = { 64 };

    ghost said = { λ x. x };

    const BITS: u8 = 64;

    fn number(self) -> u64 {
        self
    }

    fn of_number(number: u64) -> Self {
        number
    }

    fn fit(_elements: &[u64]) {}

    fn list(elements: Vec<u64>) -> Items
        ensures { items_view result ≡ packed 64 (map (λ x. x) elements.items) }
    {
        Items::Eights(elements)
    }
}
