ghost use Rattle.std.specs.Prelude.{◌≡◌, ◌^◌, IfOk, OnOk};
ghost use Rattle.serde_json.specs.Data.{Data, boolean, string, object, member, no_members};
ghost use Rattle.serde_json.specs.View.{view, members_view};
ghost use Rattle.trace_write.specs.Parts.{nat, list, only};
ghost use Rattle.trace_write.specs.Fits.{FitsAny, FitsU32, FitsU16, FitsAll, FitsFlag};
ghost use Rattle.trace_json_parts.specs.Reading.{Read, Gives, members_at, next_at, end_at, last_value_at, last_at, field_at, two_at, last_two_at, both_at, nat_at, u64_at, text_at, word_at, only_at, list_at, flag_at};

use crate::fault::Fault;
use rpc_msg::{Items, Text};
use serde_json::Value;
use std::alloc::Global;
use std::collections::btree_map::Iter;
use trace_write::TraceVersion;

/// What is read from a value.
pub trait Part: Sized {
    ghost at: { Data → Read Self };

    ghost shown: { Self → Data };

    ghost fits: { Self → Type 0 };

    fn read(alloc: Global, value: &Value) -> Result<Self, Fault>
        ensures gives { Gives (λ x. x) result (at (view value.now)) }
        ensures ok { IfOk result (λ x. (view value.now ≡ shown x) × fits x) };
}

/// The members of an object that were not read yet, by rising key.
#[derive(Drop)]
pub struct Fields<'v> {
    rest: Iter<'v, String, Value>,
}

impl<'v> Fields<'v> {
    /// All members of an object; `WrongShape` of another value.
    pub fn of(value: &'v Value) -> Result<Fields<'v>, Fault>
        ensures gives { Gives (λ f. members_view f.rest) result (members_at (view value.now)) }
        ensures ok { IfOk result (λ f. view value.now ≡ object (members_view f.rest)) }
    {
        match value {
            Value::Object(map) => Ok(Fields { rest: map.iter() }),
            _ => Err(Fault::WrongShape),
        }
    }

    /// The value of the next member, which has to have that key.
    pub fn next(&mut self, key: &str) -> Result<&'v Value, Fault>
        ensures gives { Gives (λ v. (view v.now, members_view self.new.rest)) result (next_at key.now (members_view self.old.rest)) }
        ensures ok { IfOk result (λ v. members_view self.old.rest ≡ member key.now (view v.now) (members_view self.new.rest)) }
    {
        match self.rest.next() {
            Some((found, value)) => {
                if found.as_str() == key {
                    Ok(value)
                } else {
                    Err(Fault::WrongShape)
                }
            }
            None => Err(Fault::WrongShape),
        }
    }

    #[tactic(auto, unfolding(crate::specs::Reading::field_at))]
    /// The part that the next member is, which has to have that key.
    pub fn read<T: Part>(&mut self, alloc: Global, key: &str) -> Result<T, Fault>
        ensures gives { Gives (λ x. (x, members_view self.new.rest)) result (field_at T.at key.now (members_view self.old.rest)) }
        ensures ok { IfOk result (λ x. (members_view self.old.rest ≡ member key.now (T.shown x) (members_view self.new.rest)) × T.fits x) }
    {
        let value = self.next(key)?;
        T::read(alloc, value)
    }

    /// The parts that the next two members are, which have to have these keys.
    #[tactic(auto, unfolding(crate::specs::Reading::two_at))]
    pub fn two<A: Part + Drop, B: Part>(
        &mut self,
        alloc: Global,
        first: &str,
        second: &str,
    ) -> Result<(A, B), Fault>
        ensures gives { Gives (λ x. (x.0, x.1, members_view self.new.rest)) result (two_at A.at B.at first.now second.now (members_view self.old.rest)) }
        ensures ok { IfOk result (λ x. (members_view self.old.rest ≡ member first.now (A.shown x.0) (member second.now (B.shown x.1) (members_view self.new.rest))) × A.fits x.0 × B.fits x.1) }
    {
        let one = self.read(alloc, first)?;
        let other = self.read(alloc, second)?;
        Ok((one, other))
    }

    /// The parts that the last two members are, which have to have these keys.
    #[tactic(auto, unfolding(crate::specs::Reading::last_two_at))]
    pub fn last_two<A: Part + Drop, B: Part>(
        mut self,
        alloc: Global,
        first: &str,
        second: &str,
    ) -> Result<(A, B), Fault>
        ensures gives { Gives (λ x. x) result (last_two_at A.at B.at first.now second.now (members_view self.entry.rest)) }
        ensures ok { IfOk result (λ x. (members_view self.entry.rest ≡ member first.now (A.shown x.0) (member second.now (B.shown x.1) no_members)) × A.fits x.0 × B.fits x.1) }
    {
        let one = self.read(alloc, first)?;
        let other = self.last(alloc, second)?;
        Ok((one, other))
    }

    /// The text that the next member is, which has to have that key.
    #[tactic(auto, unfolding(crate::specs::Reading::field_at))]
    pub(crate) fn text(&mut self, key: &str) -> Result<&'v str, Fault>
        ensures gives { Gives (λ s. (s.now, members_view self.new.rest)) result (field_at text_at key.now (members_view self.old.rest)) }
        ensures ok { IfOk result (λ s. members_view self.old.rest ≡ member key.now (string s.now) (members_view self.new.rest)) }
    {
        let value = self.next(key)?;
        text_of(value)
    }

    /// The next member has to be that text.
    #[tactic(auto, unfolding(crate::specs::Reading::word_at))]
    pub fn word(&mut self, key: &str, word: &str) -> Result<(), Fault>
        ensures gives { Gives (λ u. members_view self.new.rest) result (word_at word.now key.now (members_view self.old.rest)) }
        ensures ok { OnOk result (members_view self.old.rest ≡ member key.now (string word.now) (members_view self.new.rest)) }
    {
        if self.text(key)? == word {
            Ok(())
        } else {
            Err(Fault::WrongShape)
        }
    }

    /// The value of the last member, which has to have that key.
    #[tactic(auto, unfolding(crate::specs::Reading::last_value_at))]
    pub fn last_value(mut self, key: &str) -> Result<&'v Value, Fault>
        ensures gives { Gives (λ v. view v.now) result (last_value_at key.now (members_view self.entry.rest)) }
        ensures ok { IfOk result (λ v. members_view self.entry.rest ≡ member key.now (view v.now) no_members) }
    {
        let value = self.next(key)?;
        self.end()?;
        Ok(value)
    }

    /// The part that the last member is, which has to have that key.
    #[tactic(auto, unfolding(crate::specs::Reading::last_at))]
    pub fn last<T: Part>(self, alloc: Global, key: &str) -> Result<T, Fault>
        ensures gives { Gives (λ x. x) result (last_at T.at key.now (members_view self.entry.rest)) }
        ensures ok { IfOk result (λ x. (members_view self.entry.rest ≡ member key.now (T.shown x) no_members) × T.fits x) }
    {
        let value = self.last_value(key)?;
        T::read(alloc, value)
    }

    /// The flag that the last member is, which has to have that key, and to be false in version 1.
    #[tactic(auto, unfolding(crate::specs::Reading::last_at))]
    pub(crate) fn last_flag(self, key: &str, version: TraceVersion) -> Result<bool, Fault>
        ensures gives { Gives (λ flag. flag) result (last_at (flag_at version) key.now (members_view self.entry.rest)) }
        ensures ok { IfOk result (λ flag. (members_view self.entry.rest ≡ member key.now (boolean flag) no_members) × FitsFlag version flag) }
    {
        let value = self.last_value(key)?;
        flag_of(value, version)
    }

    /// No member is left; `WrongShape` if one is.
    pub fn end(mut self) -> Result<(), Fault>
        ensures gives { Gives (λ u. u) result (end_at (members_view self.entry.rest)) }
        ensures ok { OnOk result (members_view self.entry.rest ≡ no_members) }
    {
        match self.rest.next() {
            Some(_) => Err(Fault::WrongShape),
            None => Ok(()),
        }
    }
}

/// The parts that the two members of an object are, which have to have these keys.
#[tactic(auto, unfolding(crate::specs::Reading::both_at))]
pub(crate) fn both<A: Part + Drop, B: Part>(
    alloc: Global,
    value: &Value,
    first: &str,
    second: &str,
) -> Result<(A, B), Fault>
    ensures gives { Gives (λ x. x) result (both_at A.at B.at first.now second.now (view value.now)) }
    ensures ok { IfOk result (λ x. (view value.now ≡ object (member first.now (A.shown x.0) (member second.now (B.shown x.1) no_members))) × A.fits x.0 × B.fits x.1) }
{
    let fields = Fields::of(value)?;
    fields.last_two(alloc, first, second)
}

/// The only member of an object.
#[tactic(auto, unfolding(crate::specs::Reading::only_at))]
pub(crate) fn only_member(value: &Value) -> Result<(&str, &Value), Fault>
    ensures gives { Gives (λ m. (m.0.now, view m.1.now)) result (only_at (view value.now)) }
    ensures ok { IfOk result (λ m. view value.now ≡ only m.0.now (view m.1.now)) }
{
    let mut fields = Fields::of(value)?;
    match fields.rest.next() {
        Some((key, value)) => {
            fields.end()?;
            Ok((key.as_str(), value))
        }
        None => Err(Fault::WrongShape),
    }
}

/// The text that a value is.
pub(crate) fn text_of(value: &Value) -> Result<&str, Fault>
    ensures gives { Gives (λ s. s.now) result (text_at (view value.now)) }
    ensures ok { IfOk result (λ s. view value.now ≡ string s.now) }
{
    value.as_str().ok_or(Fault::WrongShape)
}

/// The flag of a Return or a Finish, which has to be false in version 1.
fn flag_of(value: &Value, version: TraceVersion) -> Result<bool, Fault>
    ensures gives { Gives (λ flag. flag) result (flag_at version (view value.now)) }
    ensures ok { IfOk result (λ flag. (view value.now ≡ boolean flag) × FitsFlag version flag) }
{
    match (value, version) {
        (Value::Bool(false), _) => Ok(false),
        (Value::Bool(true), TraceVersion::Two) => Ok(true),
        _ => Err(Fault::WrongShape),
    }
}

impl Part for u64 {
    ghost at = { u64_at };

    ghost shown = { nat };

    ghost fits = { FitsAny };

    fn read(_alloc: Global, value: &Value) -> Result<u64, Fault> {
        value.as_u64().ok_or(Fault::WrongShape)
    }
}

impl Part for u32 {
    ghost at = { nat_at (2 ^ 32) };

    ghost shown = { nat };

    ghost fits = { FitsU32 };

    fn read(_alloc: Global, value: &Value) -> Result<u32, Fault> {
        match value.as_u64() {
            Some(n) if n < 0x1_0000_0000 => Ok(n as u32),
            _ => Err(Fault::WrongShape),
        }
    }
}

impl Part for u16 {
    ghost at = { nat_at (2 ^ 16) };

    ghost shown = { nat };

    ghost fits = { FitsU16 };

    fn read(_alloc: Global, value: &Value) -> Result<u16, Fault> {
        match value.as_u64() {
            Some(n) if n < 0x1_0000 => Ok(n as u16),
            _ => Err(Fault::WrongShape),
        }
    }
}

impl Part for Text {
    ghost at = { text_at };

    ghost shown = { string };

    ghost fits = { FitsAny };

    fn read(alloc: Global, value: &Value) -> Result<Text, Fault> {
        let text = text_of(value)?;
        Ok(Text::from_string(String::from_str(alloc, text)?))
    }
}

impl<T: Part + Drop> Part for Items<T> {
    ghost at = { list_at T.at };

    ghost shown = { list T.shown };

    ghost fits = { FitsAll T.fits };

    fn read(alloc: Global, value: &Value) -> Result<Items<T>, Fault> {
        Ok(Items::from_vec(read_items(alloc, value)?))
    }
}

/// The items of a list, each of which has to be such a part.
pub(crate) fn read_items<T: Part + Drop>(alloc: Global, value: &Value) -> Result<Vec<T>, Fault>
    ensures gives { Gives (λ v. v.items) result (list_at T.at (view value.now)) }
    ensures ok { IfOk result (λ v. (view value.now ≡ list T.shown v.items) × FitsAll T.fits v.items) }
{
    let Some(values) = value.as_array() else {
        return Err(Fault::WrongShape);
    };
    let mut items = Vec::new(alloc);
    for value in values {
        items.push(T::read(alloc, value)?)?;
    }
    Ok(items)
}
