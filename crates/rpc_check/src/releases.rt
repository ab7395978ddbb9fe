ghost use Rattle.std.specs.Prelude.{◌≡◌, ◌≤◌, ◌+◌, ◌*◌, ◌-◌, [], ℕ, List, Some, IfSome, OnOk, slice_get};
ghost use Rattle.rpc_check.specs.Kept.{amount, weight, sent_sum, got_sum, sum_by, more_sent, more_got, IsIn, AllIn, Lists, direct, IsReleased, released_in};
ghost use Rattle.std.specs.Option.{unwrap_or};
ghost use Rattle.rpc_check.specs.Counts.{CountsById, count_of};

use crate::amounts::Amounts;
use rpc_msg::{ExportId, Items, Memory};
use std::alloc::Global;
use std::collections::BTreeMap;

/// What a message releases of the exports of its receiver.
#[derive(Clone, Copy, Debug, PartialEq, Eq, Drop)]
pub(crate) enum Released {
    /// So many of one.
    Count(ExportId, u32),
    /// The list at that place, of what its receiver handed on.
    List(Option<usize>),
}

/// How often messages that release a list were sent and received, since it was counted.
#[derive(Clone, Copy, Debug, PartialEq, Eq, Drop)]
pub(crate) struct Flagged {
    pub(crate) list: usize,
    pub(crate) sent: u64,
    pub(crate) got: u64,
}

impl Flagged {
    // How much more often they were sent.
    fn more_sent(self) -> u64
        ensures { result ≡ more_sent self }
    {
        self.sent.saturating_sub(self.got)
    }

    // How much more often they were received.
    fn more_got(self) -> u64
        ensures { result ≡ more_got self }
    {
        self.got.saturating_sub(self.sent)
    }
}

/// What the messages on their way to a vat release of its exports. A list that is released is counted only when somebody
/// asks: until then it is known how often.
#[derive(Drop)]
pub(crate) struct Releases {
    pub(crate) counted: Amounts,
    pub(crate) flagged: Vec<Flagged>,
    pub(crate) places: BTreeMap<usize, usize>,
}

impl Releases {
    pub(crate) fn new(alloc: Global) -> Self
        ensures counted { (e : ℕ) → amount result.counted e ≡ 0 }
        ensures flagged { result.flagged.items ≡ [] }
    {
        Releases {
            counted: Amounts::new(alloc),
            flagged: Vec::new(alloc),
            places: BTreeMap::new(alloc),
        }
    }

    // Where that list is counted, and as what. The index may name another one, which is as good as none.
    fn found(&self, list: usize) -> Option<(usize, Flagged)>
        ensures { IfSome result (λ found. (slice_get self.now.flagged.items found.0 ≡ Some found.1) × (found.1.list ≡ list)) }
    {
        let place = *self.places.get(&list)?;
        let flagged = *self.flagged.get(place)?;
        if flagged.list == list {
            return Some((place, flagged));
        }
        None
    }

    // Counts a list so often more.
    fn flag(&mut self, list: usize, sent: u64, got: u64) -> Result<(), Memory>
        ensures sent { OnOk result ((ls : Lists) (e : ℕ) → sent_sum ls e self.new.flagged.items ≡ sent_sum ls e self.old.flagged.items + sent * weight ls e list) }
        ensures got { OnOk result ((ls : Lists) (e : ℕ) → got_sum ls e self.new.flagged.items ≡ got_sum ls e self.old.flagged.items + got * weight ls e list) }
        ensures in_all { OnOk result ((ls : Lists) → IsIn ls list → AllIn ls self.old.flagged.items → AllIn ls self.new.flagged.items) }
        ensures counted { self.new.counted ≡ self.old.counted }
    {
        let Some((place, before)) = self.found(list) else {
            self.places.insert(list, self.flagged.len())?;
            self.flagged.push(Flagged { list, sent, got })?;
            return Ok(());
        };
        let Some(sent) = before.sent.checked_add(sent) else {
            return Err(Memory);
        };
        let Some(got) = before.got.checked_add(got) else {
            return Err(Memory);
        };
        let Some(flagged) = self.flagged.get_mut(place) else {
            unreachable!()
        };
        *flagged = Flagged { list, sent, got };
        Ok(())
    }

    /// A message that releases that is sent. After a refusal nothing is known of the rest.
    pub(crate) fn send(&mut self, released: Released) -> Result<(), Memory>
        ensures { OnOk result ((ls : Lists) (named much : ℕ → ℕ) (counts : CountsById) → released_in ls released ≡ Some counts → IsReleased ls self.old named much → IsReleased ls self.new (λ e. named e + direct e released) (λ e. much e + count_of e counts)) }
    {
        match released {
            Released::Count(id, count) => {
                self.counted.add(id, u64::from(count))?;
                Ok(())
            }
            Released::List(place) => {
                let Some(list) = place else {
                    return Ok(());
                };
                self.flag(list, 1, 0)?;
                Ok(())
            }
        }
    }

    /// A message that releases that is received. After a refusal nothing is known of the rest.
    pub(crate) fn receive(&mut self, released: Released) -> Result<(), Memory>
        ensures { OnOk result ((ls : Lists) (named much : ℕ → ℕ) (counts : CountsById) → released_in ls released ≡ Some counts → IsReleased ls self.old (λ e. direct e released + named e) (λ e. count_of e counts + much e) → IsReleased ls self.new named much) }
    {
        match released {
            Released::Count(id, count) => {
                self.counted.take(id, u64::from(count));
                Ok(())
            }
            Released::List(place) => {
                let Some(list) = place else {
                    return Ok(());
                };
                self.flag(list, 0, 1)?;
                Ok(())
            }
        }
    }

    /// Counts the lists that were released. After a refusal nothing is known of the rest.
    pub(crate) fn count(&mut self, lists: &[Items<(ExportId, u32)>]) -> Result<(), Memory>
        ensures same { OnOk result ((named much : ℕ → ℕ) → ((e : ℕ) → named e ≤ much e) → IsReleased lists.now self.old named much → IsReleased lists.now self.new named much) }
        ensures counted { OnOk result (self.new.flagged.items ≡ []) }
    {
        add_sent(&mut self.counted, lists, self.flagged.as_slice())?;
        take_got(&mut self.counted, lists, self.flagged.as_slice())?;
        self.flagged.clear();
        self.places.clear();
        Ok(())
    }
}

// Adds the lists that were sent more often than received. A list of which as many were received takes no work.
fn add_sent(
    counted: &mut Amounts,
    lists: &[Items<(ExportId, u32)>],
    flagged: &[Flagged],
) -> Result<(), Memory>
    ensures { OnOk result ((e : ℕ) → amount counted.new e ≡ amount counted.old e + sum_by more_sent lists.now e flagged.now) }
{
    for one in flagged {
        counted.add_times(list_of(lists, one.list), one.more_sent())?;
    }
    Ok(())
}

// Takes the lists away that were received more often than sent.
fn take_got(
    counted: &mut Amounts,
    lists: &[Items<(ExportId, u32)>],
    flagged: &[Flagged],
) -> Result<(), Memory>
    ensures { OnOk result ((e : ℕ) → amount counted.new e ≡ amount counted.old e - sum_by more_got lists.now e flagged.now) }
{
    for one in flagged {
        counted.take_times(list_of(lists, one.list), one.more_got())?;
    }
    Ok(())
}

fn list_of(lists: &[Items<(ExportId, u32)>], place: usize) -> &[(ExportId, u32)]
    ensures { result.now ≡ unwrap_or (slice_get lists.now place) [] }
{
    match lists.get(place) {
        Some(list) => list.as_slice(),
        None => &[],
    }
}
