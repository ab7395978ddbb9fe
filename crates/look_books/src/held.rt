//! Exports are given, and given back.
ghost use Rattle.std.specs.Prelude.{◌≡◌, OnOk, cond};
ghost use Rattle.look_books.specs.Ends.{kept_of};
ghost use Rattle.look_books.specs.Checks.{given_by};
ghost use Rattle.look_books.specs.After.{doing, given_export, with_export, owe, give_export, give, give_one, give_from, lose, give_back, give_back_all, give_back_if, resolved_by, note_resolve};

use crate::end::End;
use crate::export::{Export, Given, Origin};
use rpc_msg::{Descriptor, ExportId, Memory};

/// As what an export is kept that is given, and was kept so before.
fn given_export(promise: bool, given: Given, before: Option<Export>) -> Export
    ensures { result ≡ given_export promise given before }
{
    match before {
        None => Export {
            promise,
            count: 1,
            given,
            times: 0,
            last: given.number,
            resolved: None,
        },
        Some(held) => Export {
            promise: held.promise,
            count: held.count.saturating_add(1),
            given: held.given,
            times: held.times.saturating_add(1),
            last: given.number,
            resolved: held.resolved,
        },
    }
}

impl End {
    ghost use Rattle.std.specs.Prelude.{◌≡◌, OnOk};
    ghost use Rattle.look_books.specs.Ends.{kept_of};
    ghost use Rattle.look_books.specs.After.{doing, with_export, owe, give_export, give, give_one, give_from, lose, give_back, give_back_all, give_back_if, note_resolve};

    /// An export is kept so.
    fn put_export(&mut self, export: ExportId, held: Export) -> Result<(), Memory>
        ensures { OnOk result (kept_of self.new ≡ doing (with_export export (Some held)) (kept_of self.old)) }
    {
        self.exports.insert(export.0, held)?;
        Ok(())
    }

    /// None of an export is left.
    fn lose_export(&mut self, export: ExportId, number: u64) -> Result<(), Memory>
        ensures { OnOk result (kept_of self.new ≡ doing (lose export number) (kept_of self.old)) }
    {
        self.exports.remove(&export.0);
        self.gone.insert(export.0, number)?;
        Ok(())
    }

    /// A Resolve of what is given as a promise may come.
    fn owe(&mut self, promise: bool, export: ExportId) -> Result<(), Memory>
        ensures { OnOk result (kept_of self.new ≡ doing (owe promise export) (kept_of self.old)) }
    {
        if !promise {
            return Ok(());
        }
        self.owed.insert(export.0)?;
        Ok(())
    }

    fn count_export(&mut self, export: ExportId, promise: bool, given: Given) -> Result<(), Memory>
        ensures { OnOk result (kept_of self.new ≡ doing (give_export promise export given) (kept_of self.old)) }
    {
        let before = self.exports.get(&export.0).copied();
        self.held = self.held.saturating_add(1);
        self.put_export(export, given_export(promise, given, before))
    }

    /// An export is given, as a promise or not.
    fn give(&mut self, export: ExportId, promise: bool, given: Given) -> Result<(), Memory>
        ensures { OnOk result (kept_of self.new ≡ doing (give promise export given) (kept_of self.old)) }
    {
        self.owe(promise, export)?;
        self.count_export(export, promise, given)?;
        Ok(())
    }

    pub(crate) fn give_one(&mut self, descriptor: &Descriptor, given: Given) -> Result<(), Memory>
        ensures { OnOk result (kept_of self.new ≡ doing (give_one descriptor.now given) (kept_of self.old)) }
    {
        match descriptor {
            Descriptor::SenderHosted(export) => self.give(*export, false, given),
            Descriptor::SenderPromise(export) => self.give(*export, true, given),
            _ => Ok(()),
        }
    }

    /// What the descriptors of a content give in that message.
    pub(crate) fn give_all(
        &mut self,
        descriptors: &[Descriptor],
        number: u64,
        origin: Origin,
    ) -> Result<(), Memory>
        ensures { OnOk result (kept_of self.new ≡ doing (give_from number origin 0 descriptors.now) (kept_of self.old)) }
    {
        for (index, descriptor) in descriptors.iter().enumerate() {
            let given = Given {
                number,
                index: index as u64,
                origin,
            };
            self.give_one(descriptor, given)?;
        }
        Ok(())
    }

    /// So many of an export are given back.
    pub(crate) fn give_back(
        &mut self,
        export: ExportId,
        count: u64,
        number: u64,
    ) -> Result<(), Memory>
        ensures { OnOk result (kept_of self.new ≡ doing (give_back export count number) (kept_of self.old)) }
    {
        let Some(held) = self.exports.get(&export.0).copied() else {
            return Ok(());
        };
        if count < held.count {
            self.held = self.held.saturating_sub(count);
            let mut less = held;
            less.count = held.count - count;
            return self.put_export(export, less);
        }
        self.held = self.held.saturating_sub(held.count);
        self.lose_export(export, number)
    }

    /// Exports are given back one by one, each once.
    pub(crate) fn give_back_all(&mut self, exports: &[ExportId], number: u64) -> Result<(), Memory>
        ensures { OnOk result (kept_of self.new ≡ doing (give_back_all number exports.now) (kept_of self.old)) }
    {
        for export in exports {
            self.give_back(*export, 1, number)?;
        }
        Ok(())
    }

    /// The same, if a flag says so.
    pub(crate) fn give_back_if(
        &mut self,
        flag: bool,
        exports: &[ExportId],
        number: u64,
    ) -> Result<(), Memory>
        ensures { OnOk result (kept_of self.new ≡ doing (give_back_if flag number exports.now) (kept_of self.old)) }
    {
        if !flag {
            return Ok(());
        }
        self.give_back_all(exports, number)
    }

    /// A promise was resolved, and no further Resolve may come.
    pub(crate) fn note_resolve(&mut self, promise: ExportId, number: u64) -> Result<(), Memory>
        ensures { OnOk result (kept_of self.new ≡ doing (note_resolve promise number) (kept_of self.old)) }
    {
        self.owed.remove(&promise.0);
        let Some(mut export) = self.exports.get(&promise.0).copied() else {
            return Ok(());
        };
        export.resolved = Some(number);
        self.put_export(promise, export)
    }
}
