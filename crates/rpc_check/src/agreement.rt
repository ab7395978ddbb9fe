ghost use Rattle.std.specs.Prelude.{◌≡◌, ◌≢◌, ◌+◌, ◌++◌, ◌==◌, ◌↔◌, ℕ, IfOk, IsTrue, true};
ghost use Rattle.rpc_check.specs.Counts.{CountsById, count_of, same_counts};
ghost use Rattle.rpc_check.specs.Kept.{amount, AllAgree, is_even};

use crate::amounts::Amounts;
use rpc_msg::{ExportId, Memory};
use std::alloc::Global;

/// Whether the exports' counts are the imports' with what is on the way, for every id.
pub(crate) fn agree(
    alloc: Global,
    exports: &[(ExportId, u32)],
    imports: &[(ExportId, u32)],
    handed_on: &Amounts,
    released: &Amounts,
) -> Result<bool, Memory>
    ensures { IfOk result (λ same. (way : CountsById) → ((e : ℕ) → amount handed_on.now e + amount released.now e ≡ count_of e way) → same ≡ same_counts exports.now (imports.now ++ way)) }
{
    let exported = Amounts::of_all(alloc, exports)?;
    let imported = Amounts::of_all(alloc, imports)?;
    Ok(all_agree(&exported, &imported, handed_on, released))
}

fn all_agree(
    exported: &Amounts,
    imported: &Amounts,
    handed_on: &Amounts,
    released: &Amounts,
) -> bool
    ensures yes { IsTrue result → AllAgree exported.now imported.now handed_on.now released.now }
    ensures no { AllAgree exported.now imported.now handed_on.now released.now → IsTrue result }
{
    keys_agree(exported, exported, imported, handed_on, released)
        && keys_agree(imported, exported, imported, handed_on, released)
        && keys_agree(handed_on, exported, imported, handed_on, released)
        && keys_agree(released, exported, imported, handed_on, released)
}

/// The same of the ids that `these` has.
fn keys_agree(
    these: &Amounts,
    exported: &Amounts,
    imported: &Amounts,
    handed_on: &Amounts,
    released: &Amounts,
) -> bool
    ensures yes { IsTrue result → (e : ℕ) → amount these.now e ≢ 0 → IsTrue (is_even exported.now imported.now handed_on.now released.now e) }
    ensures no { AllAgree exported.now imported.now handed_on.now released.now → IsTrue result }
{
    for id in these.by_id.keys() {
        if !is_even(*id, exported, imported, handed_on, released) {
            return false;
        }
    }
    true
}

fn is_even(
    id: u32,
    exported: &Amounts,
    imported: &Amounts,
    handed_on: &Amounts,
    released: &Amounts,
) -> bool
    ensures { result ≡ is_even exported.now imported.now handed_on.now released.now id }
{
    let id = ExportId(id);
    let coming = u128::from(handed_on.of(id)) + u128::from(released.of(id));
    u128::from(exported.of(id)) == u128::from(imported.of(id)) + coming
}
