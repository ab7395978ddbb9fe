ghost use Rattle.std.specs.Prelude.{◌≡◌};
ghost use Rattle.std.specs.FinMap as map;
ghost use Rattle.core_queries.specs.Places.{leads_to};
ghost use Rattle.core_queries.specs.Sizes.{sizes_of};
ghost use Rattle.lovendak_c_desk.specs.Leading.{lead_or};
ghost use Rattle.vat_core.specs.Counting.{made_of};
ghost use Rattle.rpc_machine.specs.Queries.{has_no_tables};
ghost use Rattle.rpc_machine.specs.declared.command.Refusal.TheVariants as refusal;
ghost use Rattle.vat_connection.specs.Connecting.{down};
ghost use Rattle.lovendak_c_desk.specs.declared.not_done.NotDone.TheVariants as not_done;
ghost use Rattle.lovendak_c_desk.specs.Given.{known_or};
ghost use Rattle.lovendak_c.specs.Calls.{GivesOn, HandsOn};
ghost use Rattle.lovendak_c.specs.Codes.{bit};

use crate::codes::{DONE, EMPTY, bit, done_with};
use crate::handle::Handle;
use lovendak_c_desk::Lead;
use std::alloc::Global;

/// Says with which number the vat went down. 104 while it is up.
#[unsafe(no_mangle)]
pub extern "C" fn lovendak_down(alloc: Global, vat: &mut Handle, number: &mut u32) -> u32
    ensures { GivesOn vat.old.raw.desk vat.new.raw.desk result number.old number.new (λ old answer new. (answer ≡ known_or not_done.Nothing (down old.connection)) × (new ≡ old)) }
{
    let Some(desk) = vat.take(alloc) else {
        return EMPTY;
    };
    let down = desk.down();
    *vat = Handle::of(desk);
    done_with(down, number)
}

/// Says whether nothing is left between the vat and its peer (1 or 0).
#[unsafe(no_mangle)]
pub extern "C" fn lovendak_shares_nothing(alloc: Global, vat: &mut Handle, answer: &mut u32) -> u32
    ensures { HandsOn vat.old.raw.desk vat.new.raw.desk result (answer.new ≡ answer.old) (λ old new. (answer.new ≡ bit (has_no_tables old.connection.speaker.host.core)) × (new ≡ old)) }
{
    let Some(desk) = vat.take(alloc) else {
        return EMPTY;
    };
    *answer = bit(desk.shares_nothing());
    *vat = Handle::of(desk);
    DONE
}

/// Says how many calls were made through a reference. 4 if it is not there.
#[unsafe(no_mangle)]
pub extern "C" fn lovendak_calls_made(
    alloc: Global,
    vat: &mut Handle,
    reference: u64,
    made: &mut u64,
) -> u32
    ensures { GivesOn vat.old.raw.desk vat.new.raw.desk result made.old made.new (λ old answer new. (answer ≡ known_or (not_done.Refused refusal.UnknownRef) (made_of (map.get old.connection.speaker.host.core.refs reference))) × (new ≡ old)) }
{
    let Some(desk) = vat.take(alloc) else {
        return EMPTY;
    };
    let answer = desk.calls_made(reference);
    *vat = Handle::of(desk);
    done_with(answer, made)
}

/// Says where calls through a reference go, and whether they wait under an embargo before. 3 if the vat is down, 4 if there is no such
/// reference.
#[unsafe(no_mangle)]
pub extern "C" fn lovendak_leads_to(
    alloc: Global,
    vat: &mut Handle,
    reference: u64,
    lead: &mut Lead,
) -> u32
    ensures { GivesOn vat.old.raw.desk vat.new.raw.desk result lead.old lead.new (λ old answer new. (answer ≡ lead_or (leads_to old.connection.speaker.host.core (record { 0 = reference }))) × (new ≡ old)) }
{
    let Some(desk) = vat.take(alloc) else {
        return EMPTY;
    };
    let answer = desk.leads_to(reference);
    *vat = Handle::of(desk);
    done_with(answer, lead)
}

/// Says how many questions, answers, exports and imports there are between the vat and its peer.
#[unsafe(no_mangle)]
pub extern "C" fn lovendak_table_sizes(
    alloc: Global,
    vat: &mut Handle,
    questions: &mut usize,
    answers: &mut usize,
    exports: &mut usize,
    imports: &mut usize,
) -> u32
    ensures { HandsOn vat.old.raw.desk vat.new.raw.desk result ((questions.new ≡ questions.old) × (answers.new ≡ answers.old) × (exports.new ≡ exports.old) × (imports.new ≡ imports.old)) (λ old new. (sizes_of old.connection.speaker.host.core ≡ record { questions = questions.new; answers = answers.new; exports = exports.new; imports = imports.new }) × (new ≡ old)) }
{
    let Some(desk) = vat.take(alloc) else {
        return EMPTY;
    };
    let sizes = desk.table_sizes();
    *vat = Handle::of(desk);
    *questions = sizes.questions;
    *answers = sizes.answers;
    *exports = sizes.exports;
    *imports = sizes.imports;
    DONE
}
