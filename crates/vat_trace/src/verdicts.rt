ghost use Rattle.std.specs.Prelude.{◌≡◌};
ghost use Rattle.vat_trace.specs.Judged.{line_at_fault, lower_of, lacks_memory, judged};

use link_workers::WorkerEnd;
use script_language::NameFault;
use vat_trace_lib::ScriptFault;

/// The fault of a script whose lines were worked by two workers, by how the work of each ended: `Memory` if one of them lacked
/// it, or else `Unnamed` with the lower of the lines at fault.
pub(crate) fn judge(a: WorkerEnd, b: WorkerEnd) -> Result<(), ScriptFault>
    ensures { result ≡ judged a b }
{
    if lacks_memory(a) {
        return Err(ScriptFault::Memory);
    }
    if lacks_memory(b) {
        return Err(ScriptFault::Memory);
    }
    match lower_of(line_at_fault(a), line_at_fault(b)) {
        Some((number, fault)) => Err(ScriptFault::Unnamed(number, fault)),
        None => Ok(()),
    }
}

fn lacks_memory(why: WorkerEnd) -> bool
    ensures { result ≡ lacks_memory why }
{
    match why {
        WorkerEnd::Done => false,
        WorkerEnd::Down(_) => false,
        WorkerEnd::GateNo => false,
        WorkerEnd::ScriptFault(_, _) => false,
        WorkerEnd::Limit => false,
        WorkerEnd::Stopped => false,
        WorkerEnd::Memory => true,
    }
}

/// The number of the line at fault, and what it names.
fn line_at_fault(why: WorkerEnd) -> Option<(usize, NameFault)>
    ensures { result ≡ line_at_fault why }
{
    match why {
        WorkerEnd::Done => None,
        WorkerEnd::Down(_) => None,
        WorkerEnd::GateNo => None,
        WorkerEnd::ScriptFault(number, fault) => Some((number, fault)),
        WorkerEnd::Limit => None,
        WorkerEnd::Stopped => None,
        WorkerEnd::Memory => None,
    }
}

/// The one with the lower number.
fn lower_of(
    a: Option<(usize, NameFault)>,
    b: Option<(usize, NameFault)>,
) -> Option<(usize, NameFault)>
    ensures { result ≡ lower_of a b }
{
    let Some(x) = a else {
        return b;
    };
    let Some(y) = b else {
        return Some(x);
    };
    if y.0 < x.0 {
        return Some(y);
    }
    Some(x)
}
