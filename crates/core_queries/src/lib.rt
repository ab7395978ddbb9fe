//! What a core can be asked of what it holds, without a step: which objects are named, where references lead, whose results
//! are wanted, how much there is.
//!
//! - `objects.rt`: objects of the application that are named. `peers.rt`: imports and questions that are named.
//! - `places.rt`: where a reference leads (`Place`), what an import is, whose calls wait under an embargo.
//! - `results.rt`: whether a task's results are wanted, and who made the call that it is. `table_sizes.rt`: how many entries the four tables have.
//!
//! Each function looks at a `Store`, says so in the words of the machine's state that it holds, and takes no memory. `vat_core`
//! has a call of the same name for each.
#![tactic(auto)]

mod objects;
mod peers;
mod places;
mod results;
mod table_sizes;

pub use objects::{named_objects, names_object, take_lost_object};
pub use peers::{names_import, names_question};
pub use places::{ImportKind, Place, embargoed_reference, import_kind, leads_to};
pub use results::{is_cancelled, task_caller, wants_results};
pub use table_sizes::{TableSizes, sizes_of};
