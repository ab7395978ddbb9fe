//! Objects that no place of a vat names: no call is delivered to them, until they are hosted. No code runs here: what each
//! function ensures is the law.
#![tactic(auto)]

mod laws;

pub use laws::{deliveries_are_named, names_come_by_host, objects_stay_known, released_stays};
