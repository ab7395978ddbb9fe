//! All that stands between the envelopes of a peer of another make and a vat of the profile (docs/messages.md, "Peers
//! of other make"). Calls past the vat's table of answers are refused (`peer_overload`), and each export is named in
//! one kind (`peer_kinds`). What names a broken promise again names nothing (`peer_broken`), and tail calls become
//! calls (`peer_tail_calls`), in this order on the way in. On the way out a Finish may wait for its Return
//! (`peer_finishes`).
//!
//! - `peer.rt`: [`PeerAdapter`], its calls. `told.rt`: what they give. `errors.rt`: what they refuse. `role.rt`: the part that a message
//!   of the vat has in one of its questions.
//! - `laws.rt`: that it stands aside and counts once, as contracts of functions that do nothing.
//!
//! `specs/Peering.antt` says what each envelope and each message comes to.
#![tactic(auto)]

mod errors;
mod laws;
mod peer;
mod role;
mod told;

pub use errors::{PeerError, PeerFault};
pub use laws::{counts_once, stands_aside};
pub use peer::PeerAdapter;
pub use peer_finishes::Finishes;
pub use peer_kinds::Standing;
pub use peer_tail_calls::{Heard, Said};
pub use told::{Aside, Inbound, Outbound, Told};
