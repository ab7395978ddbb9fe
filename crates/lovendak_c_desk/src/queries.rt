ghost use Rattle.std.specs.Prelude.{◌≡◌};
ghost use Rattle.lovendak_c_desk.specs.Given.{known_or};
ghost use Rattle.std.specs.FinMap as map;
ghost use Rattle.core_queries.specs.Sizes.{sizes_of};
ghost use Rattle.vat_core.specs.Counting.{made_of};
ghost use Rattle.rpc_machine.specs.Queries.{has_no_tables};
ghost use Rattle.rpc_machine.specs.declared.command.Refusal.TheVariants as refusal;
ghost use Rattle.vat_connection.specs.Connecting.{down};
ghost use Rattle.lovendak_c_desk.specs.declared.not_done.NotDone.TheVariants as not_done;

use crate::desk::Desk;
use crate::not_done::NotDone;
use rpc_msg::RefId;
use vat_connection::{Refusal, TableSizes};

impl Desk {
    /// The number with which the vat went down; `Nothing` while it is up.
    pub fn down(&self) -> Result<u32, NotDone>
        ensures { result ≡ known_or not_done.Nothing (down self.now.connection) }
    {
        match self.connection.core().down() {
            Some(number) => Ok(u32::from(number)),
            None => Err(NotDone::Nothing),
        }
    }

    /// How many questions, answers, exports and imports there are.
    pub fn table_sizes(&self) -> TableSizes
        ensures { result ≡ sizes_of self.now.connection.speaker.host.core }
    {
        self.connection.core().table_sizes()
    }

    /// Whether nothing is left between the vat and its peer.
    pub fn shares_nothing(&self) -> bool
        ensures { result ≡ has_no_tables self.now.connection.speaker.host.core }
    {
        self.connection.core().shares_nothing()
    }

    /// How many calls were made through a reference. `UnknownRef` if it is not there.
    pub fn calls_made(&self, reference: u64) -> Result<u64, NotDone>
        ensures { result ≡ known_or (not_done.Refused refusal.UnknownRef) (made_of (map.get self.now.connection.speaker.host.core.refs reference)) }
    {
        match self.connection.core().calls_made(RefId(reference)) {
            Some(made) => Ok(made),
            None => Err(NotDone::Refused(Refusal::UnknownRef)),
        }
    }
}
