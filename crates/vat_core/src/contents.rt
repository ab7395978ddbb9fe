ghost use Rattle.std.specs.Prelude.{◌≡◌, option_to_list, IfOk};
ghost use Rattle.vat_core.specs.Contents.{payload_of};

use crate::vat::Core;
use rpc_msg::{Items, Memory, Payload, RefId};

impl Core {
    /// What a call or an answer carries that gives nothing, or one capability: null, or the pointer to that, and the
    /// references that go with it. In memory of their own; `Memory` if a growth was refused.
    pub fn contents(&self, given: Option<RefId>) -> Result<(Payload, Items<RefId>), Memory>
        ensures payload { IfOk result (λ contents. contents.0 ≡ payload_of given) }
        ensures refs { IfOk result (λ contents. contents.1 ≡ option_to_list given) }
    {
        let alloc = self.machine.alloc;
        let Some(reference) = given else {
            let payload = Payload::null(alloc)?;
            return Ok((payload, Items::new(alloc)));
        };
        let payload = Payload::root_capability(alloc)?;
        let Ok(refs) = Items::one(alloc, reference) else {
            return Err(Memory);
        };
        Ok((payload, refs))
    }
}
