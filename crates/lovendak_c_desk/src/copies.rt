// What is handed out is copied.
ghost use Rattle.std.specs.Prelude.{◌≡◌, ◌≤◌, length};
ghost use Rattle.lovendak_c_desk.specs.Copies.{CopiesOut, over};
ghost use Rattle.lovendak_c_desk.specs.Notices.{numbers};

use crate::not_done::NotDone;
use rpc_msg::RefId;

/// Copies bytes to the front of `out`, if there is room for them, and says how many they are.
pub(crate) fn copy_out(bytes: &[u8], out: &mut [u8], len: &mut usize) -> Result<(), NotDone>
    ensures { CopiesOut bytes.now out.old result out.new len.new }
{
    *len = bytes.len();
    if out.len() < bytes.len() {
        return Err(NotDone::NoRoom);
    }
    copy_bytes(bytes, out);
    Ok(())
}

/// Copies bytes to the front of `out`.
pub(crate) fn copy_bytes(bytes: &[u8], out: &mut [u8])
    requires { length bytes.now ≤ length out.old }
    ensures { out.new ≡ over bytes.now out.old }
{
    out[..bytes.len()].copy_from_slice(bytes);
}

/// Copies the numbers of references to the front of `out`.
pub(crate) fn copy_refs(refs: &[RefId], out: &mut [u64])
    requires { length refs.now ≤ length out.old }
    ensures { out.new ≡ over (numbers refs.now) out.old }
{
    for (i, reference) in refs.iter().enumerate() {
        out[i] = reference.0;
    }
}
