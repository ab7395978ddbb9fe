// What is handed out is copied.
ghost use Rattle.lovendak_c_trees.specs.Copies.{CopiesOut};

use crate::fault::TreeFault;

/// Copies bytes to the front of `out`, where there is room for them, and says how many they are.
pub(crate) fn copy_out(bytes: &[u8], out: &mut [u8], len: &mut usize) -> Result<(), TreeFault>
    ensures { CopiesOut bytes.now out.old result out.new len.new }
{
    *len = bytes.len();
    if out.len() < bytes.len() {
        return Err(TreeFault::NoRoom);
    }
    out[..bytes.len()].copy_from_slice(bytes);
    Ok(())
}
