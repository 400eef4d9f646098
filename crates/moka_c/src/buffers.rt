//! Copies to the buffers of a caller.
ghost use Rattle.std.specs.Prelude.{◌≡◌, length};
ghost use Rattle.moka_c.specs.Buffers.{copy_number, copied_to};

use crate::code;

/// Copies bytes to the front of a buffer. Changes nothing of a buffer that is too short. Stores how
/// many bytes they are.
pub(crate) fn copy_to(bytes: &[u8], out: &mut [u8], len: &mut usize) -> u32
    ensures number { result ≡ copy_number bytes.now out.old }
    ensures copied { out.new ≡ copied_to bytes.now out.old }
    ensures counted { len.new ≡ length bytes.now }
{
    *len = bytes.len();
    if out.len() < bytes.len() {
        return code::SHORT_BUFFER;
    }
    out[..bytes.len()].copy_from_slice(bytes);
    code::DONE
}
