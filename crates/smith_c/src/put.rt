//! Bytes that are written to memory of the caller's.

ghost use Rattle.std.specs.Prelude.{◌≡◌, ◌≢◌, ◌<◌, ◌≤◌, ◌⊎◌, length, take, drop};
ghost use Rattle.smith_c.specs.Makes.{code_of};
ghost use Rattle.smith_c.specs.declared.status.Status.TheVariants.{Answered, NoRoom};

use crate::status::Status;

/// Writes the bytes to the front of the output, if it has room, and how many there are. Returns the code of `Answered`,
/// or of `NoRoom` if it has none.
pub(crate) fn put(bytes: &[u8], output: &mut [u8], len: &mut usize) -> i32
    ensures either { (result ≡ code_of Answered) ⊎ (result ≡ code_of NoRoom) }
    ensures len { len.new ≡ length bytes.now }
    ensures answered { result ≡ code_of Answered → (len.new ≤ length output.old)
        × (take len.new output.new ≡ bytes.now) × (drop len.new output.new ≡ drop len.new output.old) }
    ensures no_room { result ≡ code_of NoRoom → length output.old < len.new }
    ensures kept { result ≢ code_of Answered → output.new ≡ output.old }
{
    let count = bytes.len();
    *len = count;
    if output.len() < count {
        return Status::NoRoom.code();
    }
    output[..count].copy_from_slice(bytes);
    Status::Answered.code()
}
