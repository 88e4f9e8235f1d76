//! Reading an image's bytes.

ghost use Rattle.std.specs.Prelude.{◌≡◌, ◌≤◌, ◌<◌, length, IfErr, IfOk, IfSome, vec_len};
ghost use Rattle.lfs_checking.specs.declared.fault.CheckFault.TheVariants.{TooLong};

use crate::fault::CheckFault;
use std::alloc::Global;
use std::io::Read;

/// The most bytes of an image: that of 1,024 segments and 4,096 inode numbers.
pub const IMAGE_MAX: usize = 33_612_300;

/// A reader is asked for so many bytes at once.
const READ_BYTES: usize = 32_768;

/// The bytes that a reader has left, at most 33,612,300.
///
/// An error of the reader ends it. A reader that never ends is given up after at most 33,612,301 reads.
pub fn read_image<R: Read>(alloc: Global, reader: &mut R) -> Result<Vec<u8>, CheckFault>
    ensures bounded { IfOk result (λ image. vec_len image ≤ 33612300) }
    ensures whole { IfSome (R.remaining reader.old)
        (λ bytes. IfOk result (λ image. image.items ≡ bytes)) }
    ensures fault { IfErr result (λ fault. fault ≡ TooLong
        → IfSome (R.remaining reader.old) (λ bytes. 33612300 < length bytes)) }
{
    let mut image = Vec::new(alloc);
    let mut buffer = [0; READ_BYTES];
    loop {
        let Ok(count) = reader.read(&mut buffer) else {
            return Err(CheckFault::Read);
        };
        if count == 0 {
            return Ok(image);
        }
        if count > IMAGE_MAX - image.len() {
            return Err(CheckFault::TooLong);
        }
        if image.extend_from_slice(&buffer[..count]).is_err() {
            return Err(CheckFault::Memory);
        }
    }
}
