//! What a check of an image tells.

ghost use Rattle.std.specs.Prelude.{IfOk};
ghost use Rattle.lfs_checking.specs.Volumes.{IsVerdict};

use crate::fault::VolumeFault;
use crate::volume::check_volume;
use std::alloc::{AllocError, Global};

/// What a check of an image came to.
#[derive(Drop)]
pub struct Finding {
    /// The status with which the program ends: 0 where the image is that of a volume, else 1.
    pub status: u8,
    /// What is told.
    pub text: Vec<u8>,
}

/// The verdict on some bytes: that they are the image of a volume, and how full it is; or what is wrong with them, in a
/// line.
pub fn verdict(alloc: Global, bytes: &[u8]) -> Result<Finding, AllocError>
    ensures { IfOk result (λ verdict. IsVerdict bytes.now verdict.status verdict.text.items) }
{
    match check_volume(alloc, bytes) {
        Ok(text) => Ok(Finding { status: 0, text }),
        Err(VolumeFault::Memory) => Err(AllocError),
        Err(fault) => Ok(Finding {
            status: 1,
            text: fault_text(alloc, fault)?,
        }),
    }
}

/// The line of a fault.
fn fault_text(alloc: Global, fault: VolumeFault) -> Result<Vec<u8>, AllocError> {
    let text = format!(in alloc; "fault: {fault}\n")?;
    Ok(text.into_bytes())
}
