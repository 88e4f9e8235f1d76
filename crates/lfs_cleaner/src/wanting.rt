//! When a pass is wanted, and as whom the cleaner calls.

ghost use Rattle.std.specs.Prelude.{◌≡◌, ◌↔◌, ◌<◌, ◌≤◌, ◌⊎◌, [], ◌∷◌, false, IsTrue};

use lfs_types::answer::{Answer, Resource};
use lfs_types::cred::Cred;

/// So few clean segments call for the cleaner.
const FEW_CLEAN: u32 = 3;

/// Whether a pass is wanted after a call with this answer, given the clean segments before it and after it: it was
/// refused for want of space, or it lowered the clean segments to three or fewer.
pub fn is_wanted(answer: &Answer, before: u32, after: u32) -> bool
    ensures { IsTrue result ↔ ((answer.now ≡ Answer.Refused Resource.NoSpace)
        ⊎ ((after < before) × (after ≤ 3))) }
{
    is_no_space(answer) || (after < before && after <= FEW_CLEAN)
}

/// Whether a call was refused for want of space.
fn is_no_space(answer: &Answer) -> bool
    ensures { IsTrue result ↔ (answer.now ≡ Answer.Refused Resource.NoSpace) }
{
    matches!(answer, Answer::Refused(Resource::NoSpace))
}

/// The credential of the cleaner: user 0 with group 0 alone, and not init.
pub fn superuser() -> Cred
    ensures { result ≡ record { uid = 0; groups = 0 ∷ []; init = false } }
{
    match Cred::new(0, &[0], false) {
        Ok(cred) => cred,
        // Never: one group is no more than 16.
        Err(_) => unreachable!(),
    }
}
