//! What is known of a message beside what it says.

use lfs_fuse_wire::attributes::Time;
use lfs_types::cred::Cred;

/// When a message comes, of which node it speaks, and who sends it.
#[derive(Clone, Copy)]
pub struct Head {
    /// The present time, as it comes.
    pub time: Time,
    /// Its node: where it tells a name, the directory of that.
    pub node: u64,
    /// Its caller.
    pub cred: Cred,
}
