//! Who makes calls.

use lfs_types::cred::Cred;

/// Who makes calls, and in which session.
#[derive(Clone, Copy, Debug)]
pub struct Asker {
    /// The session, from 0 to 8.
    pub session: u8,
    /// Who asks.
    pub cred: Cred,
}
