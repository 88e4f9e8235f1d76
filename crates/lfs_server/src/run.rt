//! What the threads of a run share beside the volume.

use std::alloc::Global;
use std::sync::atomic::AtomicBool;

/// The handle by which a run waits, where copies of what is asked go, the gate that each call passes, and whether the
/// cleaner waits.
#[derive_where(Clone, Copy)]
pub struct Run<'a, R, G> {
    /// By which it waits and starts threads.
    pub rt: &'a R,
    /// Where copies go.
    pub alloc: Global,
    /// What each call passes before it is made.
    pub gate: &'a G,
    /// Whether the cleaner waits for the lock on the volume.
    pub is_awaited: &'a AtomicBool,
}
