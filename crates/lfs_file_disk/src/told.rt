//! What a file was told, as a list that only contracts read: it takes no bytes, and its functions do nothing when they run.

ghost use Rattle.std.specs.Prelude.{◌≡◌, List, [], ◌∷◌, ◌++◌};
ghost use Rattle.std.specs.Borrow.{ftrue};
ghost use Rattle.lfs_file_disk.specs.declared.told.HostCall.{HostCall};

use lfs_types::block::Block;
use std::marker::{Model, PhantomData};

/// A call of the host that was made.
#[derive(Clone, Copy)]
pub(crate) enum HostCall {
    /// To write a block's bytes from an offset of the file on.
    Put {
        /// In bytes.
        offset: u64,
        /// The bytes.
        block: Block,
    },
    /// To wait until all that was written has landed.
    Sync,
}

/// Calls of the host, the first of them first.
#[derive(Drop)]
pub(crate) struct Told {
    marker: PhantomData<u8>,
    pub ghost calls: { List HostCall },
}

impl Model for Told {
    ghost also_owns = { λ _. ftrue };
}

impl Told {
    /// No call.
    pub(crate) fn nothing() -> Told
        ensures { result.calls ≡ [] }
    {
        Told {
            marker: PhantomData,
        }
    }

    /// These calls, and one more.
    pub(crate) fn and(&self, call: &HostCall) -> Told
        ensures { result.calls ≡ self.now.calls ++ call.now ∷ [] }
    {
        let _ = call;
        Told {
            marker: PhantomData,
        }
    }
}
