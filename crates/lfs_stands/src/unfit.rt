//! Why a store of some kind may not stand on a log store.

use thiserror::Error;

/// Why a store of the kind that is asked for may not stand on the log of an image.
#[derive(Clone, Copy, PartialEq, Eq, Debug, Error)]
pub enum Unfit {
    /// The volume takes more than the share that is asked for, or has no two clean segments.
    #[error("image past its share")]
    PastShare,
    /// Its summaries have no serials, or what they tell is not all that its ifile has: the volume would not be found
    /// again in its blocks.
    #[error("image without serials, or with a torn log")]
    Lost,
}
