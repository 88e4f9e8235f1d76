//! The errors that a reply can tell.

ghost use Rattle.std.specs.Prelude.{◌≡◌, ◌<◌};
ghost use Rattle.lfs_fuse_reply.specs.Errnos.{errno_number};

/// An error, by its name and number in Linux (errno(3)).
#[derive(Clone, Copy, PartialEq, Eq, Debug)]
pub enum Errno {
    /// The operation is not permitted.
    EPERM = 1,
    /// There is no such name.
    ENOENT = 2,
    /// The call was interrupted.
    EINTR = 4,
    /// The store failed.
    EIO = 5,
    /// The handle is none, or not open for this.
    EBADF = 9,
    /// The call may be tried again.
    EAGAIN = 11,
    /// There is too little memory.
    ENOMEM = 12,
    /// The permissions deny it.
    EACCES = 13,
    /// It is in use.
    EBUSY = 16,
    /// The name is there already.
    EEXIST = 17,
    /// The two are on different volumes.
    EXDEV = 18,
    /// There is no such device.
    ENODEV = 19,
    /// It is no directory.
    ENOTDIR = 20,
    /// It is a directory.
    EISDIR = 21,
    /// An argument is wrong.
    EINVAL = 22,
    /// There is no such control call.
    ENOTTY = 25,
    /// The file would be too large.
    EFBIG = 27,
    /// The volume is full.
    ENOSPC = 28,
    /// The volume is only read.
    EROFS = 30,
    /// It would have too many names.
    EMLINK = 31,
    /// The result is too large.
    ERANGE = 34,
    /// The name or path is too long.
    ENAMETOOLONG = 36,
    /// The message is not served; the kernel does not send its kind again.
    ENOSYS = 38,
    /// The directory is not empty.
    ENOTEMPTY = 39,
    /// There are too many links on the way.
    ELOOP = 40,
    /// There is no such attribute.
    ENODATA = 61,
    /// A value does not fit.
    EOVERFLOW = 75,
    /// It is not supported.
    EOPNOTSUPP = 95,
    /// The node is gone.
    ESTALE = 116,
    /// The user has no more room.
    EDQUOT = 122,
}

impl Errno {
    /// The number, from 1 to 122.
    pub fn number(self) -> u8
        ensures { result ≡ errno_number self }
    {
        self as u8
    }
}
