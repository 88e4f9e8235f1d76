//! What a message asks.

ghost use Rattle.std.specs.Prelude.{◌≡◌};
ghost use Rattle.lfs_fuse_wire.specs.Opcodes.{opcode_in, unserved_in};

/// A kind of message that is read.
#[derive(Clone, Copy, PartialEq, Eq, Debug)]
pub enum Opcode {
    /// An entry of a directory is sought.
    Lookup,
    /// A node's look-ups are forgotten.
    Forget,
    /// Attributes are asked for.
    GetAttr,
    /// Attributes are to change.
    SetAttr,
    /// A file is to be made.
    Mknod,
    /// A directory is to be made.
    Mkdir,
    /// A file's entry is to go.
    Unlink,
    /// A directory is to go.
    Rmdir,
    /// An entry is to be moved.
    Rename,
    /// A file is to be opened.
    Open,
    /// A file's bytes are asked for.
    Read,
    /// A file's bytes are to be written.
    Write,
    /// The volume's room is asked for.
    Statfs,
    /// A file's handle is given back.
    Release,
    /// A file is to be safe.
    Fsync,
    /// A file's descriptor was closed.
    Flush,
    /// The talk begins.
    Init,
    /// A directory is to be opened.
    Opendir,
    /// A directory's entries are asked for.
    Readdir,
    /// A directory's handle is given back.
    Releasedir,
    /// A directory is to be safe.
    Fsyncdir,
    /// Whether a user may use a node.
    Access,
    /// A file is to be made and opened.
    Create,
    /// A message need not be answered in full.
    Interrupt,
    /// The talk ends.
    Destroy,
    /// A control call.
    Ioctl,
    /// Look-ups of several nodes are forgotten.
    BatchForget,
    /// A directory's entries are asked for, each with its attributes.
    Readdirplus,
    /// An entry is to be moved, with flags.
    Rename2,
}

impl Opcode {
    /// The kind that a header's number stands for, if it is one of these.
    #[tactic(auto, unfolding(crate::specs::Opcodes::opcode_in))]
    pub(crate) fn of(number: u32) -> Option<Opcode>
        ensures { result ≡ opcode_in number }
    {
        match number {
            1 => Some(Opcode::Lookup),
            2 => Some(Opcode::Forget),
            3 => Some(Opcode::GetAttr),
            4 => Some(Opcode::SetAttr),
            8 => Some(Opcode::Mknod),
            9 => Some(Opcode::Mkdir),
            10 => Some(Opcode::Unlink),
            11 => Some(Opcode::Rmdir),
            12 => Some(Opcode::Rename),
            14 => Some(Opcode::Open),
            15 => Some(Opcode::Read),
            16 => Some(Opcode::Write),
            17 => Some(Opcode::Statfs),
            18 => Some(Opcode::Release),
            20 => Some(Opcode::Fsync),
            25 => Some(Opcode::Flush),
            26 => Some(Opcode::Init),
            27 => Some(Opcode::Opendir),
            28 => Some(Opcode::Readdir),
            29 => Some(Opcode::Releasedir),
            30 => Some(Opcode::Fsyncdir),
            34 => Some(Opcode::Access),
            35 => Some(Opcode::Create),
            36 => Some(Opcode::Interrupt),
            38 => Some(Opcode::Destroy),
            39 => Some(Opcode::Ioctl),
            42 => Some(Opcode::BatchForget),
            44 => Some(Opcode::Readdirplus),
            45 => Some(Opcode::Rename2),
            _ => None,
        }
    }
}

/// A kind of message of which nothing but the kind is read, since no file server without such things serves it.
#[derive(Clone, Copy, PartialEq, Eq, Debug)]
pub enum Unserved {
    /// Where a symbolic link leads.
    Readlink,
    /// A symbolic link is to be made.
    Symlink,
    /// A second name is to be made.
    Link,
    /// An extended attribute is to change.
    Setxattr,
    /// An extended attribute is asked for.
    Getxattr,
    /// The names of extended attributes are asked for.
    Listxattr,
    /// An extended attribute is to go.
    Removexattr,
    /// Who holds a lock.
    Getlk,
    /// A lock is to be taken or given back.
    Setlk,
    /// The same, and the caller waits.
    Setlkw,
    /// Where a block lies.
    Bmap,
    /// Whether a file is ready.
    Poll,
    /// The kernel's pages of a file, which a server asked for.
    NotifyReply,
    /// Room is to be set aside or given back.
    Fallocate,
    /// Where a hole or bytes begin.
    Lseek,
    /// Bytes are to be copied from file to file.
    CopyFileRange,
    /// A file is to be mapped.
    SetupMapping,
    /// A mapping is to go.
    RemoveMapping,
    /// The volume is to be safe.
    Syncfs,
    /// A file with no name is to be made.
    Tmpfile,
}

impl Unserved {
    /// The kind that a header's number stands for, if it is one of these.
    #[tactic(auto, unfolding(crate::specs::Opcodes::unserved_in))]
    pub(crate) fn of(number: u32) -> Option<Unserved>
        ensures { result ≡ unserved_in number }
    {
        match number {
            5 => Some(Unserved::Readlink),
            6 => Some(Unserved::Symlink),
            13 => Some(Unserved::Link),
            21 => Some(Unserved::Setxattr),
            22 => Some(Unserved::Getxattr),
            23 => Some(Unserved::Listxattr),
            24 => Some(Unserved::Removexattr),
            31 => Some(Unserved::Getlk),
            32 => Some(Unserved::Setlk),
            33 => Some(Unserved::Setlkw),
            37 => Some(Unserved::Bmap),
            40 => Some(Unserved::Poll),
            41 => Some(Unserved::NotifyReply),
            43 => Some(Unserved::Fallocate),
            46 => Some(Unserved::Lseek),
            47 => Some(Unserved::CopyFileRange),
            48 => Some(Unserved::SetupMapping),
            49 => Some(Unserved::RemoveMapping),
            50 => Some(Unserved::Syncfs),
            51 => Some(Unserved::Tmpfile),
            _ => None,
        }
    }
}
