//! What is timed, by name.

ghost use Rattle.std.specs.Prelude.{◌≤◌};

/// Calls of users on a tree that is made beforehand.
#[derive(Clone, Copy)]
pub enum UserLoad {
    /// A Stat of each file of a directory in turn, along seven components.
    StatDeep,
    /// A Read of 4,096 bytes of one file, a block of it after another.
    ReadHot,
    /// A Write of 4,096 bytes over those of one file. Over a log most of them overwrite blocks that wait.
    Write4k,
    /// A Write of 16 bytes over those of one file. Over a log they overwrite blocks that wait: a file of 10,000 bytes, with
    /// its indirect block, is 21 blocks, fewer than are written together, so nothing is ever written.
    WriteSmall,
    /// A Write of 16 bytes over those of one file and a Sync by turns, so that each Write reaches a log.
    WriteSync,
    /// A file is made and removed by turns, in a directory with others.
    CreateUnlink,
    /// A file gets another name in its directory, and its own back.
    Rename,
    /// A List of a directory.
    ListLarge,
    /// A Write that the mode of the file denies, along seven components.
    Deny,
    /// Eight calls in turn: Stat, Read, Write, Create, Rename, List, a denied Write and Unlink.
    Mixed,
    /// A Write of the last block of a large file and a Sync by turns, so that the block and all that lead to it are written.
    LargeWrite,
    /// A Read of the last 4,096 bytes of a large file.
    LargeRead,
    /// A large file is cut to no bytes, once.
    LargeCut,
}

/// The name by which calls of sessions on threads are asked for.
pub const SESSIONS: &str = "sessions";

/// What is timed.
#[derive(Clone, Copy)]
pub enum Workload {
    /// Calls of users.
    Users(UserLoad),
    /// Calls of users on a large file.
    LargeFile,
    /// Moves of frames to the front of a queue.
    Frames,
    /// Look-ups of keys that the cache holds.
    LookUps,
    /// Calls of eight sessions on threads, and the same calls of one session.
    Sessions,
}

impl Workload {
    /// The names by which workloads are asked for, in the order of the table.
    pub const NAMES: [&'static str; 14] = [
        "stat-deep",
        "read-hot",
        "write-4k",
        "write-small",
        "write-sync",
        "create-unlink",
        "rename",
        "list-large",
        "deny",
        "mixed",
        "large-file",
        "frames",
        "look-ups",
        SESSIONS,
    ];

    /// The workload of each of the names.
    const ALL: [Workload; 14] = [
        Workload::Users(UserLoad::StatDeep),
        Workload::Users(UserLoad::ReadHot),
        Workload::Users(UserLoad::Write4k),
        Workload::Users(UserLoad::WriteSmall),
        Workload::Users(UserLoad::WriteSync),
        Workload::Users(UserLoad::CreateUnlink),
        Workload::Users(UserLoad::Rename),
        Workload::Users(UserLoad::ListLarge),
        Workload::Users(UserLoad::Deny),
        Workload::Users(UserLoad::Mixed),
        Workload::LargeFile,
        Workload::Frames,
        Workload::LookUps,
        Workload::Sessions,
    ];

    /// The workload of this name.
    pub fn named(name: &str) -> Option<Workload> {
        for index in 0..Workload::ALL.len() {
            if Workload::NAMES[index] == name {
                return Some(Workload::ALL[index]);
            }
        }
        None
    }
}

impl UserLoad {
    /// The calls on a large file, by the names of their rows.
    pub const LARGE: [(&'static str, UserLoad); 3] = [
        ("large-file write", UserLoad::LargeWrite),
        ("large-file read", UserLoad::LargeRead),
        ("large-file cut", UserLoad::LargeCut),
    ];

    /// Whether its calls are on a large file.
    pub fn is_large(self) -> bool {
        matches!(
            self,
            UserLoad::LargeWrite | UserLoad::LargeRead | UserLoad::LargeCut
        )
    }

    /// How many components its paths have before they grow.
    pub fn components(self) -> u32
        ensures { result ≤ 7 }
    {
        match self {
            UserLoad::StatDeep | UserLoad::Deny => 7,
            _ => 2,
        }
    }
}
