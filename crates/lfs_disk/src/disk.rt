//! A disk of blocks, as who writes it sees it, and what a crash may leave of it.

ghost use Rattle.std.specs.Prelude.{◌≡◌, ◌<◌, ◌≤◌, Bool, List, [], ℕ, IfErr, IfOk, OnErr, OnOk, length};
ghost use Rattle.std.specs.Prelude.{slice_index_or, slice_set, true};
ghost use Rattle.lfs_disk.specs.Disk.{Elapses, LandsOrNot, Only};

use crate::fault::DiskFault;
use lfs_types::block::Block;

/// A disk of blocks, as who writes it sees it. A block that is written lands whole or not at all, at any time until a
/// sync: a crash leaves the old one or the new one, and never a mixture. So a block has to be what the device writes as
/// a whole, a sector.
pub trait BlockDisk {
    /// The blocks that a read sees, by their addresses.
    ghost seen: { Self → List (List ℕ) };

    /// Which lists of blocks a crash at this moment may leave.
    ghost may_leave: { Self → List (List ℕ) → Type 0 };

    /// The moment, as a number that never goes back.
    ghost time: { Self → ℕ };

    /// Which lists of blocks a crash at some moment from that one on might have left, in a call or between two.
    ghost left_since: { Self → ℕ → List (List ℕ) → Type 0 };

    /// Whether the disk has failed.
    ghost has_failed: { Self → Bool };

    /// Writes a block over the one at an address. Until a sync a crash may leave either, beside either of each other
    /// block that was written, in whatever order they were.
    ///
    /// # Errors
    ///
    /// `Write` where the disk fails. The block may be written all the same.
    fn write(&mut self, address: u32, block: &Block) -> Result<(), DiskFault>
        requires inside { address < length (seen self.old) }
        ensures written { OnOk result (seen self.new ≡ slice_set (seen self.old) address block.now) }
        ensures crash { LandsOrNot address block.now (may_leave self.old) (may_leave self.new) }
        ensures elapses { Elapses (time self.old) (time self.new) (left_since self.old)
            (left_since self.new) (may_leave self.new) }
        ensures fault { IfErr result (λ fault. fault ≡ DiskFault.Write) }
        ensures cause { OnErr result (has_failed self.new ≡ true) }
        ensures failed { has_failed self.old ≡ true → has_failed self.new ≡ true };

    /// Waits until all that was written has landed: from then on a crash leaves it, and nothing else.
    ///
    /// # Errors
    ///
    /// `Sync` where the disk fails. A crash may leave what it might have left before.
    fn sync(&mut self) -> Result<(), DiskFault>
        ensures synced { OnOk result (Only (seen self.old) (may_leave self.new)) }
        ensures seen { OnOk result (seen self.new ≡ seen self.old) }
        ensures crash { (c : List (List ℕ)) → may_leave self.new c → may_leave self.old c }
        ensures elapses { Elapses (time self.old) (time self.new) (left_since self.old)
            (left_since self.new) (may_leave self.new) }
        ensures fault { IfErr result (λ fault. fault ≡ DiskFault.Sync) }
        ensures cause { OnErr result (has_failed self.new ≡ true) }
        ensures failed { has_failed self.old ≡ true → has_failed self.new ≡ true };

    /// This moment is one of those since an earlier one.
    ghost counts_now: { (disk : Self) (t : ℕ) (c : List (List ℕ)) → t ≤ time disk → may_leave disk c
        → left_since disk t c };

    /// Since this moment there is no other.
    ghost only_now: { (disk : Self) (c : List (List ℕ)) → left_since disk (time disk) c
        → may_leave disk c };
}

/// A disk of blocks that tells what it has: a read gives what is seen.
pub trait ReadableDisk: BlockDisk {
    /// Reads the block at an address.
    ///
    /// # Errors
    ///
    /// `Read` where the disk fails.
    fn read(&mut self, address: u32) -> Result<Block, DiskFault>
        requires inside { address < length (Self.seen self.old) }
        ensures block { IfOk result (λ block. block ≡ slice_index_or (Self.seen self.old) address []) }
        ensures seen { Self.seen self.new ≡ Self.seen self.old }
        ensures crash { (c : List (List ℕ)) → Self.may_leave self.new c → Self.may_leave self.old c }
        ensures elapses { Elapses (Self.time self.old) (Self.time self.new) (Self.left_since self.old)
            (Self.left_since self.new) (Self.may_leave self.new) }
        ensures fault { IfErr result (λ fault. fault ≡ DiskFault.Read) }
        ensures cause { OnErr result (Self.has_failed self.new ≡ true) }
        ensures failed { Self.has_failed self.old ≡ true → Self.has_failed self.new ≡ true };
}
