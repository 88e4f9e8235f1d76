//! The statuses of processes, in files beneath `/proc` that are kept open.

ghost use Rattle.std.specs.Prelude.{◌≤◌, length, IfOk, IfSome};

use std::alloc::{AllocError, Global};
use std::fs::File;
use std::os::unix::fs::FileExt;
use std::rt::Files;

/// As many files are kept open at most.
const SLOTS: usize = 64;

/// The file of a process's status, kept open. It tells of this process alone, and fails once that is gone, also where
/// its number was given to another.
#[derive(Drop)]
struct StatusFile<F: Drop> {
    /// The number of the process.
    pid: u32,
    file: F,
}

/// The files of processes whose statuses were read: that of a process in the slot of its number, which others share.
#[derive(Drop)]
pub(crate) struct Statuses<F: Drop> {
    /// No slot before the first look, and then all of them.
    slots: Vec<Option<StatusFile<F>>>,
}

impl<F: FileExt + Drop> Statuses<F> {
    /// No file is open.
    pub(crate) fn new(alloc: Global) -> Statuses<F> {
        Statuses {
            slots: Vec::new(alloc),
        }
    }

    /// Reads the status that a process has now into a buffer, and gives how many bytes it took; `None` where it can't
    /// be read. It is read once: the system gives all of it at once, or as many bytes as the buffer takes.
    pub(crate) fn read<S: Files<File = F>>(
        &mut self,
        alloc: Global,
        files: &S,
        pid: u32,
        buffer: &mut [u8],
    ) -> Result<Option<usize>, AllocError>
        ensures { IfOk result (λ read. IfSome read (λ count. count ≤ length buffer.new)) }
    {
        self.slots.resize_with(SLOTS, || None)?;
        let slot = &mut self.slots[pid as usize % SLOTS];
        if let Some(count) = read_kept(slot, pid, buffer) {
            return Ok(Some(count));
        }
        read_opened(alloc, files, slot, pid, buffer)
    }
}

/// Reads the status of a process in the file that a slot has, where it is that of the process and the process is still
/// there.
fn read_kept<F: FileExt + Drop>(
    slot: &Option<StatusFile<F>>,
    pid: u32,
    buffer: &mut [u8],
) -> Option<usize>
    ensures { IfSome result (λ count. count ≤ length buffer.new) }
{
    let kept = slot.as_ref()?;
    if kept.pid != pid {
        return None;
    }
    match kept.file.read_at(buffer, 0) {
        Ok(0) | Err(_) => None,
        Ok(count) => Some(count),
    }
}

/// Opens the file of a process's status, reads it, and keeps it in a slot.
fn read_opened<S: Files>(
    alloc: Global,
    files: &S,
    slot: &mut Option<StatusFile<S::File>>,
    pid: u32,
    buffer: &mut [u8],
) -> Result<Option<usize>, AllocError>
where
    S::File: FileExt,
    ensures { IfOk result (λ read. IfSome read (λ count. count ≤ length buffer.new)) }
{
    let path = format!(in alloc; "/proc/{pid}/status")?;
    let Ok(file) = File::open(files, path.as_str()) else {
        return Ok(None);
    };
    let Ok(count) = file.read_at(buffer, 0) else {
        return Ok(None);
    };
    *slot = Some(StatusFile { pid, file });
    Ok(Some(count))
}
