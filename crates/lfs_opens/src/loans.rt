//! Files that were made with more than their mode, so that who made them can fill them, until they are closed.

ghost use Rattle.std.specs.Prelude.{◌≡◌, ◌<◌, IfOk, IfSome, None, replicate, slice_set};
ghost use Rattle.lfs_fuse_wire.specs.Views.{view};
ghost use Rattle.lfs_opens.specs.Loans.{due, due_at, handle_for, noted, told_with, with_handle};

use crate::opens::handle_of;
use lfs_fuse_calls::asked::due_mode;
use lfs_fuse_calls::told::Told;
use lfs_fuse_reply::reply::Opened;
use lfs_fuse_wire::message::Message;
use lfs_types::mode::Mode;
use std::alloc::{AllocError, Global};

/// The mode that the file of each inode number gets once it is closed, where it was made with another and has got
/// none since.
#[derive(Drop)]
pub struct Loans {
    modes: Vec<Option<Mode>>,
}

/// The handle of a file in a slot, which gets this mode once it is closed: an odd one, if there is such a mode.
fn handle_for(slot: Option<usize>, mode: Option<Mode>) -> u64
    requires { IfSome slot (λ s. s < 256) }
    ensures { result ≡ handle_for slot mode }
{
    match mode {
        Some(_) => handle_of(slot) + 1,
        None => handle_of(slot),
    }
}

/// What is told of a file that was opened, with this handle.
fn told_with(handle: u64, told: Told) -> Told
    ensures { result ≡ told_with handle told }
{
    match told {
        Told::Create(entry, opened) => Told::Create(
            entry,
            Opened {
                handle,
                direct_io: opened.direct_io,
            },
        ),
        Told::Open(opened) => Told::Open(Opened {
            handle,
            direct_io: opened.direct_io,
        }),
        other => other,
    }
}

/// What is told of a message, with the handle of a file that it opened.
pub fn with_handle(slot: Option<usize>, message: &Message<'_>, told: Told) -> Told
    requires { IfSome slot (λ s. s < 256) }
    ensures { result ≡ with_handle slot (view message.now) told }
{
    match message {
        Message::Create(fields, _) => {
            let handle = handle_for(slot, due_mode(fields.permissions));
            told_with(handle, told)
        }
        Message::Open(_) => told_with(handle_for(slot, None), told),
        _ => told,
    }
}

impl Loans {
    /// No file of so many numbers.
    ///
    /// # Errors
    ///
    /// There is no memory for them.
    pub fn new(alloc: Global, numbers: u32) -> Result<Loans, AllocError>
        ensures { IfOk result (λ loans. loans.modes.items ≡ replicate numbers None) }
    {
        let modes = Vec::from_elem(alloc, None, numbers as usize)?;
        Ok(Loans { modes })
    }

    /// The mode that the file of a number gets, if there is one.
    fn at(&self, row: Option<u32>) -> Option<Mode>
        ensures { result ≡ due_at self.now.modes.items row }
    {
        let number = row? as usize;
        match self.modes.as_slice().get(number) {
            Some(mode) => *mode,
            None => None,
        }
    }

    /// The mode that the file of a number is to get at a message.
    pub fn due(&self, message: &Message<'_>, row: Option<u32>) -> Option<Mode>
        ensures { result ≡ due (view message.now) self.now.modes.items row }
    {
        match message {
            Message::Release(fields) => {
                if fields.handle % 2 == 1 {
                    self.at(row)
                } else {
                    None
                }
            }
            _ => None,
        }
    }

    fn put(&mut self, number: u64, mode: Option<Mode>)
        ensures { self.new.modes.items ≡ slice_set self.old.modes.items number mode }
    {
        let number = number as usize;
        if number < self.modes.len() {
            self.modes[number] = mode;
        }
    }

    /// Notes what a message made, and that a file got another mode.
    pub fn note(&mut self, message: &Message<'_>, told: &Told)
        ensures { self.new.modes.items ≡ noted (view message.now) told.now self.old.modes.items }
    {
        match message {
            Message::Create(fields, _) => {
                if let Told::Create(entry, _) = told {
                    self.put(entry.attr.inode, due_mode(fields.permissions));
                }
            }
            Message::SetAttr(fields) => {
                if fields.permissions.is_some()
                    && let Told::Attr(attr) = told
                {
                    self.put(attr.inode, None);
                }
            }
            _ => (),
        }
    }
}
