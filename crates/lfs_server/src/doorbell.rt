//! The doorbell of the cleaner: one ring is one pass.

use crossbeam_channel::{Receiver, Sender};
use std::alloc::{AllocError, Global};
use std::sync::Wait;

/// The button of a doorbell. There may be several.
#[derive(Drop)]
pub struct Button {
    sender: Sender<(), Global>,
}

/// The rings of a doorbell that were not served yet.
#[derive(Drop)]
pub struct Rings {
    receiver: Receiver<(), Global>,
}

/// A doorbell with one button.
pub fn doorbell(alloc: Global) -> Result<(Button, Rings), AllocError> {
    let (sender, receiver) = crossbeam_channel::unbounded(alloc)?;
    Ok((Button { sender }, Rings { receiver }))
}

impl Button {
    /// Another button of the same doorbell.
    pub fn try_clone(&self) -> Result<Button, AllocError> {
        let sender = self.sender.clone()?;
        Ok(Button { sender })
    }

    /// Rings once. A ring that finds no memory is dropped.
    pub fn ring<R: Wait>(&self, rt: &R) {
        let _ = self.sender.send(rt, ());
    }
}

impl Rings {
    /// Waits for the next ring, and says whether there is one: there is none any more once all buttons are gone.
    pub fn wait<R: Wait>(&self, rt: &R) -> bool {
        self.receiver.recv(rt).is_ok()
    }
}
