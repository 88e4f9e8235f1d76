//! The place of each serial, found by hashing.

ghost use Rattle.std.specs.Prelude.{◌≡◌, ◌≢◌, ℕ, None, OnOk, Some};

use std::alloc::{AllocError, Global};
use std::collections::HashMap;

/// The address at which the partial segment of each serial begins, of those that were met so far.
#[derive(Drop)]
pub(crate) struct Places {
    addresses: HashMap<u32, u32>,
}

impl Places {
    ghost use Rattle.lfs_findable.specs.Maps.{address_of};

    /// No serial.
    pub(crate) fn new(alloc: Global) -> Places
        ensures { (q : ℕ) → address_of result q ≡ None }
    {
        Places {
            addresses: HashMap::new(alloc),
        }
    }

    /// The address of a serial.
    pub(crate) fn find(&self, serial: u32) -> Option<u32>
        ensures { result ≡ address_of self.now serial }
    {
        self.addresses.get(&serial).copied()
    }

    /// Puts a serial at an address.
    pub(crate) fn put(&mut self, serial: u32, address: u32) -> Result<(), AllocError>
        ensures there { OnOk result (address_of self.new serial ≡ Some address) }
        ensures others { OnOk result
            ((q : ℕ) → q ≢ serial → address_of self.new q ≡ address_of self.old q) }
    {
        let _ = self.addresses.insert(serial, address)?;
        Ok(())
    }
}
