//! The node at each place, found by hashing.

ghost use Rattle.std.specs.Prelude.{◌≡◌, ◌≢◌, ◌<◌, ◌≤◌, Some, None, IfOk, OnOk};

use crate::place::Place;
use std::alloc::{AllocError, Global};
use std::collections::HashMap;

/// The id of the node at each place.
#[derive(Drop)]
pub struct Index {
    ids: HashMap<Place, u64>,
}

impl Index {
    ghost use Rattle.lfs_nodes.specs.Maps.{id_at, room_in};
    ghost use Rattle.lfs_nodes.specs.declared.place.Place.{Place};

    /// No place.
    pub(crate) fn new(alloc: Global) -> Index
        ensures { (q : Place) → id_at result q ≡ None }
    {
        Index {
            ids: HashMap::new(alloc),
        }
    }

    /// The id of the node at a place.
    pub(crate) fn find(&self, place: &Place) -> Option<u64>
        ensures { result ≡ id_at self.now place.now }
    {
        self.ids.get(place).copied()
    }

    /// Takes room for one place more.
    pub(crate) fn reserve(&mut self) -> Result<(), AllocError>
        ensures same { (q : Place) → id_at self.new q ≡ id_at self.old q }
        ensures room { OnOk result (0 < room_in self.new) }
    {
        self.ids.reserve(1)
    }

    /// Puts a node at a place.
    pub(crate) fn put(&mut self, place: Place, id: u64)
        requires { 0 < room_in self.old }
        ensures there { id_at self.new place ≡ Some id }
        ensures others { (q : Place) → q ≢ place → id_at self.new q ≡ id_at self.old q }
    {
        let put: Result<_, _> = self.ids.insert(place, id);
        let _ = put.unwrap();
    }

    /// Takes the node from a place.
    pub(crate) fn take(&mut self, place: &Place) -> Option<u64>
        ensures taken { result ≡ id_at self.old place.now }
        ensures gone { id_at self.new place.now ≡ None }
        ensures others { (q : Place) → q ≢ place.now → id_at self.new q ≡ id_at self.old q }
        ensures room { room_in self.old ≤ room_in self.new }
    {
        self.ids.remove(place)
    }
}
