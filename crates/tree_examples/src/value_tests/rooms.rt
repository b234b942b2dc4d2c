//! Rooms, kept in place.
ghost use Rattle.std.specs.Prelude.{◌≡◌, ◌<◌, [], ◌∷◌, ◌++◌, length, Some};
ghost use Rattle.std.specs.List.{slice_get};

use std::marker::Model;

/// At most 73 rooms, each a sum that the composed one doesn't exceed.
#[derive(Drop)]
pub(crate) struct Rooms {
    rooms: [u64; 73],
    len: usize,
}

impl Model for Rooms {
    ghost use Rattle.std.specs.Prelude.{◌≡◌, ℕ, List, ◌≤◌, take, length};

    ghost Value = { List ℕ };

    ghost view = { λ r. take r.len r.rooms };

    ghost invariant = { λ r. (r.len ≤ 73) × (length r.rooms ≡ 73) };
}

impl Rooms {
    pub fn new() -> Rooms
        ensures { result ≡ [] }
    {
        Rooms {
            rooms: [0; 73],
            len: 0,
        }
    }

    pub fn clear(&mut self)
        ensures { self.new ≡ [] }
    {
        self.len = 0;
    }

    pub fn push(&mut self, room: u64)
        requires { length self.old < 73 }
        ensures { self.new ≡ self.old ++ room ∷ [] }
    {
        self.rooms[self.len] = room;
        self.len += 1;
    }

    pub fn nth(&self, i: u32) -> u64
        requires { i < length self.now }
        ensures { slice_get self.now i ≡ Some result }
    {
        self.rooms[i as usize]
    }
}
