//! Rooms for needles, kept in place.
ghost use Rattle.std.specs.Prelude.{◌≡◌, ◌<◌, ◌++◌, ◌∷◌, [], length, Some};
ghost use Rattle.std.specs.List.{slice_get};
ghost use Rattle.tally_tree.specs.Rooms.{most_of};

use std::marker::Model;

/// At most 73 rooms, each for so many needles, and the greatest of them.
#[derive(Drop)]
pub(crate) struct Rooms {
    rooms: [usize; 73],
    len: usize,
    most: usize,
}

impl Model for Rooms {
    ghost use Rattle.std.specs.Prelude.{ℕ, List, ◌≡◌, ◌≤◌, take, length};
    ghost use Rattle.tally_tree.specs.Rooms.{most_of};

    ghost Value = { List ℕ };

    ghost view = { λ r. take r.len r.rooms };

    ghost invariant = { λ r. (length r.rooms ≡ 73) × (r.len ≤ 73) × (r.most ≡ most_of (take r.len r.rooms)) };
}

impl Rooms {
    pub fn new() -> Rooms
        ensures { result ≡ [] }
    {
        Rooms {
            rooms: [0; 73],
            len: 0,
            most: 0,
        }
    }

    pub fn clear(&mut self)
        ensures { self.new ≡ [] }
    {
        self.len = 0;
        self.most = 0;
    }

    pub fn push(&mut self, room: usize)
        requires { length self.old < 73 }
        ensures { self.new ≡ self.old ++ room ∷ [] }
    {
        self.rooms[self.len] = room;
        self.len += 1;
        self.most = self.most.max(room);
    }

    pub fn nth(&self, i: u32) -> usize
        requires { i < length self.now }
        ensures { slice_get self.now i ≡ Some result }
    {
        self.rooms[i as usize]
    }

    pub fn len(&self) -> usize
        ensures { result ≡ length self.now }
    {
        self.len
    }

    pub fn most(&self) -> usize
        ensures { result ≡ most_of self.now }
    {
        self.most
    }
}
