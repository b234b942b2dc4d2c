//! The rooms of a change, kept in place.
ghost use Rattle.std.specs.Prelude.{◌≡◌, ◌<◌, ◌≤◌, ◌^◌, ◌↔◌, true, [], ◌∷◌, ◌++◌, length, count_by, Some};
ghost use Rattle.std.specs.List.{All, slice_get};
ghost use Rattle.summary_compose.specs.Composing.{IsNoGreater};
ghost use Rattle.summary_tree.specs.Faces.{length_in};
ghost use Rattle.summary_tree.specs.Meeting.{reaches};

use crate::faces::FaceList;
use std::marker::Model;
use summary_compose::{Room, Scratch};

/// The room that a change needs: that of each face that it makes, 73 at most, in the order in which they are made, and the greatest
/// of them in each field, which tells what is to hold of all.
#[derive(Drop)]
pub(crate) struct Rooms {
    rooms: [Room; 73],
    len: usize,
    most: Room,
}

impl Model for Rooms {
    ghost use Rattle.std.specs.Prelude.{List, take};
    ghost use Rattle.summary_compose.specs.declared.room.Room.{Room};
    ghost use Rattle.summary_tree.specs.Rooms.{AreRooms};

    ghost Value = { List Room };

    ghost view = { λ d. take d.len d.rooms };

    ghost invariant = { λ d. AreRooms d.rooms d.len d.most };
}

// The greatest length of a list.
const LONGEST: u64 = 1 << 62;

// Whether a list of this length needs a span of at least this class.
pub(crate) fn reaches(class: u8, len: u64) -> bool
    requires { class ≤ 62 }
    ensures { result ≡ reaches class len }
{
    class == 0 || 1 << (class - 1) < len
}

fn length_in(list: FaceList, room: &Room) -> u64
    ensures { result ≡ length_in list room.now }
{
    match list {
        FaceList::Checks => room.checks,
        FaceList::Names => room.names,
        FaceList::Changes => room.changes,
        FaceList::Segs => room.segs,
        FaceList::Lasts => room.lasts,
    }
}

impl Rooms {
    pub(crate) fn new() -> Rooms
        ensures { result ≡ [] }
    {
        Rooms {
            rooms: [Room::NONE; 73],
            len: 0,
            most: Room::NONE,
        }
    }

    pub(crate) fn clear(&mut self)
        ensures { self.new ≡ [] }
    {
        self.len = 0;
        self.most = Room::NONE;
    }

    pub(crate) fn push(&mut self, room: Room)
        requires { length self.old < 73 }
        ensures { self.new ≡ self.old ++ room ∷ [] }
    {
        self.rooms[self.len] = room;
        self.len += 1;
        self.most = self.most.max(&room);
    }

    pub(crate) fn nth(&self, i: u32) -> Room
        requires { i < length self.now }
        ensures { slice_get self.now i ≡ Some result }
    {
        self.rooms[i as usize]
    }

    fn list(&self) -> &[Room]
        ensures list { result.now ≡ self.now }
        ensures few { length result.now ≤ 73 }
    {
        &self.rooms[..self.len]
    }

    /// How many of the rooms need a span of at least this class for one of the lists.
    pub(crate) fn count(&self, list: FaceList, class: u8) -> u32
        requires { class ≤ 62 }
        ensures { result ≡ count_by (λ r. reaches class (length_in list r)) self.now }
    {
        let mut many = 0;
        for room in self.list() {
            if reaches(class, length_in(list, room)) {
                many += 1;
            }
        }
        many
    }

    /// How many rooms there are.
    pub(crate) fn len(&self) -> u32
        ensures { result ≡ length self.now }
    {
        self.len as u32
    }

    /// A length that none of the lists passes.
    pub(crate) fn longest(&self, list: FaceList) -> u64
        ensures { All (λ r. length_in list r ≤ result) self.now }
    {
        length_in(list, &self.most)
    }

    /// Whether none of the lists is too long for a span.
    pub(crate) fn is_short(&self, list: FaceList) -> bool
        ensures { (result ≡ true) ↔ All (λ r. length_in list r ≤ 2 ^ 62) self.now }
    {
        length_in(list, &self.most) <= LONGEST
    }

    /// Whether the scratch has each of the rooms.
    pub(crate) fn is_within(&self, scratch: &Scratch) -> bool
        ensures { (result ≡ true) ↔ All (λ r. IsNoGreater r scratch.now.room) self.now }
    {
        scratch.meets(&self.most)
    }

    /// A room no smaller than any of them.
    pub(crate) fn greatest(&self) -> Room
        ensures { All (λ r. IsNoGreater r result) self.now }
    {
        self.most
    }
}
