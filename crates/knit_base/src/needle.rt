//! Needles and the direction of the carriage.
ghost use Rattle.std.specs.Prelude.{◌≡◌};
ghost use Rattle.knit_base.specs.Needle.{is_front, is_slider, needle_cmp, own_slider, rack_facing};
ghost use Rattle.knit_base.specs.Spelling.{bed_word, dir_word};

use std::cmp::Ordering;

/// The four beds of a V-bed machine, in the order in which a report names them.
#[derive(Clone, Copy, Debug, PartialEq, Eq, PartialOrd, Ord)]
pub enum Bed {
    Front,
    FrontSlider,
    Back,
    BackSlider,
}

impl Bed {
    /// Whether the bed is one of the front: hooks or sliders.
    pub fn is_front(self) -> bool
        ensures { result ≡ is_front self }
    {
        match self {
            Bed::Front | Bed::FrontSlider => true,
            Bed::Back | Bed::BackSlider => false,
        }
    }

    pub fn is_slider(self) -> bool
        ensures { result ≡ is_slider self }
    {
        match self {
            Bed::FrontSlider | Bed::BackSlider => true,
            Bed::Front | Bed::Back => false,
        }
    }

    /// The letters with which a needle's spelling begins.
    pub fn letters(self) -> &'static str
        ensures { result.now ≡ bed_word self }
    {
        match self {
            Bed::Front => "f",
            Bed::FrontSlider => "fs",
            Bed::Back => "b",
            Bed::BackSlider => "bs",
        }
    }
}

/// A needle: its bed and its number. Needles are ordered by bed, then by number.
#[derive(Clone, Copy, Debug, PartialEq, Eq, PartialOrd, Ord)]
pub struct Needle {
    pub bed: Bed,
    pub at: i16,
}

impl Needle {
    /// The slider of the needle's side and number. A slider's is itself.
    pub fn own_slider(self) -> Needle
        ensures { result ≡ own_slider self }
    {
        let bed = if self.bed.is_front() {
            Bed::FrontSlider
        } else {
            Bed::BackSlider
        };
        Needle { bed, at: self.at }
    }

    /// The rack, in quarters of a needle, at which the needle faces one of the other side: the front needle's number less the
    /// back needle's.
    pub fn rack_facing(self, other: Needle) -> i32
        ensures { result ≡ rack_facing self other }
    {
        if self.bed.is_front() {
            4 * (i32::from(self.at) - i32::from(other.at))
        } else {
            4 * (i32::from(other.at) - i32::from(self.at))
        }
    }
}

/// The direction of the carriage: `+` is to the right.
#[derive(Clone, Copy, Debug, PartialEq, Eq)]
pub enum Dir {
    Right,
    Left,
}

impl Dir {
    /// The sign of the direction.
    pub fn sign(self) -> &'static str
        ensures { result.now ≡ dir_word self }
    {
        match self {
            Dir::Right => "+",
            Dir::Left => "-",
        }
    }
}

/// The order of needles: by bed, and then by number.
pub fn needle_order(a: &Needle, b: &Needle) -> Ordering
    ensures { result ≡ needle_cmp a.now b.now }
{
    a.cmp(b)
}
