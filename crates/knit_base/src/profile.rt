//! The limits of a machine.

/// The limits of a machine: its lowest and highest needle, how far the beds rack in whole needles, how many loops a needle may
/// hold, and how many needle numbers a float may span, the yarn between two loops that a carrier forms one after the other.
#[derive(Clone, Copy, Debug, PartialEq, Eq)]
pub struct Profile {
    pub low: i16,
    pub high: i16,
    pub rack: u8,
    pub hold: u8,
    pub float: Option<u16>,
}

impl Profile {
    /// A usual machine, which is meant where no limits are given: needles from -1024 to 1023, racks of 8 needles to either side,
    /// 16 loops on a needle, and floats of any length.
    pub const USUAL: Profile = Profile {
        low: -1024,
        high: 1023,
        rack: 8,
        hold: 16,
        float: None,
    };
}
