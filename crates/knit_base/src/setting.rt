//! What a document is read by.
ghost use Rattle.std.specs.Prelude.{◌≡◌, IfOk};

use crate::{Declared, NoMemory, Profile};

/// What a document is read by: the machine, the carriers of its header, and the number of its first body line in the file.
#[derive(Drop)]
pub struct Setting {
    pub profile: Profile,
    pub declared: Declared,
    pub first: u32,
}

impl Setting {
    /// An equal setting.
    pub fn try_clone(&self) -> Result<Self, NoMemory>
        ensures { IfOk result (λ setting. setting ≡ self.now) }
    {
        Ok(Setting {
            profile: self.profile,
            declared: self.declared.try_clone()?,
            first: self.first,
        })
    }
}
