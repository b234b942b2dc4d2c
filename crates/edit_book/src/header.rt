//! What a book keeps of its header.
ghost use Rattle.std.specs.Prelude.{◌≡◌, nat_le};
ghost use Rattle.edit_book.specs.Headers.{AreNumbersRising, last_not_above};

use knit_base::Setting;

/// What the document is read by under the header's names, and the numbers of the entries that changed the header, which rise.
#[derive(Drop)]
pub(crate) struct Header {
    pub setting: Setting,
    pub entries: Vec<u32>,
}

impl Header {
    /// The header's stamp at a version: the last of the numbers that isn't above it, or 0.
    pub fn stamp_at(&self, version: u32) -> u32
        requires { AreNumbersRising self.now.entries.items }
        ensures { result ≡ last_not_above version self.now.entries.items }
    {
        let count = self.entries.partition_point(
            |number: &u32| -> bool
                ensures { result ≡ nat_le number.now version }
            { *number <= version },
        );
        if count == 0 {
            return 0;
        }
        self.entries[count - 1]
    }
}
