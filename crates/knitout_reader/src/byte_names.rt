//! The carriers whose names are one byte or two digits.
ghost use Rattle.std.specs.Prelude.{◌≡◌, ◌≢◌, ◌+◌, ◌*◌, ◌-◌, ◌<◌, true, slice_index, IfSome};
ghost use Rattle.knitout_reader.specs.Numbers.{IsDigit};
ghost use Rattle.knitout_reader.specs.Usual.{AreByteNumbers, ArePairNumbers, IsTokenByte};

use knit_base::{CarrierNo, Declared};

// What stands in the table where no carrier does.
const NO_CARRIER: u8 = 255;

/// The carriers whose names are one byte, found by that byte, and those whose names are two digits. The one byte is an ASCII
/// byte that can end a line that is read at once: no `;`, with which a comment begins, and no carriage return, which would be no
/// part of the line.
#[derive(Drop)]
pub struct ByteNames {
    numbers: [u8; 256],
    pairs: [u8; 100],
}

impl ByteNames {
    ghost use Rattle.knitout_reader.specs.Usual.{AreByteNames};

    /// The carriers of the header that have such names.
    pub fn of(declared: &Declared) -> Self
        ensures { AreByteNames declared.now result }
    {
        // Of at most 64 carriers none has the number that stands for none.
        let _few = declared.len();
        ByteNames {
            numbers: byte_numbers(declared),
            pairs: pair_numbers(declared),
        }
    }

    /// The carrier that this byte names alone. `None` says nothing.
    #[inline(always)]
    pub fn find(&self, byte: u8) -> Option<CarrierNo>
        ensures some { IfSome result (λ c. slice_index self.now.numbers byte ≢ 255) }
        ensures is { IfSome result (λ c. c.0 ≡ slice_index self.now.numbers byte) }
    {
        let number = self.numbers[usize::from(byte)];
        if number == NO_CARRIER {
            return None;
        }
        Some(CarrierNo(number))
    }

    /// The carrier that these two digits name. `None` says nothing.
    #[inline(always)]
    pub fn find_pair(&self, tens: u8, ones: u8) -> Option<CarrierNo>
        requires tens { IsDigit tens }
        requires ones { IsDigit ones }
        ensures some { IfSome result (λ c. slice_index self.now.pairs (10 * (tens - 48) + (ones - 48)) ≢ 255) }
        ensures is { IfSome result (λ c. c.0 ≡ slice_index self.now.pairs (10 * (tens - 48) + (ones - 48))) }
    {
        let place = 10 * usize::from(tens - b'0') + usize::from(ones - b'0');
        let number = self.pairs[place];
        if number == NO_CARRIER {
            return None;
        }
        Some(CarrierNo(number))
    }
}

// The carriers by their names of one byte.
fn byte_numbers(declared: &Declared) -> [u8; 256]
    ensures { AreByteNumbers declared.now result }
{
    let mut numbers = [NO_CARRIER; 256];
    for byte in 0..128u8 {
        if is_token_byte(byte) {
            if let Some(c) = declared.find_bytes(&[byte]) {
                numbers[usize::from(byte)] = c.0;
            }
        }
    }
    numbers
}

// The carriers by their names of two digits.
fn pair_numbers(declared: &Declared) -> [u8; 100]
    ensures { ArePairNumbers declared.now result }
{
    let mut pairs = [NO_CARRIER; 100];
    for pair in 0..100u8 {
        if let Some(c) = declared.find_bytes(&[b'0' + pair / 10, b'0' + pair % 10]) {
            pairs[usize::from(pair)] = c.0;
        }
    }
    pairs
}

// Whether an ASCII byte is a token alone, ends no line and begins no comment.
fn is_token_byte(byte: u8) -> bool
    requires { byte < 128 }
    ensures { result ≡ true → IsTokenByte byte }
{
    !matches!(byte, b' ' | b'\t' | b';' | b'\n' | b'\r')
}
