//! The info word of a type record.

ghost use Rattle.std.specs.Prelude.{◌≡◌, ◌<◌};
ghost use Rattle.btf_records.specs.Info.{bits_in, flagged, info_of};
ghost use Rattle.btf_records.specs.Kinds.{number_of};

use crate::kind::BtfKind;

/// The bits of a record's info word that are neither its kind nor its count.
#[derive(Clone, Copy, Debug)]
pub struct InfoBits {
    /// Bit 31, the documentation's `kind_flag`.
    pub flag: bool,
    /// Bit 30, which no kind uses.
    pub bit_30: bool,
    /// Bit 29, which no kind uses.
    pub bit_29: bool,
    /// Bits 16 to 23, which no kind uses.
    pub bits_16_to_23: u8,
}

impl InfoBits {
    /// No bits except the flag, if `flag` is true.
    pub fn flagged(flag: bool) -> InfoBits
        ensures { result ≡ flagged flag }
    {
        InfoBits {
            flag,
            bit_30: false,
            bit_29: false,
            bits_16_to_23: 0,
        }
    }

    /// Those bits of an info word.
    #[tactic(auto, unfolding(crate::specs::Info::bits_in))]
    pub fn of_word(info: u32) -> InfoBits
        ensures { result ≡ bits_in info }
    {
        InfoBits {
            flag: info / 0x8000_0000 % 2 == 1,
            bit_30: info / 0x4000_0000 % 2 == 1,
            bit_29: info / 0x2000_0000 % 2 == 1,
            bits_16_to_23: (info / 0x1_0000 % 256) as u8,
        }
    }

    /// The info word of a kind and a count with these bits.
    #[tactic(auto, unfolding(crate::specs::Info::info_of))]
    pub fn word(self, kind: BtfKind, count: u16) -> u32
        ensures value { result ≡ info_of (number_of kind) count self }
        ensures bits { self.bits_16_to_23 < 256 }
    {
        u32::from(count)
            + u32::from(self.bits_16_to_23) * 0x1_0000
            + kind.number() * 0x100_0000
            + u32::from(self.bit_29) * 0x2000_0000
            + u32::from(self.bit_30) * 0x4000_0000
            + u32::from(self.flag) * 0x8000_0000
    }
}
