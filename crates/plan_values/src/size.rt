//! How many bytes an instruction loads or stores.

ghost use Rattle.std.specs.Prelude.{◌≡◌};
ghost use Rattle.plan_values.specs.Sizes.{number_in, size_of};

/// The number of bytes that an instruction loads or stores (RFC 9669, section 5).
#[derive(Clone, Copy, Debug, PartialEq, Eq)]
pub enum Size {
    One,
    Two,
    Four,
    Eight,
}

impl Size {
    /// The size in the code of an instruction of the classes LDX, ST and STX.
    pub fn of_code(code: u8) -> Size
        ensures { result ≡ size_of code }
    {
        match code / 8 % 4 {
            0 => Size::Four,
            1 => Size::Two,
            2 => Size::One,
            _ => Size::Eight,
        }
    }

    /// The little-endian number of as many bytes, which begin at an index.
    fn number_of(self, bytes: &[u8], at: usize) -> Option<u64>
        ensures { result ≡ number_in self bytes.now at }
    {
        let rest = bytes.get(at..)?;
        match self {
            Size::One => rest
                .first_chunk()
                .map(|chunk: &[u8; 1]| u8::from_le_bytes(*chunk) as u64),
            Size::Two => rest
                .first_chunk()
                .map(|chunk| u16::from_le_bytes(*chunk) as u64),
            Size::Four => rest
                .first_chunk()
                .map(|chunk| u32::from_le_bytes(*chunk) as u64),
            Size::Eight => rest.first_chunk().map(|chunk| u64::from_le_bytes(*chunk)),
        }
    }

    /// The little-endian number of as many bytes at an offset, if all of them stand there.
    pub fn number_in(self, bytes: &[u8], offset: u64) -> Option<u64>
        ensures { result ≡ number_in self bytes.now offset }
    {
        let at = usize::try_from(offset).ok()?;
        self.number_of(bytes, at)
    }
}
