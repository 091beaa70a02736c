//! Numbers in one of the two byte orders.

ghost use Rattle.std.specs.Prelude.{◌≡◌, ◌+◌, ◌≤◌, length};
ghost use Rattle.std.specs.Int.{w16, w32, w64};
ghost use Rattle.std.specs.Option.{option_copied};
ghost use Rattle.elf64.specs.Numbers.{number_at, bytes_at};

/// The byte order of a file's numbers (ELF-64 object file format, "File Header", `EI_DATA`).
#[derive(Clone, Copy, Debug, PartialEq, Eq)]
pub enum ByteOrder {
    /// `ELFDATA2LSB`: the least significant byte comes first.
    Little,
    /// `ELFDATA2MSB`: the most significant byte comes first.
    Big,
}

#[tactic(auto, unfolding(crate::specs::Numbers::number_at))]
pub(crate) fn u16_at(order: ByteOrder, bytes: &[u8], at: usize) -> u16
    requires { at + 2 ≤ length bytes.now }
    ensures { result ≡ number_at w16 order bytes.now at }
{
    let number = &bytes[at..at + 2];
    let number = [number[0], number[1]];
    match order {
        ByteOrder::Little => u16::from_le_bytes(number),
        ByteOrder::Big => u16::from_be_bytes(number),
    }
}

#[tactic(auto, unfolding(crate::specs::Numbers::number_at))]
pub(crate) fn u32_at(order: ByteOrder, bytes: &[u8], at: usize) -> u32
    requires { at + 4 ≤ length bytes.now }
    ensures { result ≡ number_at w32 order bytes.now at }
{
    let number = &bytes[at..at + 4];
    let number = [number[0], number[1], number[2], number[3]];
    match order {
        ByteOrder::Little => u32::from_le_bytes(number),
        ByteOrder::Big => u32::from_be_bytes(number),
    }
}

#[tactic(auto, unfolding(crate::specs::Numbers::number_at))]
pub(crate) fn u64_at(order: ByteOrder, bytes: &[u8], at: usize) -> u64
    requires { at + 8 ≤ length bytes.now }
    ensures { result ≡ number_at w64 order bytes.now at }
{
    let number = &bytes[at..at + 8];
    let number = [
        number[0], number[1], number[2], number[3], number[4], number[5], number[6], number[7],
    ];
    match order {
        ByteOrder::Little => u64::from_le_bytes(number),
        ByteOrder::Big => u64::from_be_bytes(number),
    }
}

/// The `len` bytes from the offset `at` on, where there are as many.
pub(crate) fn bytes_at(bytes: &[u8], at: u64, len: u64) -> Option<&[u8]>
    ensures { option_copied result ≡ bytes_at bytes.now at len }
{
    let end = at.checked_add(len)?;
    if (bytes.len() as u64) < end {
        return None;
    }
    Some(&bytes[at as usize..end as usize])
}
