//! The headers of an object.

ghost use Rattle.std.specs.Prelude.{◌≡◌, ◌+◌, ◌≤◌, length};
ghost use Rattle.std.specs.Int.{w16};
ghost use Rattle.elf64.specs.Headers.{order_of};
ghost use Rattle.elf64.specs.Numbers.{number_at};
ghost use Rattle.program_io.specs.Embedded.{begins_object};

use elf64::ByteOrder;

/// The size of a file's header, and of a section's, in bytes.
pub(crate) const HEADER_SIZE: u64 = 64;

/// `SHT_NOBITS`
const NO_BITS: u32 = 8;

/// The byte order of an ELF64 file, if bytes begin with an ELF64 header.
fn order_of(bytes: &[u8]) -> Option<ByteOrder>
    ensures { result ≡ order_of bytes.now }
{
    if bytes.len() < 64 || !bytes.starts_with(b"\x7fELF".as_slice()) || bytes[4] != 2 {
        return None;
    }
    match bytes[5] {
        1 => Some(ByteOrder::Little),
        2 => Some(ByteOrder::Big),
        _ => None,
    }
}

/// The number of 16 bits at an offset.
#[tactic(auto, unfolding(elf64::specs::Numbers::number_at))]
fn half(bytes: &[u8], order: ByteOrder, at: usize) -> u16
    requires { at + 2 ≤ length bytes.now }
    ensures { result ≡ number_at w16 order bytes.now at }
{
    let number = &bytes[at..at + 2];
    let number = [number[0], number[1]];
    match order {
        ByteOrder::Little => u16::from_le_bytes(number),
        ByteOrder::Big => u16::from_be_bytes(number),
    }
}

/// Whether bytes begin with the header of an object: that of an ELF64 file, relocatable (`ET_REL`),
/// for eBPF (`EM_BPF`, 247).
pub fn begins_object(bytes: &[u8]) -> bool
    ensures { result ≡ begins_object bytes.now }
{
    match order_of(bytes) {
        Some(order) => half(bytes, order, 16) == 1 && half(bytes, order, 18) == 247,
        None => false,
    }
}

/// The bytes of a number at an offset, if they are there.
fn bytes_at<const N: usize>(bytes: &[u8], at: u64) -> Option<[u8; N]> {
    let at = usize::try_from(at).ok()?;
    bytes.get(at..)?.first_chunk().copied()
}

fn word(bytes: &[u8], order: ByteOrder, at: u64) -> Option<u32> {
    let number = bytes_at(bytes, at)?;
    match order {
        ByteOrder::Little => Some(u32::from_le_bytes(number)),
        ByteOrder::Big => Some(u32::from_be_bytes(number)),
    }
}

fn long(bytes: &[u8], order: ByteOrder, at: u64) -> Option<u64> {
    let number = bytes_at(bytes, at)?;
    match order {
        ByteOrder::Little => Some(u64::from_le_bytes(number)),
        ByteOrder::Big => Some(u64::from_be_bytes(number)),
    }
}

/// Where the bytes of the section end whose header is at an offset, if they stand in the file.
fn section_end(bytes: &[u8], order: ByteOrder, header: u64) -> Option<u64> {
    if word(bytes, order, header.saturating_add(4))? == NO_BITS {
        return None;
    }
    let offset = long(bytes, order, header.saturating_add(24))?;
    let size = long(bytes, order, header.saturating_add(32))?;
    Some(offset.saturating_add(size))
}

/// Where the headers and the bytes of sections end, given the header of the first and their count.
fn sections_end(bytes: &[u8], order: ByteOrder, first: u64, count: u16) -> u64 {
    let mut end = first.saturating_add(HEADER_SIZE * u64::from(count));
    let mut header = first;
    for _ in 0..count {
        if let Some(section_end) = section_end(bytes, order, header) {
            end = end.max(section_end);
        }
        header = header.saturating_add(HEADER_SIZE);
    }
    end
}

/// How many bytes the object has that begins here: up to the end of its headers and of the bytes of
/// its sections.
pub(crate) fn object_size(bytes: &[u8]) -> u64
    ensures { 64 ≤ result }
{
    let Some(order) = order_of(bytes) else {
        return HEADER_SIZE;
    };
    let Some(first) = long(bytes, order, 40) else {
        return HEADER_SIZE;
    };
    let count = half(bytes, order, 60);
    sections_end(bytes, order, first, count).max(HEADER_SIZE)
}
