//! Formats of files that hold no types as they are.

ghost use Rattle.std.specs.Prelude.{◌≡◌, take};
ghost use Rattle.std.specs.List.{list_all};
ghost use Rattle.type_files.specs.Starts.{begins, format_of, has_at, is_arm_image, is_kernel_image, is_lz4, is_packed_image, is_riscv_image, is_text, is_text_byte, is_x86_image};

use std::fmt;

/// A format of files that hold no types as they are.
#[derive(Clone, Copy, Debug, PartialEq, Eq)]
pub enum FileFormat {
    /// Compressed by gzip (RFC 1952).
    Gzip,
    /// Compressed by bzip2.
    Bzip2,
    /// Compressed by xz (The .xz File Format).
    Xz,
    /// Compressed by zstd (RFC 8878).
    Zstandard,
    /// Compressed by lz4 (LZ4 Frame Format).
    Lz4,
    /// An image that a boot loader or EFI reads (Documentation/arch/x86/boot.rst,
    /// Documentation/arch/arm64/booting.rst, Documentation/arch/riscv/boot-image-header.rst).
    KernelImage,
    /// A text: its first eight bytes are printed characters or white space of ASCII.
    Text,
}

/// Whether bytes begin with others.
pub(crate) fn begins(bytes: &[u8], wanted: &[u8]) -> bool
    ensures { result ≡ begins bytes.now wanted.now }
{
    bytes.starts_with(wanted)
}

/// Whether bytes have others at an offset.
fn has_at(bytes: &[u8], at: usize, wanted: &[u8]) -> bool
    ensures { result ≡ has_at bytes.now at wanted.now }
{
    match bytes.get(at..) {
        Some(rest) => begins(rest, wanted),
        None => begins(&[], wanted),
    }
}

/// Whether a file is compressed by lz4, in a frame of its format or of its older one.
fn is_lz4(bytes: &[u8]) -> bool
    ensures { result ≡ is_lz4 bytes.now }
{
    begins(bytes, &[0x04, 0x22, 0x4d, 0x18]) || begins(bytes, &[0x02, 0x21, 0x4c, 0x18])
}

/// Whether a file is an image of a kernel for x86: it has `HdrS` at 0x202.
fn is_x86_image(bytes: &[u8]) -> bool
    ensures { result ≡ is_x86_image bytes.now }
{
    has_at(bytes, 0x202, &[0x48, 0x64, 0x72, 0x53])
}

/// Whether a file is an image of a kernel for arm64: it has `ARM\x64` at 56.
fn is_arm_image(bytes: &[u8]) -> bool
    ensures { result ≡ is_arm_image bytes.now }
{
    has_at(bytes, 56, &[0x41, 0x52, 0x4d, 0x64])
}

/// Whether a file is an image of a kernel for RISC-V: it has `RSC\x05` at 56.
fn is_riscv_image(bytes: &[u8]) -> bool
    ensures { result ≡ is_riscv_image bytes.now }
{
    has_at(bytes, 56, &[0x52, 0x53, 0x43, 0x05])
}

/// Whether a file is an image that unpacks itself under EFI: it begins with `MZ` and has `zimg` at 4.
fn is_packed_image(bytes: &[u8]) -> bool
    ensures { result ≡ is_packed_image bytes.now }
{
    begins(bytes, &[0x4d, 0x5a]) && has_at(bytes, 4, &[0x7a, 0x69, 0x6d, 0x67])
}

fn is_kernel_image(bytes: &[u8]) -> bool
    ensures { result ≡ is_kernel_image bytes.now }
{
    is_x86_image(bytes) || is_arm_image(bytes) || is_riscv_image(bytes) || is_packed_image(bytes)
}

fn is_text_byte(byte: u8) -> bool
    ensures { result ≡ is_text_byte byte }
{
    (0x20..=0x7e).contains(&byte) || (0x09..=0x0d).contains(&byte)
}

/// The number of bytes by which a text is told.
const TEXT_START: usize = 8;

fn are_text_bytes(bytes: &[u8]) -> bool
    ensures { result ≡ list_all is_text_byte bytes.now }
{
    bytes.iter().all(|byte| is_text_byte(*byte))
}

/// The first bytes of a file, by which a text is told.
fn text_start(bytes: &[u8]) -> &[u8]
    ensures { result.now ≡ take 8 bytes.now }
{
    match bytes.get(..TEXT_START) {
        Some(start) => start,
        None => bytes,
    }
}

fn is_text(bytes: &[u8]) -> bool
    ensures { result ≡ is_text bytes.now }
{
    !bytes.is_empty() && are_text_bytes(text_start(bytes))
}

/// The format of a file that holds no types as it is, by its first bytes.
pub(crate) fn format_of(bytes: &[u8]) -> Option<FileFormat>
    ensures { result ≡ format_of bytes.now }
{
    if begins(bytes, &[0x1f, 0x8b]) {
        Some(FileFormat::Gzip)
    } else if begins(bytes, &[0x42, 0x5a, 0x68]) {
        Some(FileFormat::Bzip2)
    } else if begins(bytes, &[0xfd, 0x37, 0x7a, 0x58, 0x5a, 0x00]) {
        Some(FileFormat::Xz)
    } else if begins(bytes, &[0x28, 0xb5, 0x2f, 0xfd]) {
        Some(FileFormat::Zstandard)
    } else if is_lz4(bytes) {
        Some(FileFormat::Lz4)
    } else if is_kernel_image(bytes) {
        Some(FileFormat::KernelImage)
    } else if is_text(bytes) {
        Some(FileFormat::Text)
    } else {
        None
    }
}

impl FileFormat {
    /// What a file of the format is, and what makes types of it.
    fn words(self) -> &'static str {
        match self {
            FileFormat::Gzip => "it is compressed by gzip; gzip -d unpacks it",
            FileFormat::Bzip2 => "it is compressed by bzip2; bzip2 -d unpacks it",
            FileFormat::Xz => "it is compressed by xz; xz -d unpacks it",
            FileFormat::Zstandard => "it is compressed by zstd; zstd -d unpacks it",
            FileFormat::Lz4 => "it is compressed by lz4; lz4 -d unpacks it",
            FileFormat::KernelImage => {
                "it is an image that a boot loader reads; examples/kernel_types.py takes the types out of it"
            }
            FileFormat::Text => "it is a text",
        }
    }
}

impl fmt::Display for FileFormat {
    fn fmt<W: fmt::Write>(&self, f: &mut fmt::Formatter<W>) -> fmt::Result {
        f.write_str(self.words())
    }
}
