//! What a file that isn't an ELF64 file seems to hold.

use elf64::ElfError;

/// The first bytes of a file header.
const MAGIC: &[u8] = b"\x7fELF";

/// `EI_CLASS` of a file of 32 bits, and its offset.
const CLASS_32: u8 = 1;

const CLASS_AT: usize = 4;

/// The number of bytes at a file's beginning that decide whether it is text.
const LOOKED_AT: usize = 512;

/// The control character after the printable ones.
const DELETE: u8 = 0x7f;

fn is_text_byte(byte: u8) -> bool {
    matches!(byte, b'\n' | b'\r' | b'\t') || (byte >= b' ' && byte != DELETE)
}

/// Whether a file begins like text.
fn is_text(bytes: &[u8]) -> bool {
    bytes.iter().take(LOOKED_AT).all(|byte| is_text_byte(*byte))
}

/// What a file is that begins with these bytes.
fn by_beginning(bytes: &[u8]) -> Option<&'static str> {
    if bytes.starts_with(b"\x1f\x8b") {
        return Some("the file is compressed by gzip");
    }
    if bytes.starts_with(b"\x28\xb5\x2f\xfd") {
        return Some("the file is compressed by zstd");
    }
    if bytes.starts_with(b"\xfd7zXZ\0") {
        return Some("the file is compressed by xz");
    }
    if bytes.starts_with(b"!<arch>\n") {
        return Some("the file is an archive of objects");
    }
    if bytes.starts_with(b"BC\xc0\xde") {
        return Some("the file holds LLVM bitcode");
    }
    if bytes.starts_with(b"\x9f\xeb") || bytes.starts_with(b"\xeb\x9f") {
        return Some("the file holds types (BTF) alone");
    }
    if bytes.starts_with(MAGIC) {
        return Some("the file ends inside the ELF file header");
    }
    None
}

/// What a file seems to hold that doesn't begin like an ELF file.
fn without_header(bytes: &[u8]) -> Option<&'static str> {
    if bytes.is_empty() {
        return Some("the file is empty");
    }
    let found = by_beginning(bytes);
    if found.is_some() {
        return found;
    }
    if is_text(bytes) {
        return Some("the file is text; an object is what clang -target bpf makes of C source");
    }
    None
}

/// What a file seems to hold that is refused with an error.
pub fn contents_hint(bytes: &[u8], error: ElfError) -> Option<&'static str> {
    match error {
        ElfError::NotElf => without_header(bytes),
        ElfError::UnsupportedClass if bytes.get(CLASS_AT) == Some(&CLASS_32) => {
            Some("the file is an ELF file of 32 bits")
        }
        _ => None,
    }
}
