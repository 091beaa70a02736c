//! Objects in a file that holds other things too, such as a program.

ghost use Rattle.std.specs.Prelude.{◌≡◌, ◌+◌, ◌≤◌, drop, length, IfOk};
ghost use Rattle.program_io.specs.Embedded.{Holds, IsNextStart, end_in};

use crate::object_headers::{HEADER_SIZE, begins_object, object_size};
use memchr::memchr;
use std::alloc::{AllocError, Global};

/// An object in a file.
#[derive(Clone, Copy, Debug, PartialEq, Eq)]
pub struct EmbeddedObject {
    /// The offset at which it begins.
    pub start: usize,
    /// How many bytes it has, by its headers.
    pub size: u64,
}

impl EmbeddedObject {
    /// Where the search goes on behind it: at its end, or behind its header where it is cut.
    fn end_in(self, bytes: &[u8]) -> usize
        requires { self.start + 64 ≤ length bytes.now }
        ensures { result ≡ end_in bytes.now self }
    {
        let end = self.start as u128 + self.size as u128;
        if end <= bytes.len() as u128 {
            end as usize
        } else {
            self.start + HEADER_SIZE as usize
        }
    }

    /// Whether its last bytes lie past the end of the file.
    pub fn is_cut(self, file: &[u8]) -> bool {
        self.start as u128 + self.size as u128 > file.len() as u128
    }

    /// Its bytes in the file, as far as they stand there.
    pub fn bytes_in(self, file: &[u8]) -> &[u8] {
        let Some(rest) = file.get(self.start..) else {
            return &[];
        };
        let Ok(size) = usize::try_from(self.size) else {
            return rest;
        };
        match rest.get(..size) {
            Some(bytes) => bytes,
            None => rest,
        }
    }
}

/// The bytes from an offset on.
fn after(bytes: &[u8], at: usize) -> &[u8]
    requires { at ≤ length bytes.now }
    ensures { result.now ≡ drop at bytes.now }
{
    &bytes[at..]
}

/// Where the next object begins, from an offset on.
fn next_start(bytes: &[u8], from: usize) -> Option<usize>
    requires { from ≤ length bytes.now }
    ensures { IsNextStart bytes.now from result }
{
    let mut at = from;
    while let Some(distance) = memchr(0x7f, after(bytes, at)) {
        at += distance;
        if begins_object(after(bytes, at)) {
            return Some(at);
        }
        at += 1;
    }
    None
}

/// The objects in a file, in order, but for those within others.
///
/// # Errors
///
/// `AllocError` where memory runs out.
pub fn embedded_objects(alloc: Global, bytes: &[u8]) -> Result<Vec<EmbeddedObject>, AllocError>
    ensures { IfOk result (λ objects. Holds bytes.now 0 objects.items (length bytes.now)) }
{
    let mut objects = Vec::new(alloc);
    let mut from = 0;
    while let Some(start) = next_start(bytes, from) {
        let size = object_size(after(bytes, start));
        let object = EmbeddedObject { start, size };
        objects.push(object)?;
        from = object.end_in(bytes);
    }
    Ok(objects)
}
