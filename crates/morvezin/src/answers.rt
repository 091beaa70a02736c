//! What callers get.

ghost use Rattle.std.specs.Prelude.{◌≡◌, [], pos};
ghost use Rattle.morvezin.specs.Calls.{Gives, Says};
ghost use Rattle.morvezin.specs.declared.failure.Failure.TheVariants.{OutOfMemory};

use crate::failure::Failure;

/// The answer of a call. Its text is the caller's, apart from one of no bytes.
#[repr(C)]
#[derive(Drop)]
pub struct Answer {
    pub text: &'static [u8],
    pub status: i32,
    pub kind: i32,
}

/// What became of a text for a buffer of the caller's.
#[repr(C)]
#[derive(Drop)]
pub struct Put {
    /// The length of the text.
    pub len: usize,
    pub status: i32,
    pub kind: i32,
}

/// The statuses in `include/morvezin.h`.
pub(crate) const OK: i32 = 0;

pub(crate) const REFUSED: i32 = 1;

pub(crate) const INVALID_SETTINGS: i32 = 2;

pub(crate) const INVALID_TYPES: i32 = 3;

pub(crate) const OUT_OF_MEMORY: i32 = 4;

pub(crate) const FAILS: i32 = 5;

/// The kind where nothing is refused.
pub(crate) const NO_KIND: i32 = 0;

/// A text that the caller frees: a list of no bytes has no memory that could be.
fn given(text: Vec<u8>) -> &'static [u8]
    ensures { result.now ≡ text.items }
{
    if text.is_empty() {
        return &[];
    }
    text.leak()
}

/// The answer with a text.
pub(crate) fn with_text(text: Vec<u8>, status: i32, kind: i32) -> Answer
    ensures text { result.text.now ≡ text.items }
    ensures status { result.status ≡ status }
    ensures kind { result.kind ≡ kind }
{
    Answer {
        text: given(text),
        status,
        kind,
    }
}

/// The answer where memory runs out.
pub(crate) fn without_memory() -> Answer
    ensures text { result.text.now ≡ [] }
    ensures status { result.status ≡ pos 4 }
    ensures kind { result.kind ≡ pos 0 }
{
    Answer {
        text: &[],
        status: OUT_OF_MEMORY,
        kind: NO_KIND,
    }
}

/// The answer where a call fails.
pub(crate) fn failed(failure: Failure) -> Answer
    ensures says { Says (λ kind. (result.status ≡ pos 1) × (result.kind ≡ kind))
        (result.status ≡ pos 2) (result.status ≡ pos 3) failure }
    ensures memory { failure ≡ OutOfMemory
        → (result.status ≡ pos 4) × (result.text.now ≡ []) }
{
    match failure {
        Failure::Refused(kind, text) => with_text(text.into_bytes(), REFUSED, kind),
        Failure::Settings(text) => with_text(text.into_bytes(), INVALID_SETTINGS, NO_KIND),
        Failure::Types(text) => with_text(text.into_bytes(), INVALID_TYPES, NO_KIND),
        Failure::OutOfMemory => without_memory(),
    }
}

/// Puts a text at the front of a buffer where it fits. Says its length.
pub(crate) fn put_text(text: &[u8], out: &mut [u8], status: i32, kind: i32) -> Put
    ensures text { Gives out.old out.new result.len (λ given. given ≡ text.now) }
    ensures status { result.status ≡ status }
    ensures kind { result.kind ≡ kind }
{
    let len = text.len();
    if len <= out.len() {
        out[..len].copy_from_slice(text);
    }
    Put { len, status, kind }
}
