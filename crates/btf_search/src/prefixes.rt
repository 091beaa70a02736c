//! A filter by the first bytes of names.

ghost use Rattle.std.specs.Prelude.{◌≡◌, ◌≤◌, ◌*◌, ◌-◌, ◌^◌, ◌<◌, ℕ, List, Some, drop, false, length, slice_index};
ghost use Rattle.std.specs.Int.{from_le_bytes, w64};
ghost use Rattle.string_table.specs.Texts.{text_at};
ghost use Rattle.btf_search.specs.Prefixes.{HasPrefix, MarksName, MarksPrefix, MayBegin, has_hash, hash_of};

use std::marker::Model;
use string_table::MarkedBytes;

/// The most bytes that a prefix has.
pub(crate) const PREFIX: usize = 8;

/// 2^64 divided by the golden ratio. The highest bits of a product with it depend on all bytes of
/// the other factor.
const FACTOR: u64 = 0x9E37_79B9_7F4A_7C15;

/// The number whose lowest `len` bytes have all bits set, and no others.
fn mask_of(len: usize) -> u64
    requires { len ≤ PREFIX }
    ensures { result ≡ 2 ^ (8 * len) - 1 }
{
    if len == PREFIX {
        return u64::MAX;
    }
    (1 << (8 * len)) - 1
}

/// The first eight bytes, and zeros where there are fewer.
fn first_bytes(bytes: &[u8]) -> [u8; PREFIX]
    ensures { (i : ℕ) → i < 8 → slice_index result i ≡ slice_index bytes.now i }
{
    let mut first = [0; PREFIX];
    for index in 0..bytes.len().min(PREFIX) {
        first[index] = bytes[index];
    }
    first
}

/// A Bloom filter of prefixes with the same number of bytes, at most eight. Each byte of a prefix's
/// hash of 16 bits has a table of its own.
#[derive(Debug, Drop)]
struct PrefixFilter {
    len: usize,
    /// The bits that the first `len` bytes have in a little-endian number.
    mask: u64,
    /// The high bytes of the hashes.
    high: MarkedBytes,
    /// The low bytes of the hashes.
    low: MarkedBytes,
}

impl Model for PrefixFilter {
    ghost use Rattle.std.specs.Prelude.{◌≡◌, ◌≤◌, ◌*◌, ◌-◌, ◌^◌};
    ghost use Rattle.btf_search.specs.Prefixes.{Filter};

    ghost Value = { Filter };

    ghost view = { λ f. record { len = f.len; high = f.high; low = f.low } };

    ghost invariant = { λ f. (f.len ≤ 8) × (f.mask ≡ 2 ^ (8 * f.len) - 1) };
}

impl PrefixFilter {
    /// A filter without prefixes.
    fn new(len: usize) -> PrefixFilter
        requires { len ≤ PREFIX }
        ensures { result.len ≡ len }
    {
        PrefixFilter {
            len,
            mask: mask_of(len),
            high: MarkedBytes::new(),
            low: MarkedBytes::new(),
        }
    }

    /// The hash of the prefix of a text that begins with these bytes.
    #[tactic(auto, using(crate::proofs::PrefixHashes::hash_is))]
    fn hash_of(&self, first: [u8; PREFIX]) -> u16
        ensures value { result ≡ hash_of self.now.len first }
        ensures few { self.now.len ≤ 8 }
    {
        let prefix = u64::from_le_bytes(first) & self.mask;
        (prefix.wrapping_mul(FACTOR) >> 48) as u16
    }

    /// Adds the prefix of a name.
    fn mark(&mut self, name: &str)
        requires { self.old.len ≤ length name.now }
        ensures { MarksPrefix name.now self.old self.new }
    {
        let hash = self.hash_of(first_bytes(name.as_bytes()));
        self.high.mark((hash >> 8) as u8);
        self.low.mark((hash % 0x100) as u8);
    }

    /// Whether both bytes of a hash are marked.
    fn has_hash(&self, hash: u16) -> bool
        ensures { result ≡ has_hash self.now hash }
    {
        self.high.contains((hash >> 8) as u8) && self.low.contains((hash % 0x100) as u8)
    }

    /// Whether a text that begins with these bytes may have one of the prefixes. Where there are
    /// fewer than eight bytes, it may.
    fn may_have(&self, bytes: &[u8]) -> bool
        ensures { (strings text : List ℕ) (offset : ℕ)
            → bytes.now ≡ drop offset strings
            → text_at strings offset ≡ Some text
            → result ≡ false
            → HasPrefix self.now text
            → ⊥ }
    {
        match bytes.first_chunk() {
            Some(first) => self.has_hash(self.hash_of(*first)),
            None => true,
        }
    }
}

/// The prefixes of names: eight bytes of a name that has as many, and else the number of bytes of
/// the shortest name. So a short name doesn't make the filter of the others coarser.
#[derive(Debug, Drop)]
pub(crate) struct Prefixes {
    long: PrefixFilter,
    short: PrefixFilter,
}

impl Model for Prefixes {
    ghost use Rattle.std.specs.Prelude.{◌≤◌};
    ghost use Rattle.btf_search.specs.Prefixes.{Prefixes as Seen};

    ghost Value = { Seen };

    ghost view = { λ p. record { long = p.long; short = p.short } };

    ghost invariant = { λ p. p.long.len ≤ 8 };
}

impl Prefixes {
    /// No names. Each name that is added has at least `shortest` bytes.
    pub(crate) fn new(shortest: usize) -> Prefixes
        requires { shortest ≤ PREFIX }
        ensures { result.short.len ≡ shortest }
    {
        Prefixes {
            long: PrefixFilter::new(PREFIX),
            short: PrefixFilter::new(shortest),
        }
    }

    /// Adds a name.
    #[tactic(auto, using(crate::proofs::MarkedNames::marks_long, crate::proofs::MarkedNames::marks_short))]
    pub(crate) fn mark(&mut self, name: &str)
        requires { self.old.short.len ≤ length name.now }
        ensures { MarksName name.now self.old self.new }
    {
        if name.len() < PREFIX {
            self.short.mark(name);
        } else {
            self.long.mark(name);
        }
    }

    /// Whether a text that begins with these bytes may begin as one of the names. Where there are
    /// fewer than eight bytes, it may.
    #[tactic(auto, using(crate::proofs::MarkedNames::begins_as_neither))]
    pub(crate) fn may_begin(&self, bytes: &[u8]) -> bool
        ensures { (strings text : List ℕ) (offset : ℕ)
            → bytes.now ≡ drop offset strings
            → text_at strings offset ≡ Some text
            → result ≡ false
            → MayBegin self.now text
            → ⊥ }
    {
        if self.long.may_have(bytes) {
            return true;
        }
        self.short.may_have(bytes)
    }
}
