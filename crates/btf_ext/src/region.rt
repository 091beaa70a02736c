//! The regions of a section.

ghost use Rattle.std.specs.Prelude.{◌≡◌};
ghost use Rattle.btf_ext.specs.Faults.{bad_records, misplaced};
ghost use Rattle.btf_ext.specs.Regions.{field_of, least_size};

use btf_records::BtfError;

/// The kind of a region's records.
#[derive(Clone, Copy, PartialEq, Eq)]
pub(crate) enum RegionKind {
    Functions,
    Lines,
    Relocations,
}

/// A region's offset in its section and its length, and the section's length, in bytes.
#[derive(Clone, Copy)]
pub(crate) struct RegionExtent {
    pub(crate) offset: usize,
    pub(crate) len: usize,
    pub(crate) section_len: usize,
}

impl RegionKind {
    /// The offset in the header of the region's fields.
    pub(crate) fn field(self) -> usize
        ensures { result ≡ field_of self }
    {
        match self {
            RegionKind::Functions => 8,
            RegionKind::Lines => 16,
            RegionKind::Relocations => 24,
        }
    }

    /// The least size of its records in bytes.
    pub(crate) fn least_size(self) -> usize
        ensures { result ≡ least_size self }
    {
        match self {
            RegionKind::Functions => 8,
            RegionKind::Lines => 16,
            RegionKind::Relocations => 16,
        }
    }
}

impl RegionExtent {
    /// The error for a region that reaches past the end of the section or is too short.
    pub(crate) fn misplaced(self) -> BtfError
        ensures { result ≡ misplaced self }
    {
        BtfError::InvalidInfo {
            offset: self.offset,
            len: self.len,
            section_len: self.section_len,
        }
    }

    /// The error for a region whose records are too short or cut off.
    pub(crate) fn bad_records(self, kind: RegionKind) -> BtfError
        ensures { result ≡ bad_records kind self }
    {
        match kind {
            RegionKind::Functions => self.misplaced(),
            RegionKind::Lines => BtfError::InvalidLineInfo {
                offset: self.offset,
                len: self.len,
                section_len: self.section_len,
            },
            RegionKind::Relocations => BtfError::InvalidRelocationInfo,
        }
    }
}
