//! Words of sections by hand, from the kernel's BTF documentation. Info words are named after the
//! kind and, after a `_`, the number of their items.

pub(crate) const INT: u32 = 0x0100_0000;

pub(crate) const ENUM: u32 = 0x0600_0000;

/// Of functions: static and extern.
pub(crate) const FUNC: u32 = 0x0c00_0000;

pub(crate) const EXTERN: u32 = 0x0c00_0002;

/// Of function prototypes.
pub(crate) const PROTO: u32 = 0x0d00_0000;

pub(crate) const VAR: u32 = 0x0e00_0000;

pub(crate) const DATASEC_1: u32 = 0x0f00_0001;

pub(crate) const DATASEC_2: u32 = 0x0f00_0002;

pub(crate) const FLOAT: u32 = 0x1000_0000;

pub(crate) const DECL_TAG: u32 = 0x1100_0000;

pub(crate) const TYPE_TAG: u32 = 0x1200_0000;

pub(crate) const ENUM64: u32 = 0x1300_0000;

pub(crate) const ENUM64_1: u32 = 0x1300_0001;

/// Of signed enums, the last of 64 bits.
pub(crate) const SIGNED: u32 = 0x8600_0000;

pub(crate) const SIGNED64_2: u32 = 0x9300_0002;

/// A word with all bits set.
pub(crate) const ALL_ONES: u32 = 0xffff_ffff;
