//! The order of two passes over types.

/// Which of two passes over an object's types is made first.
#[derive(Clone, Copy, Debug, PartialEq, Eq)]
pub enum Order {
    /// Type relocations are resolved in the object's own types, which are rewritten afterwards.
    RelocateFirst,
    /// The types are rewritten to the kernel's features before type relocations are resolved.
    RewriteFirst,
}
