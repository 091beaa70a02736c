//! Types of a kernel.

/// A type of the kernel.
#[derive(Clone, Copy, Debug, PartialEq, Eq)]
pub struct KernelType {
    /// The index of its table among the kernel's tables, from 0.
    pub table: usize,
    /// Its id in that table.
    pub type_id: u32,
}
