//! The errors of the example.

use btf::BtfError;
use ebpf_object::{EbpfRelocationError, ParseError};
use elf64::ElfError;
use load_plan::{PlanReadError, PrepareError};
use std::alloc::AllocError;
use std::io;
use thiserror::Error;

/// An error of the example.
#[derive(Debug, Drop, Error)]
pub enum ExampleError {
    #[error("usage: exercises library-example OBJECT [KERNEL_TYPES]")]
    Usage,
    #[error("{0}")]
    Io(#[from] io::Error),
    #[error("{0}")]
    Elf(#[from] ElfError),
    #[error("{0}")]
    Parse(#[from] ParseError),
    #[error("kernel types: {0}")]
    Types(#[from] BtfError),
    #[error("{0}")]
    Relocation(#[from] EbpfRelocationError),
    #[error("refused: {0}")]
    Refused(#[from] PrepareError),
    #[error("the plan's text: {0}")]
    Text(#[from] PlanReadError),
    #[error("out of memory")]
    OutOfMemory(#[from(alloc)] AllocError),
}

impl ExampleError {
    /// The program's exit status: 2 for wrong arguments, 3 for out of memory, and 1 for any other
    /// error.
    pub fn status(&self) -> u8 {
        match self {
            ExampleError::Usage => 2,
            ExampleError::OutOfMemory(_) => 3,
            _ => 1,
        }
    }
}
