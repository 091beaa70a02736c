//! The programs of an object.

ghost use Rattle.std.specs.Prelude.{◌≡◌, IfOk};

use ebpf_items::ProgramSection;
use std::alloc::AllocError;
use std::marker::Model;

/// A program of an object: a function of a program section.
#[derive(Debug, Drop)]
pub struct Program<'a> {
    /// The object's license, without the NUL that ends it.
    pub license: &'a [u8],
    /// The kernel version that the object was made for. `None` is any version.
    pub kernel_version: Option<u32>,
    /// The kind of program, with its attach type.
    pub section: ProgramSection,
    /// The index of the program's section.
    pub section_index: usize,
    /// The address of its function (`st_value`).
    pub address: u64,
}

impl<'a> Model for Program<'a> {
    ghost use Rattle.object_parts.specs.Content.{ProgramContent};

    ghost Value = { ProgramContent };

    ghost view = { λ p.
        record {
          license = p.license.now;
          kernel_version = p.kernel_version;
          section = p.section;
          section_index = p.section_index;
          address = p.address;
        } };
}

impl<'a> Program<'a> {
    /// The key of the program's function: the section's index and the address.
    pub fn function_key(&self) -> (usize, u64)
        ensures { result ≡ (self.now.section_index, self.now.address) }
    {
        (self.section_index, self.address)
    }

    /// A copy.
    pub fn try_clone(&self) -> Result<Program<'a>, AllocError>
        ensures { IfOk result (λ program. program ≡ self.now) }
    {
        Ok(Program {
            license: self.license,
            kernel_version: self.kernel_version,
            section: self.section.clone()?,
            section_index: self.section_index,
            address: self.address,
        })
    }
}

impl<'a> Clone for Program<'a> {
    ghost is_clone = { λ program copy. copy ≡ program };

    fn clone(&self) -> Result<Program<'a>, AllocError> {
        self.try_clone()
    }
}
