//! The functions of an object.

ghost use Rattle.std.specs.Prelude.{◌≡◌, ◌≤◌, IfOk};
ghost use Rattle.object_parts.specs.Geometry.{end_of, is_inside, with_instructions};

use crate::matched_tables::MatchedTables;
use btf_ext::{FuncSecInfo, LineSecInfo};
use ebpf_items::Slots;
use std::alloc::AllocError;
use std::marker::Model;

/// The size of an instruction slot in bytes.
pub const SLOT_SIZE: u64 = 8;

/// A function of an object.
#[derive(Debug)]
pub struct Function<'a> {
    /// The address (`st_value`).
    pub address: u64,
    /// The symbol's name.
    pub name: &'a str,
    /// The index of the function's section.
    pub section_index: usize,
    /// The offset of the function in bytes: the address in a program section, and the distance from
    /// the section's beginning in `.text`.
    pub section_offset: usize,
    /// The instruction slots.
    pub instructions: Slots<'a>,
    /// The function records at its beginning.
    pub func_info: FuncSecInfo<'a>,
    /// The line records inside it.
    pub line_info: LineSecInfo<'a>,
    /// The size of a function's record in bytes, by the object; 0 where it has no such records.
    pub func_info_rec_size: usize,
    /// The size of a line's record in bytes, by the object; 0 where it has no such records.
    pub line_info_rec_size: usize,
    /// The kernel tables in which its type relocations have their first matches. In a linked
    /// program, these of all functions that it has copies of.
    pub matched_tables: MatchedTables,
}

impl<'a> Drop for Function<'a> {
    // A single call where a value is dropped, instead of one call per field.
    fn drop(self) {
        let Function {
            address: _,
            name: _,
            section_index: _,
            section_offset: _,
            instructions: _instructions,
            func_info: _func_info,
            line_info: _line_info,
            func_info_rec_size: _,
            line_info_rec_size: _,
            matched_tables: _matched_tables,
        } = self;
    }
}

impl<'a> Model for Function<'a> {
    ghost use Rattle.object_parts.specs.Content.{FunctionContent};

    ghost Value = { FunctionContent };

    ghost view = { λ f.
        record {
          address = f.address;
          name = f.name.now;
          section_index = f.section_index;
          section_offset = f.section_offset;
          instructions = f.instructions;
          func_info = f.func_info;
          line_info = f.line_info;
          func_info_rec_size = f.func_info_rec_size;
          line_info_rec_size = f.line_info_rec_size;
          matched_tables = f.matched_tables;
        } };
}

impl<'a> Function<'a> {
    /// The function's key: its section's index and its address.
    pub fn key(&self) -> (usize, u64)
        ensures { result ≡ (self.now.section_index, self.now.address) }
    {
        (self.section_index, self.address)
    }

    /// The offset of the function's end in its section, in bytes.
    pub fn end(&self) -> u128
        ensures value { result ≡ end_of self.now }
        ensures least { self.now.section_offset ≤ result }
    {
        self.section_offset as u128 + SLOT_SIZE as u128 * self.instructions.len() as u128
    }

    /// Whether an offset in its section, in bytes, is inside the function.
    pub fn is_inside(&self, offset: u64) -> bool
        ensures { result ≡ is_inside self.now offset }
    {
        self.section_offset as u64 <= offset && (offset as u128) < self.end()
    }

    /// The kernel tables in which the function's type relocations have their first matches, by
    /// their indices in the list of tables, from 0.
    pub fn matched_tables(&self) -> &MatchedTables
        ensures { result.now ≡ self.now.matched_tables }
    {
        &self.matched_tables
    }

    /// The function with other slots.
    pub fn with_instructions(&self, instructions: Slots<'a>) -> Result<Function<'a>, AllocError>
        ensures { IfOk result (λ function.
            function ≡ with_instructions self.now instructions.entry) }
    {
        Ok(Function {
            address: self.address,
            name: self.name,
            section_index: self.section_index,
            section_offset: self.section_offset,
            instructions,
            func_info: self.func_info.try_clone()?,
            line_info: self.line_info.try_clone()?,
            func_info_rec_size: self.func_info_rec_size,
            line_info_rec_size: self.line_info_rec_size,
            matched_tables: self.matched_tables.try_clone()?,
        })
    }

    /// A copy; borrowed slots and records stay borrowed.
    pub fn try_clone(&self) -> Result<Function<'a>, AllocError>
        ensures { IfOk result (λ function. function ≡ self.now) }
    {
        let instructions = self.instructions.try_clone()?;
        self.with_instructions(instructions)
    }
}

impl<'a> Clone for Function<'a> {
    ghost is_clone = { λ function copy. copy ≡ function };

    fn clone(&self) -> Result<Function<'a>, AllocError> {
        self.try_clone()
    }
}
