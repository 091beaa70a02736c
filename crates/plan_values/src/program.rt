//! What a program's reach depends on.

ghost use Rattle.std.specs.Prelude.{◌≡◌, ◌+◌, length, map, slice_get};
ghost use Rattle.plan_values.specs.Programs.{bytes_in, function_of, index_in, is_callback, numbered, target};

use ebpf_items::bpf_insn;
use std::marker::Model;

/// What the verifier of a kernel keeps track of.
#[derive(Clone, Copy, Debug, PartialEq, Eq)]
pub struct Verifier {
    /// Comparisons of registers with numbers (Linux 4.14).
    pub comparisons: bool,
    /// Comparisons of numbers that aren't equal (Linux 4.16).
    pub unequal_numbers: bool,
    /// Comparisons of numbers by other relations than `==` and `!=` (Linux 5.0).
    pub orders: bool,
    /// Comparisons of two registers (Linux 5.3).
    pub two_registers: bool,
    /// That a number isn't greater than itself as a signed number (Linux 5.11).
    pub signed_equals: bool,
    /// Bytes of the frame that are 0, where registers put them there (Linux 4.16).
    pub stored_zeros: bool,
    /// Numbers of 8 bytes other than 0 that registers put there (Linux 5.3).
    pub stored_numbers: bool,
    /// Numbers of fewer bytes too (Linux 5.16).
    pub stored_parts: bool,
    /// Numbers that are put there as immediates (Linux 6.3, with their sign since 6.7).
    pub stored_immediates: bool,
    /// Moves of the low 32 bits of a register (Linux 5.0).
    pub low_moves: bool,
    /// Arithmetic shifts of 64 bits to the right (Linux 4.18).
    pub signed_shifts: bool,
    /// Arithmetic shifts of 32 bits to the right (Linux 5.5).
    pub low_signed_shifts: bool,
    /// Sums and differences of 64 bits that wrap both as unsigned and as signed numbers (Linux 5.7).
    pub wrapped_sums: bool,
    /// The exclusive or of two numbers (Linux 5.10).
    pub exclusive_or: bool,
    /// That the address of a map's value isn't 0 (Linux 5.8).
    pub map_values: bool,
    /// That the address of a typed extern isn't 0. Linux 6.4 keeps track of it for functions, and no
    /// kernel does for variables: so this is for programs whose typed externs are functions alone.
    pub functions: bool,
    /// Which global functions are called: it visits no others (Linux 6.8).
    pub called_globals: bool,
}

/// A map that programs can't write and that is frozen: its only value.
#[derive(Clone, Copy, Debug)]
pub struct FrozenMap<'m> {
    /// The number that stands for the map in slots.
    pub number: u32,
    pub bytes: &'m [u8],
}

/// A linked program, and what is known of its maps and functions.
#[derive(Debug, Drop)]
pub struct ProgramCode<'p> {
    pub slots: &'p [bpf_insn],
    pub verifier: Verifier,
    pub maps: &'p [FrozenMap<'p>],
    /// The slots at which global functions begin. The verifier takes their arguments as unknown.
    pub global_functions: &'p [usize],
}

impl<'p> Model for ProgramCode<'p> {
    ghost use Rattle.std.specs.Prelude.{map};
    ghost use Rattle.plan_values.specs.Functions.{functions_of};
    ghost use Rattle.plan_values.specs.Programs.{Code, numbered};

    ghost Value = { Code };

    ghost view = { λ p.
        record {
          slots = p.slots.now;
          verifier = p.verifier;
          maps = map numbered p.maps.now;
          globals = p.global_functions.now;
          functions = functions_of p.slots.now;
        } };
}

/// A linked program of which it is known where the function of each slot begins.
#[derive(Debug, Drop)]
pub struct Program<'p> {
    pub slots: &'p [bpf_insn],
    pub verifier: Verifier,
    pub maps: &'p [FrozenMap<'p>],
    pub global_functions: &'p [usize],
    /// For each slot the slot at which its function begins.
    pub functions: &'p [usize],
}

impl<'p> Model for Program<'p> {
    ghost use Rattle.std.specs.Prelude.{map};
    ghost use Rattle.plan_values.specs.Programs.{Code, numbered};

    ghost Value = { Code };

    ghost view = { λ p.
        record {
          slots = p.slots.now;
          verifier = p.verifier;
          maps = map numbered p.maps.now;
          globals = p.global_functions.now;
          functions = p.functions.now;
        } };
}

impl<'p> Program<'p> {
    /// The number of slots.
    pub fn len(&self) -> usize
        ensures { result ≡ length self.now.slots }
    {
        self.slots.len()
    }

    /// The slot at a position.
    pub fn slot(&self, position: usize) -> Option<bpf_insn>
        ensures { result ≡ slice_get self.now.slots position }
    {
        self.slots.get(position).copied()
    }

    /// The slot behind a position.
    pub fn slot_after(&self, position: usize) -> Option<bpf_insn>
        ensures { result ≡ slice_get self.now.slots (position + 1) }
    {
        if position >= self.slots.len() {
            return None;
        }
        self.slots.get(position + 1).copied()
    }

    /// The slot at which the function begins that has a slot.
    pub fn function_of(&self, slot: usize) -> usize
        ensures { result ≡ function_of self.now slot }
    {
        match self.functions.get(slot) {
            Some(function) if *function < self.len() => *function,
            _ => 0,
        }
    }
}

/// The slot that a call (RFC 9669, section 4.3.2), or the load of a function's address (section 5.4),
/// names.
pub fn target(slot: bpf_insn, position: usize) -> i128
    ensures { result ≡ target slot position }
{
    position as i128 + 1 + slot.imm as i128
}

/// The index of a slot, where a program of `len` slots has it.
pub fn index_in(len: usize, slot: i128) -> Option<usize>
    ensures { result ≡ index_in len slot }
{
    if slot < 0 {
        return None;
    }
    if slot >= len as i128 {
        return None;
    }
    Some(slot as usize)
}

/// Whether a slot loads the address of a function that a helper is to call (RFC 9669, section 5.4).
pub fn is_callback(slot: bpf_insn) -> bool
    ensures { result ≡ is_callback slot }
{
    slot.code == 0x18 && slot.src_reg() == 4
}

/// The bytes of the map of a number: none where no frozen map has it.
pub fn bytes_in<'m>(maps: &[FrozenMap<'m>], number: u32) -> &'m [u8]
    ensures { result.now ≡ bytes_in (map numbered maps.now) number }
{
    for map in maps {
        if map.number == number {
            return map.bytes;
        }
    }
    &[]
}
