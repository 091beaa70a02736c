//! Programs by their instructions.

use ebpf_items::bpf_insn;
use plan_registers::{ProgramCode, Verifier, reach};
use std::alloc::Global;

/// A kernel of Linux 6.18, for a program whose typed externs are functions.
pub(crate) const NEWEST: Verifier = Verifier {
    comparisons: true,
    unequal_numbers: true,
    orders: true,
    two_registers: true,
    signed_equals: true,
    stored_zeros: true,
    stored_numbers: true,
    stored_parts: true,
    stored_immediates: true,
    low_moves: true,
    signed_shifts: true,
    low_signed_shifts: true,
    wrapped_sums: true,
    exclusive_or: true,
    map_values: true,
    functions: true,
    called_globals: true,
};

fn instruction(code: u8, registers: u8, off: i16, imm: i32) -> bpf_insn {
    let [off_low, off_high] = off.to_le_bytes();
    let [a, b, c, d] = imm.to_le_bytes();
    bpf_insn::from_bytes([code, registers, off_low, off_high, a, b, c, d])
}

/// Calls the function that begins `distance` slots behind the next one.
pub(crate) fn call(distance: i32) -> bpf_insn {
    instruction(0x85, 0x10, 0, distance)
}

/// Calls a helper.
pub(crate) fn helper(number: i32) -> bpf_insn {
    instruction(0x85, 0, 0, number)
}

/// The call that stands for what a kernel lacks.
pub(crate) fn poison() -> bpf_insn {
    helper(0xbad2310)
}

/// Moves a number of 32 bits into a register.
pub(crate) fn set_32(register: u8, number: i32) -> bpf_insn {
    instruction(0xb4, register, 0, number)
}

/// Moves a number into a register.
pub(crate) fn set(register: u8, number: i32) -> bpf_insn {
    instruction(0xb7, register, 0, number)
}

/// Adds a number to a register.
pub(crate) fn add(register: u8, number: i32) -> bpf_insn {
    instruction(0x07, register, 0, number)
}

/// Adds a register to another.
pub(crate) fn add_register(register: u8, from: u8) -> bpf_insn {
    instruction(0x0f, register | from << 4, 0, 0)
}

/// Subtracts a register from another.
pub(crate) fn subtract_register(register: u8, from: u8) -> bpf_insn {
    instruction(0x1f, register | from << 4, 0, 0)
}

/// Shifts a register to the left.
pub(crate) fn shift_left(register: u8, amount: i32) -> bpf_insn {
    instruction(0x67, register, 0, amount)
}

/// Shifts a register to the right with its sign.
pub(crate) fn shift_signed(register: u8, amount: i32) -> bpf_insn {
    instruction(0xc7, register, 0, amount)
}

/// The same of the low 32 bits.
pub(crate) fn shift_signed_32(register: u8, amount: i32) -> bpf_insn {
    instruction(0xc4, register, 0, amount)
}

/// Copies the low 32 bits of a register into another.
pub(crate) fn copy_32(register: u8, from: u8) -> bpf_insn {
    instruction(0xbc, register | from << 4, 0, 0)
}

/// Copies register 1 into another.
pub(crate) fn copy_of_1(register: u8) -> bpf_insn {
    instruction(0xbf, 0x10 | register, 0, 0)
}

/// Loads 8 bytes by the address in a register into register 2.
pub(crate) fn load(register: u8) -> bpf_insn {
    instruction(0x79, 0x02 | register << 4, 0, 0)
}

/// Copies a register into another.
pub(crate) fn copy(register: u8, from: u8) -> bpf_insn {
    instruction(0xbf, register | from << 4, 0, 0)
}

/// The size in the code of a load or a store of some bytes.
fn size_of(width: u8) -> u8 {
    match width {
        1 => 0x10,
        2 => 0x08,
        4 => 0x00,
        _ => 0x18,
    }
}

/// Stores bytes of a register at an offset from the end of the frame.
pub(crate) fn store(width: u8, register: u8, off: i16) -> bpf_insn {
    instruction(0x63 | size_of(width), 0x0a | register << 4, off, 0)
}

/// Stores a number of 8 bytes there.
pub(crate) fn store_number(off: i16, number: i32) -> bpf_insn {
    instruction(0x7a, 0x0a, off, number)
}

/// Loads bytes from there into a register.
pub(crate) fn load_at(width: u8, register: u8, off: i16) -> bpf_insn {
    instruction(0x61 | size_of(width), 0xa0 | register, off, 0)
}

/// Jumps over `distance` slots where a register of 64 bits is a number.
pub(crate) fn skip_if(register: u8, number: i32, distance: i16) -> bpf_insn {
    instruction(0x15, register, distance, number)
}

/// Jumps over `distance` slots where a register of 64 bits is greater than a number, both signed.
pub(crate) fn skip_if_greater(register: u8, number: i32, distance: i16) -> bpf_insn {
    instruction(0x65, register, distance, number)
}

/// Jumps over `distance` slots where a register of 64 bits is less than a number, both signed.
pub(crate) fn skip_if_less(register: u8, number: i32, distance: i16) -> bpf_insn {
    instruction(0xc5, register, distance, number)
}

/// The same of the low 32 bits.
pub(crate) fn skip_if_less_32(register: u8, number: i32, distance: i16) -> bpf_insn {
    instruction(0xc6, register, distance, number)
}

/// Jumps over `distance` slots where registers 1 and 2 are equal.
pub(crate) fn skip_if_same(distance: i16) -> bpf_insn {
    instruction(0x1d, 0x21, distance, 0)
}

/// Jumps over `distance` slots.
pub(crate) fn skip(distance: i16) -> bpf_insn {
    instruction(0x05, 0, distance, 0)
}

pub(crate) fn exit() -> bpf_insn {
    instruction(0x95, 0, 0, 0)
}

/// The two slots that load the address of a typed extern (BPF_PSEUDO_BTF_ID) into register 1.
pub(crate) fn load_typed(id: i32) -> [bpf_insn; 2] {
    [instruction(0x18, 0x31, 0, id), instruction(0, 0, 0, 0)]
}

/// The offset in the context by which a slot loads.
pub(crate) fn context_offset(
    alloc: Global,
    slots: &[bpf_insn],
    global_functions: &[usize],
    slot: usize,
) -> Option<u64> {
    let program = ProgramCode {
        slots,
        verifier: NEWEST,
        maps: &[],
        global_functions,
    };
    match reach(alloc, &program) {
        Ok(reached) => reached.context_offset(slot),
        Err(_) => None,
    }
}

/// Whether a run can reach a slot.
pub(crate) fn reaches(
    alloc: Global,
    slots: &[bpf_insn],
    global_functions: &[usize],
    verifier: Verifier,
    slot: usize,
) -> Option<bool> {
    let program = ProgramCode {
        slots,
        verifier,
        maps: &[],
        global_functions,
    };
    match reach(alloc, &program) {
        Ok(reached) => Some(reached.is_reached(slot)),
        Err(_) => None,
    }
}
