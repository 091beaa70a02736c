//! The machine that an object is for.

/// The magic of an ELF file.
const MAGIC: &[u8] = b"\x7fELF";

/// `EM_NONE`, which older versions of LLVM write, and `EM_BPF`.
const MACHINES: [u16; 2] = [0, 247];

/// `ELFDATA2MSB`, and the offset of the byte that says the order of bytes (`EI_DATA`).
const BIG: u8 = 2;

const ORDER_AT: usize = 5;

/// The offset of the machine (`e_machine`).
const MACHINE_AT: usize = 18;

/// The machine that a file is for (`e_machine`), if it is an ELF file for another one than eBPF.
pub fn other_machine(file: &[u8]) -> Option<u16> {
    if !file.starts_with(MAGIC) {
        return None;
    }
    let order = *file.get(ORDER_AT)?;
    let number = [*file.get(MACHINE_AT)?, *file.get(MACHINE_AT + 1)?];
    let machine = if order == BIG {
        u16::from_be_bytes(number)
    } else {
        u16::from_le_bytes(number)
    };
    if MACHINES.contains(&machine) {
        None
    } else {
        Some(machine)
    }
}
