//! One text for each instruction of the eBPF instruction set, and the reader of these texts.
//!
//! The texts are those of LLVM's disassembler, such as `r1 = *(u64 *)(r2 + 8)` and
//! `if w1 s> 5 goto -4`. Where that one leaves out what a slot means, they name it: `call pc+4`
//! calls a function of the program, `call btf#4` a function of the kernel, and
//! `r1 = map_fd#5 ll` loads the address of a map. A slot with an encoding that the standard doesn't
//! name, or with a number in a field that it reserves, is shown by its bytes, as in
//! `.byte 0x95, 0x01, 0x00, 0x00, 0x00, 0x00, 0x00, 0x00`. So a text determines each bit of its
//! instruction, and reading the text gives the instruction back.
#![tactic(auto)]

mod comparing;
mod forms;
mod instruction;
mod laws;
mod parts;
mod piece;
mod reading;
mod table;
mod writing;

pub use instruction::{Instruction, instruction_text};
pub use laws::texts_are_told_apart;
pub use reading::read_instruction;
