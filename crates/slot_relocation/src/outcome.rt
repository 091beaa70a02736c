//! What a relocation does to the slots of a function.

ghost use Rattle.std.specs.Prelude.{◌≡◌, ◌<◌, ◌+◌, ◌/◌, IfSome, length, OnOk};
ghost use Rattle.slot_relocation.specs.Slots.{with_number};
ghost use Rattle.slot_relocation.specs.Writes.{written};

use ebpf_items::{Slots, bpf_insn};
use object_parts::SLOT_SIZE;
use std::alloc::AllocError;

/// What a relocation writes: its own slot, and perhaps the next one.
#[derive(Clone, Copy, Debug)]
pub struct Write {
    pub first: bpf_insn,
    pub next: Option<bpf_insn>,
}

/// What a relocation does, or why it is refused.
#[derive(Clone, Copy, Debug)]
pub enum Outcome<E> {
    Skipped,
    Written(Write),
    Refused(E),
}

/// Why a relocation that the file holds is refused.
#[derive(Clone, Copy, Debug)]
pub enum Fault {
    /// There is no whole slot at the offset, a second slot is missing, the relocation doesn't apply
    /// to the slot's operation code, or the value doesn't fit.
    InvalidOffset,
    /// The symbol table has no symbol with this index.
    UnknownSymbol {
        index: usize,
    },
    /// No map is given for a symbol or its section.
    NoMap {
        section_index: usize,
        symbol_index: usize,
    },
    /// No extern has the name of the symbol with this index.
    NoExtern {
        symbol_index: usize,
    },
    /// The extern of the symbol with this index has no value that the slot could hold.
    Unresolvable {
        symbol_index: usize,
    },
}

impl Write {
    /// Writes into slots, `distance` bytes from their beginning.
    pub fn apply(self, slots: &mut Slots<'_>, distance: u64) -> Result<(), AllocError>
        requires first { distance / 8 < length slots.old }
        requires next { IfSome self.next (λ s. distance / 8 + 1 < length slots.old) }
        ensures { OnOk result (slots.new ≡ written slots.old (distance / 8) self) }
    {
        let place = (distance / SLOT_SIZE) as usize;
        slots.set(place, self.first)?;
        if let Some(next) = self.next {
            slots.set(place + 1, next)?;
        }
        Ok(())
    }
}

/// A slot with a source register and a number in its immediate.
pub fn with_number(slot: bpf_insn, source: u8, number: i32) -> bpf_insn
    ensures { result ≡ with_number slot source number }
{
    let mut numbered = slot;
    numbered.set_src_reg(source);
    numbered.imm = number;
    numbered
}
