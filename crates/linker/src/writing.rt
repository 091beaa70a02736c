//! The slots and records of a program, copy after copy.

ghost use Rattle.std.specs.Prelude.{◌≡◌, ◌≢◌, ◌<◌, ◌+◌, ◌++◌, true, Some, map, length, vec_len, reverse, IfOk, IfErr, OnOk};
ghost use Rattle.ebpf_items.specs.Instruction.{is_pseudo_call};
ghost use Rattle.object_parts.specs.Content.{function_at};
ghost use Rattle.relocation_errors.specs.declared.error.RelocationError.TheVariants.{OutOfMemory};
ghost use Rattle.linker.specs.Layout.{aimed, linked, marked};
ghost use Rattle.linker.specs.Unlinked.{table_of};
ghost use Rattle.linker.specs.Records.{functions_of, lines_of, moved_function, moved_lines};
ghost use Rattle.linker.specs.Faults.{HasLinkFault, HasTargetFault, are_sound};
ghost use Rattle.linker.specs.Walks.{AllSound, IsOrdered, StartsFit, copy_in, placed_in};

use crate::layout::{order_laws, place_laws};
use crate::order::CopyOrder;
use crate::records::{push_functions, push_lines, push_moved_lines};
use crate::source::{Key, Source, slot_at, slot_count};
use btf_ext::{bpf_func_info, bpf_line_info};
use ebpf_items::bpf_insn;
use object_parts::Function;
use relocation_errors::RelocationError;
use std::alloc::AllocError;
use std::collections::BTreeMap;

/// The source register of a load of a function's address, `BPF_PSEUDO_FUNC` of the kernel's
/// `bpf.h`.
const BPF_PSEUDO_FUNC: u8 = 4;

/// The records of a program.
#[derive(Drop)]
pub(crate) struct Records {
    pub(crate) functions: Vec<bpf_func_info>,
    pub(crate) lines: Vec<bpf_line_info>,
}

/// The slots of a program, and its records.
#[derive(Drop)]
pub(crate) struct Copies {
    pub(crate) slots: Vec<bpf_insn>,
    pub(crate) records: Records,
}

/// A reference; where it isn't a call, its source register becomes `BPF_PSEUDO_FUNC`.
fn marked(slot: bpf_insn) -> bpf_insn
    ensures { result ≡ marked (is_pseudo_call slot) slot }
{
    let mut marked = slot;
    if !slot.is_pseudo_call() {
        marked.set_src_reg(BPF_PSEUDO_FUNC);
    }
    marked
}

/// A reference at a position that leads to the copy beginning at `start`.
fn aim(slot: bpf_insn, start: usize, position: usize) -> bpf_insn
    requires start { start < 2147483648 }
    requires position { position < 2147483648 }
    ensures { result ≡ aimed (Some start) position slot }
{
    let mut aimed = marked(slot);
    aimed.imm = start as i32 - position as i32 - 1;
    aimed
}

/// The slot that is written for `slot` at a position.
fn place(
    slot: bpf_insn,
    target: Option<Key>,
    starts: &BTreeMap<Key, usize>,
    position: usize,
) -> bpf_insn
    requires position { position < 2147483648 }
    requires starts { StartsFit starts.now }
    ensures { result ≡ placed_in starts.now target position slot }
{
    match target {
        None => slot,
        Some(key) => match starts.get(&key) {
            None => slot,
            Some(start) => aim(slot, *start, position),
        },
    }
}

/// Appends the records of a program's own function.
fn push_own_records(records: &mut Records, function: &Function<'_>) -> Result<(), AllocError>
    ensures functions { OnOk result
        (records.new.functions.items
        ≡ records.old.functions.items ++ map (moved_function 0) function.now.func_info) }
    ensures lines { OnOk result
        (records.new.lines.items ≡ records.old.lines.items ++ function.now.line_info) }
{
    push_functions(&mut records.functions, &function.func_info, 0)?;
    push_lines(&mut records.lines, &function.line_info)?;
    Ok(())
}

/// Appends the records of a function whose copy begins at a slot.
fn push_records(
    records: &mut Records,
    function: &Function<'_>,
    start: usize,
) -> Result<(), AllocError>
    requires { start < 2147483648 }
    ensures functions { OnOk result
        (records.new.functions.items
        ≡ records.old.functions.items ++ map (moved_function start) function.now.func_info) }
    ensures lines { OnOk result
        (records.new.lines.items
        ≡ records.old.lines.items ++ moved_lines start function.now.line_info) }
{
    let start = start as u32;
    push_functions(&mut records.functions, &function.func_info, start)?;
    push_moved_lines(&mut records.lines, &function.line_info, start)?;
    Ok(())
}

impl<'s, 'o, 'f> Source<'s, 'o, 'f> {
    /// Appends the slots of a function's copy, whose references lead to copies.
    fn write_copy(
        &self,
        slots: &mut Vec<bpf_insn>,
        function: &Function<'f>,
        starts: &BTreeMap<Key, usize>,
    ) -> Result<(), RelocationError>
        requires room { vec_len slots.old + length function.now.instructions < 2147483648 }
        requires starts { StartsFit starts.now }
        ensures written { OnOk result
            (slots.new.items
            ≡ slots.old.items
            ++ copy_in self.now function.now starts.now (vec_len slots.old) 0
            function.now.instructions) }
        ensures sound { OnOk result
            (are_sound self.now function.now 0 function.now.instructions ≡ true) }
        ensures fault { IfErr result (λ e.
            e ≢ OutOfMemory → HasTargetFault self.now function.now e) }
    {
        let begin = slots.len();
        for index in 0..slot_count(function) {
            let slot = slot_at(function, index);
            let key = self.reference(function, index, slot)?;
            slots.push(place(slot, key, starts, begin + index))?;
        }
        Ok(())
    }

    /// The slots and records of a program; `own` is the key of its own function.
    pub(crate) fn write_all(
        &self,
        own: Key,
        own_function: &Function<'f>,
        order: &CopyOrder,
    ) -> Result<Copies, RelocationError>
        requires own { function_at self.now.functions own ≡ Some own_function.now }
        requires ordered { IsOrdered self.now own own_function.now order.now }
        ensures slots { IfOk result (λ c.
            c.slots.items ≡ linked (table_of self.now) own (reverse order.now.keys.items)) }
        ensures functions { IfOk result (λ c.
            c.records.functions.items ≡ functions_of self.now own (reverse order.now.keys.items)) }
        ensures lines { IfOk result (λ c.
            c.records.lines.items ≡ lines_of self.now own (reverse order.now.keys.items)) }
        ensures sound { OnOk result (AllSound self.now own (reverse order.now.keys.items)) }
        ensures fault { IfErr result (λ e. e ≢ OutOfMemory → HasLinkFault self.now own e) }
    {
        order_laws();
        place_laws();
        let mut slots = Vec::new(self.alloc);
        let mut records = Records {
            functions: Vec::new(self.alloc),
            lines: Vec::new(self.alloc),
        };
        self.write_copy(&mut slots, own_function, &order.starts)?;
        push_own_records(&mut records, own_function)?;
        for key in &order.keys {
            let function = self.function(*key);
            push_records(&mut records, function, slots.len())?;
            self.write_copy(&mut slots, function, &order.starts)?;
        }
        Ok(Copies { slots, records })
    }
}
