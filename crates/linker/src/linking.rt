//! Linked programs, which replace their functions.

ghost use Rattle.std.specs.Prelude.{[], ◌≡◌, ◌≢◌, true, reverse, Some, IfOk, IfErr, OnOk, OnErr};
ghost use Rattle.relocation_errors.specs.declared.error.RelocationError.TheVariants.{OutOfMemory};
ghost use Rattle.object_parts.specs.Content.{HaveFunctions, has_function};
ghost use Rattle.linker.specs.Faults.{CanBeLinked, HasLinkFault};
ghost use Rattle.linker.specs.Installed.{AreLinkedTo};
ghost use Rattle.linker.specs.Linked.{AllCanBeLinked, AreLinked, HasFaultOf, IsLinked, program_keys, unlinked, with_copies};
ghost use Rattle.linker.specs.Records.{tables_of, with_matched};
ghost use Rattle.std.specs.Option.{option_map};
ghost use Rattle.std.specs.String.{string_bytes};

use crate::layout::{linked_visits_same, order_laws, reached_are_appended};
use crate::order::CopyOrder;
use crate::source::{Key, Source};
use crate::writing::Copies;
use btf_ext::{FuncSecInfo, LineSecInfo};
use ebpf_items::{Slots, bpf_insn};
use object_file::ObjectFile;
use object_parts::{Function, Functions, MatchedTables, Program, Programs};
use relocation_errors::{EbpfRelocationError, RelocationError};
use std::alloc::{AllocError, Global};
use std::collections::BTreeSet;

/// Whether no function is appended.
fn is_alone(order: &CopyOrder) -> bool
    ensures { result ≡ true → order.now.keys.items ≡ [] }
{
    order.keys.as_slice().is_empty()
}

/// The slots of a linked program. Where the program reaches no other function, they are its
/// function's and stay in the file.
fn program_slots<'f>(
    function: &Function<'f>,
    is_alone: bool,
    slots: Vec<bpf_insn>,
) -> Result<Slots<'f>, AllocError>
    requires { is_alone ≡ true → slots.items ≡ function.now.instructions }
    ensures { IfOk result (λ s. s ≡ slots.items) }
{
    if is_alone {
        return function.instructions.try_clone();
    }
    Ok(Slots::owned(slots))
}

/// A function whose slots, records and matched kernel tables are replaced by those of a linked
/// program. More records than 32 bits count are out of memory.
fn with_copies<'f>(
    function: &Function<'f>,
    is_alone: bool,
    copies: Copies,
    matched_tables: MatchedTables,
) -> Result<Function<'f>, AllocError>
    requires { is_alone ≡ true → copies.slots.items ≡ function.now.instructions }
    ensures { IfOk result (λ f.
        f
        ≡ with_copies function.now copies.slots.items copies.records.functions.items
        copies.records.lines.items matched_tables) }
{
    let Copies { slots, records } = copies;
    if records.functions.len() > u32::MAX as usize || records.lines.len() > u32::MAX as usize {
        return Err(AllocError);
    }
    Ok(Function {
        address: function.address,
        name: function.name,
        section_index: function.section_index,
        section_offset: function.section_offset,
        instructions: program_slots(function, is_alone, slots)?,
        func_info: FuncSecInfo::from_records(records.functions),
        line_info: LineSecInfo::from_records(records.lines),
        func_info_rec_size: function.func_info_rec_size,
        line_info_rec_size: function.line_info_rec_size,
        matched_tables,
    })
}

impl<'s, 'o, 'f> Source<'s, 'o, 'f> {
    /// Enters the kernel tables that the relocations in the function with this key matched.
    fn enter_tables(&self, tables: &mut MatchedTables, key: Key) -> Result<(), AllocError>
        ensures { OnOk result (tables.new ≡ with_matched self.now tables.old key) }
    {
        match self.functions.get(key) {
            Some(function) => tables.enter_all(&function.matched_tables),
            None => Ok(()),
        }
    }

    /// The kernel tables that the relocations in a program's functions matched.
    fn matched_tables(&self, own: Key, order: &CopyOrder) -> Result<MatchedTables, AllocError>
        ensures { IfOk result (λ tables.
            tables ≡ tables_of self.now own (reverse order.now.keys.items)) }
    {
        let mut tables = MatchedTables::new(self.alloc);
        self.enter_tables(&mut tables, own)?;
        for key in &order.keys {
            self.enter_tables(&mut tables, *key)?;
        }
        Ok(tables)
    }

    /// The function with this key, with all functions that it reaches linked to it.
    pub(crate) fn link(&self, own: Key) -> Result<Function<'f>, RelocationError>
        requires { has_function self.now.functions own ≡ true }
        ensures linked { IfOk result (λ f. IsLinked self.now own f) }
        ensures sound { OnOk result (CanBeLinked self.now own) }
        ensures fault { IfErr result (λ e. e ≢ OutOfMemory → HasLinkFault self.now own e) }
    {
        order_laws();
        reached_are_appended();
        linked_visits_same();
        let function = self.function(own);
        let order = self.order_of(own, function)?;
        let copies = self.write_all(own, function, &order)?;
        let tables = self.matched_tables(own, &order)?;
        let linked = with_copies(function, is_alone(&order), copies, tables)?;
        Ok(linked)
    }

    /// The function of a program, with all functions that it reaches linked to it.
    fn link_program(
        &self,
        name: &str,
        program: &Program<'_>,
    ) -> Result<Function<'f>, EbpfRelocationError>
        requires { has_function self.now.functions (program.now.section_index, program.now.address)
            ≡ true }
        ensures linked { IfOk result (λ f.
            IsLinked self.now (program.now.section_index, program.now.address) f) }
        ensures sound { OnOk result
            (CanBeLinked self.now (program.now.section_index, program.now.address)) }
        ensures fault { IfErr result (λ e.
            e.error ≢ OutOfMemory
            → (option_map string_bytes e.function ≡ Some name.now)
            × HasLinkFault self.now (program.now.section_index, program.now.address) e.error) }
    {
        match self.link(program.function_key()) {
            Ok(function) => Ok(function),
            Err(error) => Err(EbpfRelocationError::new(self.alloc, name, error)),
        }
    }

    /// The functions of all programs, linked, in order of the programs' names.
    fn link_all(&self, programs: &Programs<'_>) -> Result<Vec<Function<'f>>, EbpfRelocationError>
        requires { HaveFunctions programs.now self.now.functions }
        ensures linked { IfOk result (λ list.
            AreLinkedTo self.now (program_keys programs.now) list.items) }
        ensures sound { OnOk result (AllCanBeLinked self.now (program_keys programs.now)) }
        ensures fault { IfErr result (λ e.
            e.error ≢ OutOfMemory
            → HasFaultOf self.now programs.now (option_map string_bytes e.function) e.error) }
    {
        let mut linked = Vec::new(self.alloc);
        for (name, program) in programs.iter() {
            let function = self.link_program(name, program)?;
            linked.push(function)?;
        }
        Ok(linked)
    }
}

/// Links to each program the functions that it reaches, taken from the current functions: copies of
/// them come after the program's own function, each once, and references point to the copies. The
/// records of the copied functions come with them. `text_sections` are the indexes of the sections
/// with functions. An error carries the program's name.
///
/// # Errors
///
/// `UnknownSymbol` for a reference to a symbol that can't stand for a function, `UnknownFunction`
/// for a reference to an address where no function begins, `FunctionInfoMismatch` for a function
/// whose records don't fit those of the program, `InvalidRelocationOffset` for a program of 2^31
/// slots or more, and `OutOfMemory`, also for more records than 32 bits count. The functions then
/// stay as they are.
pub fn relocate_calls<'f>(
    alloc: Global,
    file: &ObjectFile<'_>,
    programs: &Programs<'_>,
    functions: &mut Functions<'f>,
    text_sections: &BTreeSet<usize>,
) -> Result<(), EbpfRelocationError>
    requires { HaveFunctions programs.now functions.old }
    ensures linked { OnOk result
        (AreLinked (unlinked file.now text_sections.now.keys functions.old)
        (program_keys programs.now) functions.new) }
    ensures sound { OnOk result
        (AllCanBeLinked (unlinked file.now text_sections.now.keys functions.old)
        (program_keys programs.now)) }
    ensures fault { IfErr result (λ e.
        e.error ≢ OutOfMemory
        → HasFaultOf (unlinked file.now text_sections.now.keys functions.old) programs.now
        (option_map string_bytes e.function) e.error) }
    ensures unchanged { OnErr result (functions.new ≡ functions.old) }
{
    let linked = link_from(alloc, file, programs, functions, text_sections)?;
    functions.install(linked);
    Ok(())
}

/// The functions of all programs, linked, in order of the programs' names.
fn link_from<'f>(
    alloc: Global,
    file: &ObjectFile<'_>,
    programs: &Programs<'_>,
    functions: &Functions<'f>,
    text_sections: &BTreeSet<usize>,
) -> Result<Vec<Function<'f>>, EbpfRelocationError>
    requires { HaveFunctions programs.now functions.now }
    ensures linked { IfOk result (λ list.
        AreLinkedTo (unlinked file.now text_sections.now.keys functions.now)
        (program_keys programs.now) list.items) }
    ensures sound { OnOk result
        (AllCanBeLinked (unlinked file.now text_sections.now.keys functions.now)
        (program_keys programs.now)) }
    ensures fault { IfErr result (λ e.
        e.error ≢ OutOfMemory
        → HasFaultOf (unlinked file.now text_sections.now.keys functions.now) programs.now
        (option_map string_bytes e.function) e.error) }
{
    let source = Source {
        alloc,
        file,
        text_sections,
        functions,
    };
    source.link_all(programs)
}
