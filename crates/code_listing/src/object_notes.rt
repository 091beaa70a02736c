//! What an object says about the slots of a program.

use ebpf_items::Slots;
use object_parts::Function;
use plan_copies::{FunctionCopy, FunctionKey, ObjectFunctions, copies_of};
use std::alloc::{AllocError, Global};
use std::collections::BTreeMap;

/// What the type relocations of an object ask for, as text: by the section's index and the address
/// of the function, and the index of the slot in the function.
pub type AskedAt<'o> = BTreeMap<(usize, u64, usize), &'o str>;

/// What an object says about the slots of a program.
#[derive(Debug)]
pub struct ProgramNotes<'o> {
    /// The names of the functions, by the slot at which the copy of each begins.
    pub(crate) functions: BTreeMap<usize, &'o str>,
    /// What type relocations ask for, by the slot of their instruction.
    pub(crate) asked: BTreeMap<usize, &'o str>,
    /// The names of the externs whose addresses are loaded, by the slot of the load.
    pub(crate) externs: BTreeMap<usize, &'o str>,
}

impl<'o> Drop for ProgramNotes<'o> {
    // One call wherever it is dropped, in place of one for each part.
    fn drop(self) {
        let ProgramNotes {
            functions: _functions,
            asked: _asked,
            externs: _externs,
        } = self;
    }
}

/// The functions of an object, and what its type relocations ask for.
#[derive(Clone, Copy)]
pub struct ObjectCode<'c, 'o, 'a> {
    pub functions: ObjectFunctions<'c, 'o>,
    /// What its type relocations ask for.
    pub asked: &'c AskedAt<'a>,
}

/// The name of the symbol of the relocation of a function's slot, if the object doesn't define it.
fn extern_at<'c>(
    object: ObjectFunctions<'c, '_>,
    function: &Function<'_>,
    index: usize,
) -> Option<&'c str> {
    let offset = function.section_offset.checked_add(index.checked_mul(8)?)?;
    let relocation = object
        .file
        .relocation_at(function.section_index, offset as u64)?;
    let symbol = object.file.symbol_at(relocation.symbol()?)?;
    match symbol.view().section_index() {
        Some(_section) => None,
        None => Some(symbol.name()),
    }
}

/// Notes the function of a copy, and the externs that its slots load.
fn note_function<'c>(
    object: ObjectFunctions<'c, '_>,
    copy: &FunctionCopy,
    notes: &mut ProgramNotes<'c>,
) -> Result<(), AllocError> {
    let Some(function) = object.functions.get(copy.key) else {
        return Ok(());
    };
    notes.functions.insert(copy.start, function.name)?;
    for index in 0..copy.len {
        if let Some(name) = extern_at(object, function, index) {
            notes
                .externs
                .insert(copy.start.saturating_add(index), name)?;
        }
    }
    Ok(())
}

/// Notes the function of a copy, its externs, and what its type relocations ask for.
fn note_copy<'c>(
    code: ObjectCode<'c, '_, '_>,
    copy: &FunctionCopy,
    notes: &mut ProgramNotes<'c>,
) -> Result<(), AllocError> {
    note_function(code.functions, copy, notes)?;
    let (section, address) = copy.key;
    for index in 0..copy.len {
        if let Some(text) = code.asked.get(&(section, address, index)) {
            notes.asked.insert(copy.start.saturating_add(index), *text)?;
        }
    }
    Ok(())
}

/// What an object says about the slots of a program that was linked from its functions, given the
/// key of the program's own function.
///
/// # Errors
///
/// `AllocError` where memory runs out.
pub fn program_notes<'c>(
    alloc: Global,
    code: ObjectCode<'c, '_, '_>,
    own: FunctionKey,
    slots: &Slots<'_>,
) -> Result<ProgramNotes<'c>, AllocError> {
    let mut notes = ProgramNotes {
        functions: BTreeMap::new(alloc),
        asked: BTreeMap::new(alloc),
        externs: BTreeMap::new(alloc),
    };
    let copies = copies_of(alloc, code.functions, own, slots)?;
    for copy in &copies {
        note_copy(code, copy, &mut notes)?;
    }
    Ok(notes)
}
