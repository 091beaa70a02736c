//! The types of an object: the table of `.BTF`, the records of `.BTF.ext` and the externs.

ghost use Rattle.std.specs.Prelude.{◌≡◌, ◌≢◌, codes, Some, IfErr, IfOk, OnOk};
ghost use Rattle.ebpf_items.specs.declared.error.ParseError.TheVariants.{OutOfMemory};
ghost use Rattle.object_externs.specs.Types.{HoldsTypes};
ghost use Rattle.object_file.specs.Faults.{HasSoundFirst};
ghost use Rattle.object_contents.specs.Faults.{HasFileOrObjectFault};
ghost use Rattle.object_contents.specs.Types.{AreTypesOf};
ghost use Rattle.object_contents.specs.Types.{HoldsRecords};

use btf_ext::BtfExt;
use btf_tables::Btf;
use ebpf_items::ParseError;
use object_externs::{Externs, declared_externs};
use object_file::OpenedFile;
use std::alloc::Global;

/// The types of an object, completed for its externs, the records of `.BTF.ext`, and the externs.
#[derive(Drop)]
pub struct Types<'a> {
    /// The table of the section `.BTF`, with a placeholder for externs that are functions.
    pub table: Option<Btf<'a>>,
    /// The records of the section `.BTF.ext`.
    pub extension: Option<BtfExt<'a>>,
    /// The externs, by name.
    pub externs: Externs<'a>,
}

/// The table of the section `.BTF`, if there is one.
fn read_table<'a>(alloc: Global, file: &OpenedFile<'a>) -> Result<Option<Btf<'a>>, ParseError>
    ensures holds { IfOk result (λ table. HoldsTypes file.now table) }
    ensures first { OnOk result (HasSoundFirst file.now (codes ".BTF")) }
    ensures refused { IfErr result (λ e. e ≢ OutOfMemory → HasFileOrObjectFault file.now e) }
{
    match file.types()? {
        Some(bytes) => Ok(Some(Btf::parse(alloc, bytes, file.endianness())?)),
        None => Ok(None),
    }
}

/// The records of the section `.BTF.ext` for a table, if there is that section.
fn extension_of<'a>(
    alloc: Global,
    file: &OpenedFile<'a>,
    table: &Btf<'a>,
) -> Result<Option<BtfExt<'a>>, ParseError>
    requires { HoldsTypes file.now (Some table.now) }
    ensures holds { IfOk result (λ extension. HoldsRecords file.now (Some table.now) extension) }
    ensures refused { IfErr result (λ e. e ≢ OutOfMemory → HasFileOrObjectFault file.now e) }
{
    match file.extension()? {
        Some(bytes) => {
            let extension = BtfExt::parse(alloc, bytes, file.endianness(), table)?;
            Ok(Some(extension))
        }
        None => Ok(None),
    }
}

/// The records of the section `.BTF.ext`, if there are both that section and types.
fn read_extension<'a>(
    alloc: Global,
    file: &OpenedFile<'a>,
    table: &Option<Btf<'a>>,
) -> Result<Option<BtfExt<'a>>, ParseError>
    requires { HoldsTypes file.now table.now }
    ensures holds { IfOk result (λ extension. HoldsRecords file.now table.now extension) }
    ensures refused { IfErr result (λ e. e ≢ OutOfMemory → HasFileOrObjectFault file.now e) }
{
    match table {
        Some(table) => extension_of(alloc, file, table),
        None => Ok(None),
    }
}

/// The types of a file: first the table, then the records of `.BTF.ext`, then the externs.
///
/// # Errors
///
/// Those of the file's sections `.BTF` and `.BTF.ext`, `BtfError` where the types, the records or the
/// externs can't be read or don't fit the object, and `OutOfMemory`.
pub fn read_types<'a>(alloc: Global, file: &OpenedFile<'a>) -> Result<Types<'a>, ParseError>
    ensures value { IfOk result (λ types.
        AreTypesOf file.now types.table types.extension types.externs) }
    ensures first { OnOk result (HasSoundFirst file.now (codes ".BTF")) }
    ensures refused { IfErr result (λ e. e ≢ OutOfMemory → HasFileOrObjectFault file.now e) }
{
    let mut table = read_table(alloc, file)?;
    let extension = read_extension(alloc, file, &table)?;
    let externs = declared_externs(alloc, file.symbols(), &mut table)?;
    Ok(Types {
        table,
        extension,
        externs,
    })
}
