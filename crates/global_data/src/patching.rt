//! Writes of values into maps.

ghost use Rattle.std.specs.Prelude.{◌≡◌, ◌≢◌, None, IfErr, OnOk, OnErr, fold};
ghost use Rattle.ebpf_items.specs.declared.error.ParseError.TheVariants.{OutOfMemory};
ghost use Rattle.global_data.specs.GlobalData.{Says, extents, first_fault, patched, written};
ghost use Rattle.global_data.specs.Kept.{KeepBytes};
ghost use Rattle.global_data.specs.Writes.{Fit};

use crate::writes::{MapWrite, writes_of};
use ebpf_items::ParseError;
use object_file::ObjectFile;
use object_maps::Maps;
use settings::GlobalValues;
use std::alloc::Global;

/// Makes the writes into the maps, in order.
fn write_all(maps: &mut Maps<'_>, writes: &[MapWrite<'_, '_>])
    requires { Fit maps.old writes.now }
    ensures { maps.new ≡ fold written maps.old writes.now }
{
    for write in writes {
        maps.overwrite(write.map, write.start, write.bytes);
    }
}

/// Writes the values of global variables into the maps of an object. The symbol of a variable is
/// the one with its name; of several, the one with the greatest index. Its value is written into
/// the map of the symbol's section, from the symbol's address (`st_value`) on; where the section
/// has several maps, into the first by name. All other bytes stay, and where a value is refused all
/// maps stay. Every map keeps its name and its number of bytes in any case.
///
/// # Errors
///
/// The error of the first variable by name that has one: `SymbolNotFound` where no symbol has the
/// name and the object must have the variable; `InvalidGlobalData` where the value isn't as long as
/// the symbol's size (`st_size`), or the symbol's bytes lie outside the map's; `MapNotFound` where
/// no map is made of the symbol's section, with the section's index or 0; and `OutOfMemory`.
pub fn patch_map_data(
    alloc: Global,
    file: &ObjectFile<'_>,
    maps: &mut Maps<'_>,
    values: &GlobalValues,
) -> Result<(), ParseError>
    ensures patched { OnOk result (maps.new ≡ patched file.now maps.old values.now) }
    ensures sound { OnOk result (first_fault file.now maps.old values.now ≡ None) }
    ensures fault { IfErr result (λ e.
        e ≢ OutOfMemory → Says (first_fault file.now maps.old values.now) e) }
    ensures unchanged { OnErr result (maps.new ≡ maps.old) }
    ensures lengths { extents maps.new ≡ extents maps.old }
    ensures kept { KeepBytes file.now values.now maps.old maps.new }
{
    if values.is_empty() {
        return Ok(());
    }
    let writes = writes_of(alloc, file, maps, values)?;
    write_all(maps, &writes);
    Ok(())
}
