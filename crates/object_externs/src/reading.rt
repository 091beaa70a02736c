//! Reading the externs of an object.

ghost use Rattle.std.specs.Prelude.{◌≡◌, ◌≢◌, if◌then◌else◌, IfErr, IfOk, IfSome, OnErr, OnOk};
ghost use Rattle.std.specs.Option.{IsSomeAnd, option_map, option_map_or};
ghost use Rattle.btf_records.specs.declared.error.BtfError.TheVariants as btf;
ghost use Rattle.btf_storage.specs.Faultless.{IsFaultless};
ghost use Rattle.btf_tables.specs.GrownTables.{TextsStay, TypesStay};
ghost use Rattle.ebpf_items.specs.declared.error.ParseError.TheVariants.{OutOfMemory};
ghost use Rattle.object_externs.specs.Externs.{externs_of, has_function};
ghost use Rattle.object_externs.specs.Faults.{ExternsFault};
ghost use Rattle.object_externs.specs.Placeholder.{with_placeholder};
ghost use Rattle.object_externs.specs.Types.{SaysOfTypes, completed, no_externs};

use crate::entries::{any_names_function, read_entries};
use crate::externs::Externs;
use crate::first_symbols::FirstSymbols;
use crate::placeholder::add_placeholder;
use crate::section::{ksyms_section, section_entries};
use btf_records::BtfError;
use btf_tables::Btf;
use ebpf_items::ParseError;
use object_file::ReadSymbol;
use std::alloc::Global;

/// The externs that are declared by the first section `.ksyms` of a table, for an object with these
/// symbols. If one of them is a function, a placeholder variable is added to the table. It replaces
/// functions when the section is rewritten. Existing types and strings of the table stay as they
/// are.
///
/// `InvalidStringOffset` where the name of a section before it, or of an extern, can't be read;
/// `UnknownBtfType` where no type has the id of an entry, or a type of the chain to an extern's
/// type is missing; `MaximumTypeDepthReached` where that chain is too long; `InvalidDatasec` where
/// an entry names neither a function nor a variable; `InvalidSymbolName` where no symbol has an
/// extern's name; `InvalidTypeInfo` where the size of the table overflows 32 bits.
pub fn read_externs<'a>(
    alloc: Global,
    symbols: &[ReadSymbol<'a>],
    table: &mut Btf<'a>,
) -> Result<Externs<'a>, BtfError>
    ensures value { IfOk result (λ externs. externs ≡ externs_of symbols.now table.old) }
    ensures table { OnOk result
        (table.new ≡ (if has_function table.old then with_placeholder table.old else table.old)) }
    ensures texts { OnOk result (TextsStay table.old table.new) }
    ensures types { OnOk result (TypesStay table.old table.new) }
    ensures refused { IfErr result (λ e. e ≢ btf.OutOfMemory → ExternsFault symbols.now table.old e) }
    ensures accepted { OnOk result (IsFaultless (ExternsFault symbols.now table.old)) }
    ensures err { OnErr result (table.new ≡ table.old) }
{
    let Some(section) = ksyms_section(table)? else {
        return Ok(Externs::none(alloc));
    };
    let entries = section_entries(alloc, table, section)?;
    let first = FirstSymbols::new(alloc, symbols)?;
    let by_name = read_entries(alloc, &first, table, entries.as_slice())?;
    if entries.is_empty() {
        return Ok(Externs::new(by_name, None));
    }
    let placeholder = if any_names_function(table, entries.as_slice()) {
        Some(add_placeholder(table)?)
    } else {
        None
    };
    Ok(Externs::new(by_name, Some((section, placeholder))))
}

/// The externs of a table; a placeholder is added to it where one is needed.
fn externs_of<'a>(
    alloc: Global,
    symbols: &[ReadSymbol<'a>],
    table: &mut Btf<'a>,
) -> Result<Externs<'a>, ParseError>
    ensures value { IfOk result (λ externs. externs ≡ externs_of symbols.now table.old) }
    ensures completed { OnOk result (table.new ≡ completed table.old) }
    ensures accepted { OnOk result (IsFaultless (ExternsFault symbols.now table.old)) }
    ensures refused { IfErr result (λ e.
        e ≢ OutOfMemory → SaysOfTypes (ExternsFault symbols.now table.old) e) }
{
    Ok(read_externs(alloc, symbols, table)?)
}

/// The externs that are declared in a table, if there is one, for an object with these symbols. A
/// placeholder is added to the table as [`read_externs`] does it.
///
/// `BtfError` with the error of [`read_externs`].
pub fn declared_externs<'a>(
    alloc: Global,
    symbols: &[ReadSymbol<'a>],
    table: &mut Option<Btf<'a>>,
) -> Result<Externs<'a>, ParseError>
    ensures value { IfOk result (λ externs.
        externs ≡ option_map_or (externs_of symbols.now) table.old no_externs) }
    ensures completed { OnOk result (table.new ≡ option_map completed table.old) }
    ensures accepted { OnOk result
        (IfSome table.old (λ t. IsFaultless (ExternsFault symbols.now t))) }
    ensures refused { IfErr result (λ e.
        e ≢ OutOfMemory → IsSomeAnd table.old (λ t. SaysOfTypes (ExternsFault symbols.now t) e)) }
{
    match table {
        Some(table) => externs_of(alloc, symbols, table),
        None => Ok(Externs::none(alloc)),
    }
}
