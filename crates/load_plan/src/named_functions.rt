//! Function records whose types aren't functions.

ghost use Rattle.std.specs.Prelude.{◌≡◌, ◌==◌, false, true, is_none, not, Some, IfSome};
ghost use Rattle.std.specs.List.{list_any};
ghost use Rattle.std.specs.Option.{option_copied};
ghost use Rattle.load_plan.specs.NamedFunctions.{all_named, is_named_function, keeps_nameless, keeps_type, names_function, IsNameless};

use btf_ext::FuncSecInfo;
use btf_records::BtfKind;
use btf_tables::Btf;
use object_parts::{Function, Functions};

/// Whether the type with an id is a function whose name can be read.
fn names_function(table: Option<&Btf<'_>>, type_id: u32) -> bool
    ensures { result ≡ names_function (option_copied table.entry) type_id }
{
    let Some(table) = table else {
        return false;
    };
    let Ok(t) = table.type_by_id(type_id) else {
        return false;
    };
    matches!(t.kind(), BtfKind::Func) && table.string_at(t.name_offset()).is_ok()
}

/// The type of the first record that doesn't name a function.
fn nameless_type(table: Option<&Btf<'_>>, records: &FuncSecInfo<'_>) -> Option<u32>
    ensures none { is_none result
        ≡ not
        (list_any (λ r. not (names_function (option_copied table.entry) r.type_id)) records.now) }
    ensures kept { IfSome result (λ id. list_any (λ r. r.type_id == id) records.now ≡ true) }
    ensures nameless { IfSome result (λ id. names_function (option_copied table.entry) id ≡ false) }
{
    let mut index = 0;
    while let Some(record) = records.get(index) {
        if !names_function(table, record.type_id) {
            return Some(record.type_id);
        }
        index += 1;
    }
    None
}

/// A function's name, and the type of its first record that doesn't name a function.
#[tactic(auto, unfolding(crate::specs::NamedFunctions::keeps_type))]
fn nameless_in<'a>(table: Option<&Btf<'_>>, function: &Function<'a>) -> Option<(&'a str, u32)>
    ensures none { is_none result ≡ not (keeps_nameless (option_copied table.entry) function.now) }
    ensures kept { IfSome result (λ r. keeps_type r.0.now r.1 function.now ≡ true) }
    ensures nameless { IfSome result (λ r. names_function (option_copied table.entry) r.1 ≡ false) }
{
    let type_id = nameless_type(table, &function.func_info)?;
    Some((function.name, type_id))
}

/// The name of the first function, in order of section and address, that keeps a record whose type
/// isn't a function with a name, and that type; `None` where each kept record names a function.
/// Takes no memory.
pub fn nameless_record<'f, 'a>(
    table: Option<&Btf<'_>>,
    functions: &'f Functions<'a>,
) -> Option<(&'a str, u32)>
    ensures none { is_none result ≡ all_named (option_copied table.entry) functions.now }
    ensures nameless { IfSome result (λ r.
        IsNameless (option_copied table.entry) functions.now r.0.now r.1) }
{
    for (_key, function) in functions.iter() {
        if let Some(found) = nameless_in(table, function) {
            return Some(found);
        }
    }
    None
}
