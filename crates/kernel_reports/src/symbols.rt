//! Kernel symbols that are assumed.

ghost use Rattle.std.specs.Prelude.{◌≡◌, ◌++◌, true, IfOk, OnOk};
ghost use Rattle.std.specs.String.{string_bytes};
ghost use Rattle.kernel_reports.specs.Symbols.{IsAssumed, IsPlainName, IsPlainWord, assumed_line, is_assumed, is_needed, is_one_word, line_of};

use object_externs::{ExternDesc, Externs};
use std::alloc::{AllocError, Global};

/// Whether an extern must be found among the kernel's symbols.
fn is_needed(desc: &ExternDesc<'_>) -> bool
    ensures { result ≡ is_needed desc.now }
{
    desc.type_id.is_none() && !desc.is_weak
}

/// Whether a name can be in a line of symbols, whose words end at white space.
fn is_one_word(name: &str) -> bool
    ensures value { result ≡ is_one_word name.now }
    ensures plain { result ≡ true → IsPlainWord name.now }
{
    !name.is_empty() && !name.chars().any(|letter| letter.is_whitespace())
}

/// Adds the line that gives a name the address 1.
fn add_line(text: &mut String, name: &str) -> Result<(), AllocError>
    ensures { OnOk result (string_bytes text.new ≡ string_bytes text.old ++ line_of name.now) }
{
    text.push_str("1 T ")?;
    text.push_str(name)?;
    text.push_str("\n")?;
    Ok(())
}

/// Adds the line of an extern, if it has one.
fn add_extern(text: &mut String, name: &str, desc: &ExternDesc<'_>) -> Result<(), AllocError>
    ensures line { OnOk result
        (string_bytes text.new ≡ string_bytes text.old ++ assumed_line (name.now, desc.now)) }
    ensures plain { OnOk result (IsPlainName (name.now, desc.now)) }
{
    if is_needed(desc) && is_one_word(name) {
        add_line(text, name)?;
    }
    Ok(())
}

/// A text of symbols with an address for each extern that must be found there and whose name is one
/// word.
///
/// # Errors
///
/// `AllocError` where memory runs out.
pub fn assumed_symbols(alloc: Global, externs: &Externs<'_>) -> Result<String, AllocError>
    ensures { IfOk result (λ text. IsAssumed externs.now.by_name (string_bytes text)) }
{
    let mut text = String::new(alloc);
    for (name, desc) in externs.iter() {
        add_extern(&mut text, name, desc)?;
    }
    Ok(text)
}
