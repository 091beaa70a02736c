//! Command lines in which several files may follow one `--types`, and several objects stand.

ghost use Rattle.std.specs.Prelude.{◌≡◌, ◌++◌, ◌+◌, false, map, IfOk, OnOk};
ghost use Rattle.std.specs.String.{string_bytes};
ghost use Rattle.command_line.specs.declared.several_types.WordPlace.TheVariants.{Free};
ghost use Rattle.command_line.specs.SpreadWords.{count_more, has_object, is_dashed, is_free_object, is_more, is_object, left_after, more_types, next_place, own_option, own_word, place_after, spread, takes_value, with_options};

use std::alloc::{AllocError, Global};

/// Where a word stands in a line.
#[derive(Clone, Copy, PartialEq, Eq)]
pub enum WordPlace {
    /// Where an option or the object stands.
    Free,
    /// After an option that takes one value.
    Value,
    /// After `--types`.
    Types,
    /// After a value of `--types`.
    MoreTypes,
    /// After `--`.
    Literal,
}

fn is_dashed(word: &str) -> bool
    ensures { result ≡ is_dashed word.now }
{
    word.starts_with("-")
}

/// Whether a word is an option that takes one value.
fn takes_value(word: &str) -> bool
    ensures { result ≡ takes_value word.now }
{
    word == "--types-order"
        || word == "--object"
        || word == "--symbols"
        || word == "--format"
        || word == "--optional"
        || word == "--extract"
        || word == "--program"
}

/// The place after a word that isn't the value of an option.
fn place_after(place: WordPlace, word: &str) -> WordPlace
    ensures { result ≡ place_after place word.now }
{
    if word == "--" {
        WordPlace::Literal
    } else if word == "--types" {
        WordPlace::Types
    } else if takes_value(word) {
        WordPlace::Value
    } else if is_dashed(word) {
        WordPlace::Free
    } else {
        place
    }
}

/// The place after a word at a place.
fn next_place(place: WordPlace, word: &str) -> WordPlace
    ensures { result ≡ next_place place word.now }
{
    match place {
        WordPlace::Free => place_after(WordPlace::Free, word),
        WordPlace::MoreTypes => place_after(WordPlace::MoreTypes, word),
        WordPlace::Types => WordPlace::MoreTypes,
        WordPlace::Value => WordPlace::Free,
        WordPlace::Literal => WordPlace::Literal,
    }
}

/// Whether a word names the object.
fn is_object(place: WordPlace, word: &str) -> bool
    ensures { result ≡ is_object place word.now }
{
    match place {
        WordPlace::Free => !is_dashed(word),
        WordPlace::Literal => true,
        WordPlace::Value | WordPlace::Types | WordPlace::MoreTypes => false,
    }
}

/// Whether a word names the object and stands before any `--`.
fn is_free_object(place: WordPlace, word: &str) -> bool
    ensures { result ≡ is_free_object place word.now }
{
    place == WordPlace::Free && !is_dashed(word)
}

/// Whether a word follows a value of `--types`.
fn is_more(place: WordPlace, word: &str) -> bool
    ensures { result ≡ is_more place word.now }
{
    match place {
        WordPlace::MoreTypes => !is_dashed(word),
        WordPlace::Free | WordPlace::Value | WordPlace::Types | WordPlace::Literal => false,
    }
}

/// Whether one of the words names the object.
fn has_object(words: &[String]) -> bool
    ensures { result ≡ has_object Free (map string_bytes words.now) }
{
    let mut place = WordPlace::Free;
    for word in words {
        if is_object(place, word) {
            return true;
        }
        place = next_place(place, word);
    }
    false
}

/// How many words follow a value of `--types`.
fn count_more(words: &[String]) -> usize
    ensures { result ≡ count_more Free (map string_bytes words.now) }
{
    let mut place = WordPlace::Free;
    let mut count: usize = 0;
    for word in words {
        if is_more(place, word) {
            count += 1;
        }
        place = next_place(place, word);
    }
    count
}

/// How many of them get a `--types` of their own.
fn more_types(words: &[String]) -> usize
    ensures { result ≡ more_types (map string_bytes words.now) }
{
    let count = count_more(words);
    if has_object(words) {
        count
    } else {
        count.saturating_sub(1)
    }
}

/// The option that a word gets before it.
#[derive(Clone, Copy, PartialEq, Eq)]
pub enum OwnOption {
    None,
    Types,
    Object,
}

/// The option that a word at a place gets, where `count` words more get `--types`, and where an
/// object stands before it or not.
fn own_option(place: WordPlace, word: &str, count: usize, has_object: bool) -> OwnOption
    ensures { result ≡ own_option place word.now count has_object }
{
    if count > 0 && is_more(place, word) {
        return OwnOption::Types;
    }
    if has_object && is_free_object(place, word) {
        return OwnOption::Object;
    }
    OwnOption::None
}

/// Adds a word, after the option that it gets.
fn add_word(
    alloc: Global,
    spread: &mut Vec<String>,
    word: &str,
    own: OwnOption,
) -> Result<(), AllocError>
    ensures { OnOk result
        (map string_bytes spread.new.items
        ≡ map string_bytes spread.old.items ++ own_word own word.now) }
{
    match own {
        OwnOption::Types => spread.push(String::from_str(alloc, "--types")?)?,
        OwnOption::Object => spread.push(String::from_str(alloc, "--object")?)?,
        OwnOption::None => {}
    }
    spread.push(String::from_str(alloc, word)?)?;
    Ok(())
}

/// How many words more get `--types` after a word that got this option.
fn left_after(left: usize, own: OwnOption) -> usize
    ensures { result ≡ left_after left own }
{
    match own {
        OwnOption::Types => left.saturating_sub(1),
        OwnOption::Object | OwnOption::None => left,
    }
}

/// Adds the words after the program's name, with `--types` before the first `count` of those that
/// follow a value of `--types`, and `--object` before the objects after the first.
fn add_words(
    alloc: Global,
    spread: &mut Vec<String>,
    words: &[String],
    count: usize,
) -> Result<(), AllocError>
    ensures { OnOk result
        (map string_bytes spread.new.items
        ≡ map string_bytes spread.old.items
        ++ with_options count false Free (map string_bytes words.now)) }
{
    let mut place = WordPlace::Free;
    let mut left = count;
    let mut has_object = false;
    for word in words {
        let own = own_option(place, word, left, has_object);
        add_word(alloc, spread, word, own)?;
        left = left_after(left, own);
        has_object = has_object || is_object(place, word);
        place = next_place(place, word);
    }
    Ok(())
}

/// The words of a command line of `inspect_object` in which several files may follow one `--types`,
/// and several objects stand, as words in which each of these files has a `--types` of its own, and
/// each object after the first an `--object`. The first word is the program's name.
///
/// The words after a value of `--types` belong to it up to the next word that begins with `-`.
/// Where no word stands elsewhere that names the object, the last of them names it. Words after `--`
/// get no option.
///
/// # Errors
///
/// `AllocError` where memory runs out.
pub fn spread_words(alloc: Global, words: &[String]) -> Result<Vec<String>, AllocError>
    ensures { IfOk result (λ new.
        map string_bytes new.items ≡ spread (map string_bytes words.now)) }
{
    let mut spread = Vec::new(alloc);
    let Some((program, rest)) = words.split_first() else {
        return Ok(spread);
    };
    add_word(alloc, &mut spread, program, OwnOption::None)?;
    add_words(alloc, &mut spread, rest, more_types(rest))?;
    Ok(spread)
}
