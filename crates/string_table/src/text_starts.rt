//! Strings in which a text begins at each byte.

ghost use Rattle.std.specs.Prelude.{◌≡◌, true};
ghost use Rattle.string_table.specs.FirstBytes.{AreTexts};

/// Whether a text is known to begin at each byte of these strings: they are ASCII, and end in a
/// NUL.
#[tactic(auto, using(crate::proofs::Beginnings::all_texts))]
pub fn are_texts(strings: &[u8]) -> bool
    ensures { result ≡ true → AreTexts strings.now }
{
    match strings.last() {
        Some(0) => strings.is_ascii(),
        _ => false,
    }
}
