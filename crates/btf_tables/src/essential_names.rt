//! Names without their flavours.

ghost use Rattle.std.specs.Prelude.{◌≡◌};
ghost use Rattle.btf_tables.specs.EssentialNames.{essential_name};

/// A name without its flavour, which begins with `___`.
pub fn essential_name(name: &str) -> &str
    ensures { result.now ≡ essential_name name.now }
{
    match name.split_once("___") {
        Some((front, _flavour)) => front,
        None => name,
    }
}
