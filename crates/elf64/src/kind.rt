//! What a symbol denotes.

/// What a symbol denotes, by its type (ELF-64 object file format, "Symbol Table", `st_info`).
#[derive(Clone, Copy, Debug, PartialEq, Eq)]
pub enum SymbolKind {
    /// `STT_NOTYPE`, or a type that has no kind here.
    Unknown,
    /// `STT_FUNC` or `STT_GNU_IFUNC`: executable code.
    Text,
    /// `STT_OBJECT` or `STT_COMMON`: a data object.
    Data,
    /// `STT_SECTION`: a section.
    Section,
    /// `STT_FILE`: the name of a source file.
    File,
    /// `STT_TLS`: thread-local data.
    Tls,
}
