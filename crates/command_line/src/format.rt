//! The formats of reports.

ghost use Rattle.std.specs.Prelude.{◌≡◌};
ghost use Rattle.std.specs.Option.{option_map};
ghost use Rattle.command_line.specs.InspectLine.{format_named};

/// A format of reports on kernels.
#[derive(Clone, Copy, Debug, PartialEq, Eq)]
pub enum Format {
    /// Lines for tools, kernel by kernel.
    Lines,
    /// A table for a person, a column a kernel.
    Table,
    /// One JSON document.
    Json,
}

/// The format with a name. Without a name it is a table where a summary is asked for.
pub(crate) fn format_of(summary: bool, name: Option<&str>) -> Option<Format>
    ensures { result ≡ format_named summary (option_map (λ name. name.now) name.entry) }
{
    match name {
        Some("table") => Some(Format::Table),
        Some("json") => Some(Format::Json),
        Some(_) => Some(Format::Lines),
        None if summary => Some(Format::Table),
        None => None,
    }
}
