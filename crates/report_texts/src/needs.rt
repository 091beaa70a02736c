//! Texts on what a kernel must have, and on calls that it doesn't take.

ghost use Rattle.std.specs.Prelude.{◌≡◌};
ghost use Rattle.report_texts.specs.Words.{attach_word, cause_word, is_helper, is_later_kind, kind_word, need_word, optional_word, reach_word, reached_word};

use btf_records::BtfKind;
use kernel_reports::{
    Attachment, CallCause, MISSING_FUNCTION, POISON, Presence, Reach, SourceLine, TargetNeed,
};
use quoting::{QuotedText, Text};
use std::fmt;

/// Whether a kernel has something.
pub fn need_word(presence: Presence) -> &'static str
    ensures { result.now ≡ need_word presence }
{
    match presence {
        Presence::Found => "yes",
        Presence::Missing => "missing",
        Presence::Unknown => "unknown",
    }
}

/// Whether a kernel has something that a program may not need.
pub fn optional_word(presence: Option<Presence>) -> &'static str
    ensures { result.now ≡ optional_word presence }
{
    match presence {
        Some(presence) => need_word(presence),
        None => "-",
    }
}

/// Whether a kernel has what a program is attached to once it is loaded.
pub fn attach_word(attachment: Attachment) -> &'static str
    ensures { result.now ≡ attach_word attachment }
{
    match attachment {
        Attachment::NotNamed => "-",
        Attachment::Found => "yes",
        Attachment::Variant => "variant",
        Attachment::Missing => "missing",
        Attachment::Unknown => "unknown",
    }
}

/// Whether the number in a call is that of a helper, and stands neither for poison nor for a
/// missing function.
pub fn is_helper(number: i32) -> bool
    ensures { result ≡ is_helper number }
{
    number != POISON && number < MISSING_FUNCTION
}

/// The id of what a program is attached to, or a word.
#[derive(Clone, Copy)]
pub struct TargetWord(pub TargetNeed);

impl fmt::Display for TargetWord {
    fn fmt<W: fmt::Write>(&self, f: &mut fmt::Formatter<W>) -> fmt::Result {
        match self.0 {
            TargetNeed::NotNamed => write!(f, "-"),
            TargetNeed::Found(id) => write!(f, "{id}"),
            TargetNeed::Missing => write!(f, "missing"),
            TargetNeed::Unknown => write!(f, "unknown"),
        }
    }
}

/// Why a kernel doesn't take a call, in one word.
pub fn cause_word(cause: CallCause) -> &'static str
    ensures { result.now ≡ cause_word cause }
{
    match cause {
        CallCause::Poison => "poison",
        CallCause::MissingFunction => "missing-function",
        CallCause::MissingHelper { .. } => "missing-helper",
    }
}

/// Whether a run can reach a call.
pub fn reached_word(is_reached: bool) -> &'static str
    ensures { result.now ≡ reached_word is_reached }
{
    if is_reached { "reached" } else { "cut-off" }
}

/// Whether a run can reach poison.
pub fn reach_word(reach: Reach) -> &'static str
    ensures { result.now ≡ reach_word reach }
{
    match reach {
        Reach::Reached => reached_word(true),
        Reach::CutOff => reached_word(false),
    }
}

/// The least number of a kind of records that the first version of BTF lacks.
const FIRST_LATER_KIND: u8 = 12;

/// Whether the first version of BTF lacks a kind of records.
pub fn is_later_kind(kind: BtfKind) -> bool
    ensures { result ≡ is_later_kind kind }
{
    kind as u8 >= FIRST_LATER_KIND
}

/// The name of a kind of records, as the kernel's `BTF_KIND_` values have it.
pub fn kind_word(kind: BtfKind) -> &'static str
    ensures { result.now ≡ kind_word kind }
{
    match kind {
        BtfKind::Unknown => "UNKN",
        BtfKind::Int => "INT",
        BtfKind::Ptr => "PTR",
        BtfKind::Array => "ARRAY",
        BtfKind::Struct => "STRUCT",
        BtfKind::Union => "UNION",
        BtfKind::Enum => "ENUM",
        BtfKind::Fwd => "FWD",
        BtfKind::Typedef => "TYPEDEF",
        BtfKind::Volatile => "VOLATILE",
        BtfKind::Const => "CONST",
        BtfKind::Restrict => "RESTRICT",
        BtfKind::Func => "FUNC",
        BtfKind::FuncProto => "FUNC_PROTO",
        BtfKind::Var => "VAR",
        BtfKind::DataSec => "DATASEC",
        BtfKind::Float => "FLOAT",
        BtfKind::DeclTag => "DECL_TAG",
        BtfKind::TypeTag => "TYPE_TAG",
        BtfKind::Enum64 => "ENUM64",
    }
}

/// The file and the number of a source line, and its text without the spaces around it.
#[derive(Clone, Copy)]
pub struct SourceText<'t>(pub SourceLine<'t>);

impl<'t> fmt::Display for SourceText<'t> {
    fn fmt<W: fmt::Write>(&self, f: &mut fmt::Formatter<W>) -> fmt::Result {
        let file = Text::of(self.0.file.unwrap_or("-"));
        let line = self.0.line;
        match self.0.text {
            Some(text) => write!(f, "{file}:{line} {}", QuotedText(text.trim())),
            None => write!(f, "{file}:{line}"),
        }
    }
}
