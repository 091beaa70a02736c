//! Texts of reports about an object on kernels: names and words.
#![tactic(auto)]

mod columns;
mod helper_names;
mod needs;
mod object_cause;
mod rows;
mod texts;

pub use columns::{
    Column, ColumnAnswer, ColumnPlan, ColumnReport, has_unknown_symbol, is_unknown_symbol,
};
pub use helper_names::HelperNames;
pub use needs::{
    SourceText, TargetWord, attach_word, cause_word, is_helper, is_later_kind, kind_word,
    need_word, optional_word, reach_word, reached_word,
};
pub use rows::{
    ExternKind, ExternRow, MapRow, ProgramRow, RelocationRow, Rows, relocation_rows, rows_of,
};
pub use texts::{
    AnswerCell, AnswerWords, extern_kind_word, poison_cell_suffix, poison_suffix, presence_word,
};
