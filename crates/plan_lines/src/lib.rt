//! The lines of a load plan's text.
#![tactic(auto)]

mod error;
mod kind_reading;
mod limits;
mod line;
mod line_reading;
mod map_words;
mod program_kind;
mod values;
mod word_writing;
mod words;

pub use error::LineError;
pub use limits::{bytes_fit, name_fits, words_fit};
pub use line::{MapLine, PlanLine, TextVersion};
pub use line_reading::{lines_are_told_apart, lines_are_unbroken, read_line};
pub use map_words::{MapWords, numbers_of};
pub use program_kind::{KindNumbers, kind_numbers};
pub use values::{answer_word, are_words_of, feature_word};
pub use word_writing::{
    send_bytes, send_decimal, send_form, send_numbers, send_slots, send_tables, send_types,
    send_version,
};
pub use words::cut_at;
