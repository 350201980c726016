//! Id files: read in pieces, judged line by line, and printed exactly.
//!
//! A file is bytes. A *line* ends before each LF; bytes behind the last LF are a last line. A line
//! is blank, an id, or bad: `specs/Grammar.antt` says which, and `specs/Lines.antt` what the
//! *records* and the *first fault* of a file are. `read_ids` gives exactly these, whatever the
//! pieces in which the bytes come, which is the crate's promise; `append_ids` puts the records
//! behind those of earlier files. The printing calls write one line each. The smallest use is the
//! test `reads_blanks_empty_lines_and_a_missing_last_lf`.
#![tactic(auto)]

mod digits;
mod fault;
mod front;
mod grammar;
mod id_record;
mod line;
mod plain;
mod print;
mod read;
mod scan;

pub use fault::IdFault;
pub use grammar::each_file_has_one_list_of_lines;
pub use id_record::IdRecord;
pub use print::{count_line, id_line, keep_line};
pub use read::{append_ids, read_ids};

#[cfg(test)]
mod tests;
