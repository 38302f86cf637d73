//! What the programs `test_*` share: how a table of questions is read and answered, in one dialect.
//!
//! - [`answer_questions`] reads the table on standard input, and answers its questions by a function. [`answer_table`] does so by an
//!   [`Answers`], where lines give something to the questions below them. A program that needs threads takes the lines itself, by
//!   [`for_each_line`], and gives each to its [`Cases`].
//! - [`cut`], [`first`], [`two`] and [`three`] split a question; [`bytes_of`], [`text_of`], [`character_of`], [`path_of`] and
//!   [`contents_of`] read a field, and [`only_character`] a text.
//! - [`answers_to_steps`] answers steps, one after another. What takes them is a [`Subject`].
//! - [`yes_or_no`], [`shown`], [`quoted`], [`in_one_line`], [`outcome_text`], [`answer_or_fault`] and [`digit`] write answers,
//!   and [`list_text`], [`list_of`] and [`joined`] those of several parts.
//!
//! A case is a line `QUESTION => ANSWER`. Further lines of its answer stand below it, each behind `| `. A program writes
//! `QUESTION => ANSWER` for each question that it answers otherwise, and at last how many are answered as the table says: this
//! number is all of the file `stdout`.
//!
//! A question is a word and fields. Fields are separated by ` | `, and steps or lines within a field by `; `. Empty lines are
//! skipped, and so are those that begin with `#`. A question that can't be read ends the program with an error.
//!
//! In a question `<61 a>` stands for 61 times `a`, `<170 U+4E00>` for 170 characters from U+4E00 on, and `<>` for nothing. One
//! may contain another. A field whose bytes matter is read with these escapes:
//!
//! | Escape | What it stands for |
//! |---|---|
//! | `\n`, `\r`, `\t`, `\0` | LF, CR, a tab, NUL |
//! | `\s` | a space, where one can't be seen: at the start or the end |
//! | `\\` | `\` |
//! | `\xff` | the byte with these two hexadecimal digits |
//!
//! The tables are data, so no proof depends on them.
//!
//! # What is proved
//!
//! That no call fails but by an error.
//!
//! # What is not
//!
//! What is answered: the gate runs each program, as both compilers built it, and compares.
#![tactic(auto)]

mod answers;
mod escapes;
mod fields;
mod shorthand;
mod steps;
mod table;

pub use answers::{
    answer_or_fault, digit, in_one_line, joined, list_of, list_text, outcome_text, quoted, shown,
    word_of, yes_or_no,
};
pub use escapes::{bytes_of, text_of};
pub use fields::{character_of, contents_of, cut, first, only_character, path_of, three, two};
pub use steps::{Subject, answers_to_steps};
pub use table::{Answers, Cases, answer_questions, answer_table, for_each_line};
