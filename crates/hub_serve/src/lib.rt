//! What hubsync does between the words on its command line and its exit status, over any reader and writer.
//!
//! - [`serve_process`] is all of it, from the words as the process got them. [`serve`] begins with words that were read.
//!   [`serve_and_tell`] also returns what was answered, as a value for remarks.
//!
//! ```rust
//! let words: Vec<&str> = words.split(' ').collect(rt.alloc())?;
//! let mut input = Watched::new(input);
//! let mut output = Watched::new(output);
//! Ok(serve(rt, words.as_slice(), &mut input, &mut output, &NoProgress))
//! ```
//!
//! From `test_serve/src/shown.rt`.
//!
//! - The words are read by `hub_cli`. The input is read by `hub_bundle`, with all of its sections (`answer`).
//! - By `--unison` a check, what clashes and rounds are answered of the profiles as Unison may run them (`unison`): `hub_apart` searches
//!   each two near ones and each with the rules, and what is answered of their lines is in `unison_clashes`. For `reach` and `import`
//!   the readings of `hub_unison` stand in the place of a bundle's profiles (`reading`).
//! - The set of the profiles and rules is made, and is checked or its certificates are verified (`task`, `verdict`); or one
//!   profile is asked whether it reaches a path (`reach`).
//! - Or all that clashes in the set is listed or drawn, or it is cut into rounds (`rounds`). Or a bundle is written of what was read
//!   for Unison (`import`).
//! - Or a plan is made of Unison's runs. What it takes of the sections is in `taken`: there a faulty profile keeps no other from being
//!   read. How it goes on is in `plan`, and in `alone` for rounds beside which such a profile runs alone.
//! - Or lines are found that make the set safe (`hub_mend`), and the bundle with them is read again and checked (`mend`), by
//!   `--unison` as `check --unison` does (`mend_in_unison`).
//! - The jobs of a safe set are run on the bundle's state (`run`), or the rounds of a set are run one after another
//!   (`by_rounds`), or the jobs of any set as if one after another (`in_order`).
//! - The answer is a `Report` of `hub_report`. It is written as one line, as the certificates' text, or as `safe` and below it
//!   what the jobs did and the state that they left (`program`).
//!
//! The contracts use the words of `specs/Serves` (what the program does as a whole), `specs/Told` (which answer is right),
//! `specs/Shown` (what a first line shows), `specs/Reads` (the reads of the input), `specs/Unison` (what is spelled if the profiles
//! are read for Unison), `specs/InUnison` (what is answered of them as Unison may run them), `specs/Mended` (what is spelled with lines that were found), `specs/Plans` (what a plan says), `specs/Task` (what is to be done), `specs/Runs`
//! (what is written of a run), `specs/ByRounds` (what a run by rounds does and leaves), `specs/InOrder` (what a run in order does and leaves) and `specs/Rounds` (what is written of
//! clashes and rounds).
//!
//! Only functions that return a `Result` or a `Report`, or write an answer, allocate.
//!
//! # What is proved
//!
//! - For readers and writers whose bytes a contract can name, [`serve`] and [`serve_process`] keep `ServesInFull`: what is written is
//!   true of the words and of what the input spells, for each answer. `Serves` is the part of it that says what a first line means. docs/GUARANTEES.md has what this says.
//! - For every reader: the answer is `ReadFailed` only if a read failed. If one failed, it is that or out of memory. It is
//!   `TurnsSpent` only if the reads are spent. Each other answer but out of memory comes only if a read met the end.
//!
//! # What is not
//!
//! That `fault: a round was not verified` never comes. The lines on standard error are tested.
#![tactic(auto)]

mod alone;
mod answer;
mod by_rounds;
mod import;
mod in_order;
pub mod laws;
mod mend;
mod mend_in_unison;
mod plan;
mod plan_question;
mod program;
mod progress;
mod reach;
mod reading;
mod rounds;
mod run;
mod taken;
mod task;
mod unison;
mod unison_clashes;
mod unison_question;
mod verdict;

pub use program::{Served, serve, serve_and_tell, serve_process};
pub use progress::{NoProgress, Progress};
