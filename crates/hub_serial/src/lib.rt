//! Jobs that start at any time: what they leave if those that clash don't overlap in time.
//!
//! The jobs of a safe set may all run at once, since no two of them clash. In any other set two jobs that clash may run one after
//! the other, each whenever it likes. This crate has no code: its [`laws`] are theorems about such runs.
//!
//! - `a_schedule_without_interleaving_is_serializable`: such a schedule leaves the world that the jobs leave one after another, in
//!   the order of their first turns. The same world means the same replicas, archives, logs, and items of jobs that are done.
//! - `any_order_of_the_jobs_will_do`: so it does in each order of the jobs in which those that clash come as in that one.
//! - `jobs_work_in_turn`, `jobs_synchronize_in_turn`: what a job that is done has left is one synchronization of what the jobs
//!   before it left.
//! - `waiting_for_clashing_jobs_is_enough`: jobs that clash don't overlap if a job starts only while none that clashes with it runs.
//!   In a safe set none needs to wait (`safe_sets_interleave_as_they_like`).
//! - `whenever_they_start_it_is_as_serial`: the same of what is known of threads afterwards: histories, logs, the order of starts,
//!   and the archive that each job was given.
//! - `edits_may_come_at_any_time`: the same, if people edit files meanwhile that no running job depends on.
//!
//! A job is a number, and has the profile of that number. A profile that is started again and again stands in the list once for
//! each start. Two of its jobs clash with each other, in the archive, as soon as it reaches a path.
//!
//! The words are those of `specs/World` (what a turn does), `specs/Clash` (which jobs clash), `specs/Schedule` (which schedules are
//! equivalent), `specs/Serial` (one synchronization after another), `specs/Starter` (who starts jobs), `specs/RunRecord` and
//! `specs/Started` (what is known afterwards), and `specs/Edits`.
//!
//! # What is proved
//!
//! - Turns of jobs that don't clash commute (`turns_commute`), so equivalent schedules leave the same world
//!   (`equivalent_schedules_leave_the_same`). The condition is needed: two starts of one profile that overlap may leave what no jobs
//!   one after another leave (`some_interleaving_is_not_serializable`).
//! - In a run without such overlaps nothing is refused to a job, whether it is done or not (`jobs_work_in_turn`). It is done if it
//!   had more than 4k + 3n turns, for k kept values and n entries in the two replicas that it found
//!   (`enough_turns_get_a_job_done`).
//! - A job may keep the archive that it found at its start (`a_job_may_keep_its_archive`), not one from before. Marks may be put in
//!   in any order of ends in which those that clash end as they started (`ends_may_come_in_any_order`).
//! - If histories and logs fit together, and each history has the entries of jobs that clash in the order of their starts, they are
//!   those of the jobs one after another (`histories_in_order_are_serial`). A starter that lets no job start beside one that it
//!   clashes with gives each job the archive that it has then, and leaves the archives that they leave
//!   (`a_starter_gives_what_is_due`). There are such runs (`there_are_settled_records`).
//! - With edits, a job that finds trees and is done has synchronized what the jobs and edits before it left
//!   (`jobs_work_in_turn_with_edits`).
//!
//! # What is not
//!
//! No program runs jobs so: `hub_runner` takes safe sets. That edits leave trees. Anything of nested roots: here each root is a
//! replica of its own.
#![tactic(auto)]

pub mod laws;
