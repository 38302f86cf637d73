//! Jobs that run at the same time.

use crate::crowd::Crowd;
use crate::inside::Inside;
use crate::meeting::{Meeting, Point};
use crate::row::Row;
use crate::watch::Watch;
use anyhow::{Result, bail};
use hub_cert::{ProfileSet, Verified};
use hub_history::Gate;
use hub_runner::run;
use hub_schedule::{cycles_for, simulate};
use hub_state::State;
use std::alloc::Global;
use std::sync::Wait;
use std::thread::Threads;
use test_cases::{Case, left_text, outcome_text, verified_of};
use test_kit::cut;

/// A question about jobs that run at the same time.
#[derive(Clone, Copy)]
pub(crate) struct Run {
    asked: Asked,
    /// How many workers run the jobs.
    workers: usize,
}

/// What is asked.
#[derive(Clone, Copy)]
enum Asked {
    /// What the jobs leave, or why they aren't run.
    Once,
    /// Whether so many runs leave what the jobs leave in cycles. If one doesn't, what it leaves.
    Often { count: usize },
    /// How many of two jobs come to their first steps, how many of them wait for the other one in vain, and what they leave.
    Meeting { point: Point },
    /// How many of two jobs are within their first steps at the same time at most, and what they leave.
    Inside,
    /// How many jobs make a step at the same time at most, and what the jobs leave.
    Crowd,
    /// How many steps a job makes in a row at most, and what the jobs leave.
    InARow,
    /// How a gate is called, and what the jobs leave.
    Watched,
}

impl Run {
    /// Reads a question. Its last field is how many workers there are.
    pub(crate) fn read(word: &str, fields: &str) -> Result<Run> {
        let (first, second) = cut(fields);
        let workers = if second.is_empty() { first } else { second };
        Ok(Run {
            asked: Asked::read(word, first)?,
            workers: workers.parse::<usize>()?,
        })
    }
}

impl Asked {
    fn read(word: &str, field: &str) -> Result<Asked> {
        match word {
            "run" => Ok(Asked::Once),
            "runs" => Ok(Asked::Often {
                count: field.parse::<usize>()?,
            }),
            "meet" => Ok(Asked::Meeting {
                point: Point::read(field)?,
            }),
            "inside" => Ok(Asked::Inside),
            "crowd" => Ok(Asked::Crowd),
            "row" => Ok(Asked::InARow),
            "watch" => Ok(Asked::Watched),
            _ => bail!("no question: {word}"),
        }
    }
}

/// A gate that does nothing.
struct Open;

impl Gate for Open {
    fn before(&self, _job: usize, _step: usize) {}

    fn within(&self, _job: usize) {}

    fn after(&self, _job: usize, _step: usize) {}

    fn ended(&self, _job: usize) {}
}

/// The answer to a question about what was given.
pub(crate) fn answer<R: Threads + Wait + Sync>(rt: &R, case: &Case, asked: Run) -> Result<String> {
    let set = case.set()?;
    answer_of_set(rt, case, &set, asked)
}

fn answer_of_set<R: Threads + Wait + Sync>(
    rt: &R,
    case: &Case,
    set: &ProfileSet,
    asked: Run,
) -> Result<String> {
    let state = case.state()?;
    answer_of_state(rt, case.alloc(), set, &state, asked)
}

fn answer_of_state<R: Threads + Wait + Sync>(
    rt: &R,
    alloc: Global,
    set: &ProfileSet,
    state: &State,
    Run { asked, workers }: Run,
) -> Result<String> {
    let verified = verified_of(alloc, set)?;
    let jobs = Jobs {
        rt,
        alloc,
        verified: &verified,
        state,
        workers,
    };
    jobs.answer(asked)
}

/// The jobs of a safe set, and what runs them.
#[derive(Drop)]
struct Jobs<'a, 's, R> {
    rt: &'a R,
    alloc: Global,
    verified: &'a Verified<'s>,
    state: &'a State,
    workers: usize,
}

impl<'a, 's, R: Threads + Wait + Sync> Jobs<'a, 's, R> {
    fn answer(&self, asked: Asked) -> Result<String> {
        match asked {
            Asked::Once => self.run_text(&Open),
            Asked::Often { count } => self.runs_text(count),
            Asked::Meeting { point } => self.meeting_text(point),
            Asked::Inside => self.inside_text(),
            Asked::Crowd => self.crowd_text(),
            Asked::InARow => self.row_text(),
            Asked::Watched => self.watched_text(),
        }
    }

    /// What the jobs leave, or why they aren't run.
    fn run_text<G: Gate + Sync>(&self, gate: &G) -> Result<String> {
        let left = run(
            self.rt,
            self.alloc,
            self.verified,
            self.state,
            self.workers,
            gate,
        );
        left_text(self.alloc, &left)
    }

    fn runs_text(&self, count: usize) -> Result<String> {
        let want = self.cycles_text()?;
        for number in 0..count {
            let text = self.run_text(&Open)?;
            if text != want {
                return Ok(format!(in self.alloc; "run {number} leaves\n{text}")?);
            }
        }
        Ok(format!(in self.alloc; "{count} leave what cycles leave")?)
    }

    fn meeting_text(&self, point: Point) -> Result<String> {
        let gate = Meeting::new(point, self.workers);
        let text = self.run_text(&gate)?;
        Ok(format!(in self.alloc; "{} came, {} late, {text}", gate.came(), gate.late())?)
    }

    fn inside_text(&self) -> Result<String> {
        let gate = Inside::new(self.workers);
        let text = self.run_text(&gate)?;
        Ok(format!(in self.alloc; "{} at a time, {text}", gate.most())?)
    }

    fn crowd_text(&self) -> Result<String> {
        let gate = Crowd::new(self.count(), self.workers);
        let text = self.run_text(&gate)?;
        Ok(format!(in self.alloc; "{} at a time, {text}", gate.most())?)
    }

    fn row_text(&self) -> Result<String> {
        let gate = Row::new();
        let text = self.run_text(&gate)?;
        Ok(format!(in self.alloc; "at most {} in a row, {text}", gate.most())?)
    }

    fn watched_text(&self) -> Result<String> {
        let gate = Watch::new(self.rt, self.alloc, self.count())?;
        let text = self.run_text(&gate)?;
        let calls = gate.text(self.alloc)?;
        Ok(format!(in self.alloc; "calls{calls}; {text}")?)
    }
}

impl<'a, 's, R> Jobs<'a, 's, R> {
    /// What the jobs leave in cycles.
    fn cycles_text(&self) -> Result<String> {
        let cycles = cycles_for(self.alloc, self.verified.set().profiles(), self.state)?;
        let left = simulate(self.alloc, self.verified, self.state, cycles.as_slice());
        match &left {
            Ok(outcome) => outcome_text(self.alloc, outcome),
            Err(_) => bail!("the cycles aren't run"),
        }
    }

    /// How many jobs there are.
    fn count(&self) -> usize {
        self.verified.set().profiles().len()
    }
}
