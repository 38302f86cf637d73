//! A table of cases, whose questions are answered line by line.
use crate::fields::cut;
use crate::shorthand::expand;
use anyhow::{Context, Result, bail};
use std::alloc::Global;
use std::io::{BufRead, BufReader, Input};

/// What answers the questions of a table.
pub trait Answers {
    /// Takes a line that gives something to the questions below it, and returns whether the line does. No line does, unless a
    /// program says so.
    fn takes(&mut self, _line: &str) -> Result<bool> {
        Ok(false)
    }

    /// Answers a question: its first word, and what follows the word's space.
    fn answer(&mut self, alloc: Global, word: &str, fields: &str) -> Result<String>;
}

/// A question that was answered, and the answer that the table expects.
#[derive(Drop)]
struct Case {
    question: String,
    answer: String,
    expected: String,
}

/// The cases of a table: the last one, and how many before it were answered as the table says.
#[derive(Drop)]
pub struct Cases {
    last: Option<Case>,
    right: u64,
}

impl Cases {
    /// No cases.
    pub fn new() -> Cases {
        Cases {
            last: None,
            right: 0,
        }
    }

    /// Takes a line: more of the answer that the last case expects, or a question or a line that gives something, for which
    /// `take` returns `None`. Before another case it judges the last one: a question that is answered otherwise than the table
    /// says is written with its answer.
    pub fn take_line<R: Print + AllocGlobal, F: FnOnce(&str) -> Result<Option<String>>>(
        &mut self,
        rt: &R,
        line: &str,
        take: F,
    ) -> Result<()>
        requires { F.IsAlwaysCallable take }
    {
        if let Some(more) = line.strip_prefix('|') {
            return expect_more(&mut self.last, more);
        }
        self.judge_last(rt)?;
        let (question, expected) = cut_case(line);
        let answer = take(question)?;
        self.last = case_of(rt.alloc(), question, answer, expected)?;
        Ok(())
    }

    /// Judges the last case, and writes how many were answered as the table says.
    pub fn end<R: Print>(&mut self, rt: &R) -> Result<()> {
        self.judge_last(rt)?;
        let right = self.right;
        println!(rt; "{right} right")?;
        Ok(())
    }

    /// Judges the last case.
    fn judge_last<R: Print>(&mut self, rt: &R) -> Result<()> {
        let right = judge(rt, &self.last)?;
        self.right = self.right.saturating_add(right);
        Ok(())
    }
}

/// Answers the questions of standard input.
pub fn answer_table<R: Input + Print + AllocGlobal, A: Answers>(
    rt: &R,
    answers: &mut A,
) -> Result<()> {
    let mut cases = Cases::new();
    for_each_line(rt, |line| take_line(rt, answers, &mut cases, line))?;
    cases.end(rt)
}

/// Answers the questions of standard input, where no line gives anything to those below it, by a function of a question's first word
/// and of what follows the word's space.
pub fn answer_questions<
    R: Input + Print + AllocGlobal,
    F: Fn(Global, &str, &str) -> Result<String>,
>(rt: &R, answer: F) -> Result<()>
    requires { (f : F) (a : _) (w : _) (t : _) → F.pre f a w t }
{
    let mut cases = Cases::new();
    for_each_line(
        rt,
        |line|
            requires { (f : F) (a : _) (w : _) (t : _) → F.pre f a w t }
        { take_question(rt, &answer, &mut cases, line) },
    )?;
    cases.end(rt)
}

/// Takes each line of standard input, but no empty line, and none that begins with `#`.
pub fn for_each_line<R: Input + AllocGlobal, F: FnMut(&str) -> Result<()>>(
    rt: &R,
    mut take: F,
) -> Result<()>
    requires { F.IsAlwaysCallable take }
{
    let alloc = rt.alloc();
    for line in BufReader::new(alloc, rt.reader())?.lines(alloc) {
        let line = line?;
        let line = line.as_str();
        if !line.is_empty() && !line.starts_with('#') {
            take(line).context(format_args!("{line}"))?;
        }
    }
    Ok(())
}

/// The question of a line, and the answer that it expects. That of a line without one is empty.
fn cut_case(line: &str) -> (&str, &str) {
    match line.rsplit_once(" => ") {
        Some(parts) => parts,
        None => (line, ""),
    }
}

/// What stands of a line, if it is a question.
fn case_of(
    alloc: Global,
    question: &str,
    answer: Option<String>,
    expected: &str,
) -> Result<Option<Case>> {
    let Some(answer) = answer else {
        return Ok(None);
    };
    let question = String::from_str(alloc, question)?;
    let expected = String::from_str(alloc, expected)?;
    Ok(Some(Case {
        question,
        answer,
        expected,
    }))
}

/// Adds a line to the answer that is expected.
fn expect_more(case: &mut Option<Case>, line: &str) -> Result<()> {
    let Some(case) = case else {
        bail!("no question stands above |{line}");
    };
    case.expected.push('\n')?;
    case.expected
        .push_str(line.strip_prefix(' ').unwrap_or(line))?;
    Ok(())
}

/// Returns 1 if the question is answered as the table says. If it isn't, its answer is written.
fn judge<R: Print>(rt: &R, case: &Option<Case>) -> Result<u64> {
    let Some(case) = case else {
        return Ok(0);
    };
    if case.answer.as_str() == case.expected.as_str() {
        return Ok(1);
    }
    let (question, answer) = (case.question.as_str(), case.answer.as_str());
    println!(rt; "{question} => {answer}")?;
    Ok(0)
}

/// Takes a line of a table.
fn take_line<R: Print + AllocGlobal, A: Answers>(
    rt: &R,
    answers: &mut A,
    cases: &mut Cases,
    line: &str,
) -> Result<()> {
    cases.take_line(
        rt,
        line,
        |question| answer_line(rt.alloc(), answers, question),
    )
}

/// Takes a line of a table of questions alone.
fn take_question<R: Print + AllocGlobal, F: Fn(Global, &str, &str) -> Result<String>>(
    rt: &R,
    answer: &F,
    cases: &mut Cases,
    line: &str,
) -> Result<()>
    requires { (f : F) (a : _) (w : _) (t : _) → F.pre f a w t }
{
    cases.take_line(
        rt,
        line,
        |question|
            requires { (f : F) (a : _) (w : _) (t : _) → F.pre f a w t }
        { answer_by(rt.alloc(), answer, question) },
    )
}

/// Answers a question by a function.
fn answer_by<F: Fn(Global, &str, &str) -> Result<String>>(
    alloc: Global,
    answer: &F,
    line: &str,
) -> Result<Option<String>>
    requires { (f : F) (a : _) (w : _) (t : _) → F.pre f a w t }
{
    let question = expand(alloc, line)?;
    let (word, fields) = cut(question.as_str());
    Ok(Some(answer(alloc, word, fields)?))
}

/// Takes a line that gives something, or answers a question.
fn answer_line<A: Answers>(alloc: Global, answers: &mut A, line: &str) -> Result<Option<String>> {
    if answers.takes(line)? {
        return Ok(None);
    }
    let question = expand(alloc, line)?;
    let (word, fields) = cut(question.as_str());
    Ok(Some(answers.answer(alloc, word, fields)?))
}
