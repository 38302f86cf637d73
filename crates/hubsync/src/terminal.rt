//! How far the program is, on a terminal.
use hub_serve::Progress;
use std::io::Eprint;
use std::sync::atomic::{AtomicU64, Ordering};
use std::time::{Clock, Instant};

/// Says on standard error how far the program is, if that is a terminal: first after a second, and then at most once a second.
#[derive(Drop)]
pub struct Terminal<'a, T> {
    rt: &'a T,
    is_terminal: bool,
    /// When the program began, if there is a clock.
    start: Option<Instant>,
    /// The second in which something was said last.
    last: AtomicU64,
}

impl<'a, T: Clock + Eprint> Terminal<'a, T> {
    /// Begins now. Nothing is said yet.
    pub fn new(rt: &'a T, is_terminal: bool) -> Terminal<'a, T> {
        Terminal {
            rt,
            is_terminal,
            start: Instant::now(rt).ok(),
            last: AtomicU64::new(0),
        }
    }

    /// Says how many of these are done, if it is time.
    fn say(&self, done: usize, of: usize, what: &str) {
        if self.is_terminal && self.is_time() {
            // if standard error fails, there is nobody left to tell
            let _ = eprint!(self.rt; "\rhubsync: {done} of {of} {what} ");
        }
    }

    /// Returns whether a second has begun in which nothing was said.
    fn is_time(&self) -> bool {
        let Some(start) = &self.start else {
            return false;
        };
        match start.elapsed(self.rt) {
            Ok(passed) => { self.last.swap(passed.as_secs(), Ordering::SeqCst) != passed.as_secs() }
            Err(_) => false,
        }
    }
}

impl<'a, T: Clock + Eprint> Progress for Terminal<'a, T> {
    fn goals(&self, done: usize, of: usize) {
        self.say(done, of, "goals");
    }

    fn jobs(&self, done: usize, of: usize) {
        self.say(done, of, "jobs");
    }

    /// Removes what was said.
    fn over(&self) {
        if self.is_terminal && self.last.load(Ordering::SeqCst) > 0 {
            let _ = eprint!(self.rt; "\r\x1b[K");
        }
    }
}
