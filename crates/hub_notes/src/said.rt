//! The lines of the notes.

use hub_source::{Said, Source, SourceLine, say_placed};
use std::alloc::{AllocError, Global};

/// How many lines the notes have at most.
const LINES: usize = 5;

/// Notes, as they are said.
#[derive(Drop)]
pub(crate) struct Notes {
    text: String,
    lines: usize,
    hidden: usize,
}

impl Notes {
    /// No note. It doesn't allocate.
    pub(crate) fn new(alloc: Global) -> Notes {
        Notes {
            text: String::new(alloc),
            lines: 0,
            hidden: 0,
        }
    }

    /// Adds a note of one line.
    pub(crate) fn add(&mut self, words: &str) -> Said {
        if self.takes(1) {
            return self.push(words);
        }
        Ok(())
    }

    /// Adds a note on a line of the input, which stands below it.
    pub(crate) fn add_on(
        &mut self,
        source: &Source<'_>,
        line: &SourceLine<'_>,
        words: &str,
    ) -> Said {
        if self.takes(2) {
            self.push(words)?;
            return say_placed(&mut self.text, source, line);
        }
        Ok(())
    }

    /// Adds a note of two lines.
    pub(crate) fn add_two(&mut self, words: &str, below: &str) -> Said {
        if self.takes(2) {
            self.push(words)?;
            return self.push(below);
        }
        Ok(())
    }

    /// Counts a note that isn't shown.
    pub(crate) fn hide(&mut self) {
        self.hidden = self.hidden.saturating_add(1);
    }

    /// Counts so many lines, if there is room for them and for one more. Else it counts a note that isn't shown.
    fn takes(&mut self, lines: usize) -> bool {
        let after = self.lines.saturating_add(lines);
        let has_room = after < LINES;
        if has_room {
            self.lines = after;
        } else {
            self.hide();
        }
        has_room
    }

    /// Adds a line.
    fn push(&mut self, words: &str) -> Said {
        self.text.push_str("hubsync: note: ")?;
        self.text.push_str(words)?;
        self.text.push_str("\n")
    }

    /// The text of the notes. The last line says how many aren't shown, if there are such.
    pub(crate) fn into_text(self) -> Result<String, AllocError> {
        let Notes {
            mut text,
            hidden,
            ..
        } = self;
        if hidden > 0 {
            writeln!(&mut text, "hubsync: note: and {hidden} more")?;
        }
        Ok(text)
    }
}
