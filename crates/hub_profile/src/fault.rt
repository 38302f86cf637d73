ghost use Rattle.std.specs.Prelude.{◌≡◌, IfOk, chars, encode_utf8_all};

use hub_glob::GlobFault;
use hub_path::PathFault;
use std::alloc::{AllocError, AllocFailed, Global};
use std::fmt;
use std::marker::Model;
use thiserror::Error;

/// The name of a preference, as it stands on its line. It may be empty, and may hold any character but LF and `=`.
#[derive(Debug, Drop)]
pub struct Preference {
    text: String,
}

impl Model for Preference {
    ghost use Rattle.std.specs.Prelude.{List, ℕ, chars, string_bytes};

    ghost Value = { List ℕ };

    ghost view = { λ a. chars (string_bytes a.text) };
}

impl Preference {
    /// Copies the name from its text.
    pub fn new(alloc: Global, name: &str) -> Result<Preference, AllocError>
        ensures { IfOk result (λ p. p ≡ chars name.now) }
    {
        Ok(Preference {
            text: String::from_str(alloc, name)?,
        })
    }

    /// The name.
    pub fn text(&self) -> &str
        ensures { result.now ≡ encode_utf8_all self.now }
    {
        self.text.as_str()
    }
}

impl fmt::Display for Preference {
    ghost use Rattle.std.specs.Prelude.{Some, encode_utf8_all};

    ghost output = { λ p. Some (encode_utf8_all p) };

    fn fmt<W: fmt::Write>(&self, f: &mut fmt::Formatter<W>) -> fmt::Result {
        f.write_str(self.text())
    }
}

/// What is wrong with the text of a profile or of rules.
#[derive(Debug, Drop, Error)]
pub enum Fault {
    /// The bytes are not UTF-8.
    #[error("NotUtf8")]
    NotUtf8,
    /// A line that is neither blank nor a comment has no `=`.
    #[error("NoEquals")]
    NoEquals,
    /// The line includes another file, which this project leaves out.
    #[error("IncludeLeftOut")]
    IncludeLeftOut,
    /// No preference has that name.
    #[error("UnknownPreference {0}")]
    UnknownPreference(Preference),
    /// The value is `newer` or `older`, which this project leaves out in `force` and `prefer`.
    #[error("LeftOutValue")]
    LeftOutValue,
    /// A value is not a path, or not a root.
    #[error("BadPath {0}")]
    BadPath(PathFault),
    /// A value is not a path specification.
    #[error("BadPattern {0}")]
    BadPattern(GlobFault),
    /// The line gives `force` or `prefer` a second time.
    #[error("Repeated")]
    Repeated,
    /// There are not exactly two roots.
    #[error("RootCount")]
    RootCount,
    /// The two roots are equal.
    #[error("SameRoots")]
    SameRoots,
    /// One root lies within the other.
    #[error("RootsNested")]
    RootsNested,
    /// A line names a root that is neither of the two: one of `force`, `prefer`, `nodeletion`, `noupdate`, `nocreation`,
    /// `nodeletionpartial`, `noupdatepartial` or `nocreationpartial`.
    #[error("NotARoot")]
    NotARoot,
    /// A rule has no `root` line above it.
    #[error("RuleBeforeRoot")]
    RuleBeforeRoot,
    /// There are more `path` lines than `PATH_LINES`, more `ignore` and `ignorenot` lines than `PATTERN_LINES`, more
    /// `nodeletionpartial`, `noupdatepartial` and `nocreationpartial` lines than `PARTIAL_LINES`, or more rules than
    /// `RULES`.
    #[error("TooMany")]
    TooMany,
    /// Out of memory.
    #[error("OutOfMemory")]
    OutOfMemory,
    /// The value of a `nodeletionpartial`, `noupdatepartial` or `nocreationpartial` line has no `->`.
    #[error("NoArrow")]
    NoArrow,
}

impl From<AllocError> for Fault {
    ghost use Rattle.hub_profile.specs.declared.fault.Fault.TheVariants.{OutOfMemory};
    ghost use Rattle.std.specs.Prelude.{◌≡◌};

    ghost from_gives = { λ _ e. e ≡ OutOfMemory };

    fn from(_: AllocError) -> Self {
        Fault::OutOfMemory
    }
}

impl<T: Drop> From<AllocFailed<T>> for Fault {
    ghost use Rattle.hub_profile.specs.declared.fault.Fault.TheVariants.{OutOfMemory};
    ghost use Rattle.std.specs.Prelude.{◌≡◌};

    ghost from_gives = { λ _ e. e ≡ OutOfMemory };

    fn from(_: AllocFailed<T>) -> Self {
        Fault::OutOfMemory
    }
}

impl From<PathFault> for Fault {
    ghost use Rattle.hub_profile.specs.Faults.{of_path};
    ghost use Rattle.std.specs.Prelude.{◌≡◌};

    ghost from_gives = { λ fault e. e ≡ of_path fault };

    fn from(fault: PathFault) -> Self {
        match fault {
            PathFault::OutOfMemory => Fault::OutOfMemory,
            _ => Fault::BadPath(fault),
        }
    }
}

impl From<GlobFault> for Fault {
    ghost use Rattle.hub_profile.specs.Faults.{of_pattern};
    ghost use Rattle.std.specs.Prelude.{◌≡◌};

    ghost from_gives = { λ fault e. e ≡ of_pattern fault };

    fn from(fault: GlobFault) -> Self {
        match fault {
            GlobFault::OutOfMemory => Fault::OutOfMemory,
            _ => Fault::BadPattern(fault),
        }
    }
}

/// A fault of the text of a profile or of rules, and its line.
#[derive(Debug, Drop, Error)]
#[error("line {line}: {fault}")]
pub struct ProfileFault {
    /// The number of the line. The first line has number 1; 0 stands for the whole text.
    pub line: usize,
    /// What is wrong.
    pub fault: Fault,
}

impl From<AllocError> for ProfileFault {
    ghost use Rattle.hub_profile.specs.declared.fault.Fault.TheVariants.{OutOfMemory};
    ghost use Rattle.std.specs.Prelude.{◌≡◌};

    ghost from_gives = { λ _ e. e.fault ≡ OutOfMemory };

    fn from(_: AllocError) -> Self {
        ProfileFault {
            line: 0,
            fault: Fault::OutOfMemory,
        }
    }
}
