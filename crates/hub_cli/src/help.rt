//! What `-h` and `--help` say.

/// What the help of a command says.
#[derive(Clone, Copy)]
pub(crate) struct Help {
    /// What the command does, in a line.
    pub(crate) about: &'static str,
    /// How it is called.
    pub(crate) usage: &'static str,
    /// A call of it.
    pub(crate) example: &'static str,
}

/// The program's.
pub(crate) const HUBSYNC: Help = Help {
    about: "Reads profiles of Unison, and says whether they may run at the same time",
    usage: "hubsync [COMMAND] < BUNDLE\n       hubsync COMMAND [OPTIONS] FILE.prf..",
    example: "Example: hubsync check docs.prf photos.prf --rules rules",
};

/// That of `check`.
pub(crate) const CHECK: Help = Help {
    about: "Says whether the profiles may run at the same time, and runs no jobs",
    usage: "hubsync check < BUNDLE\n       hubsync check [OPTIONS] FILE.prf..\n       \
        hubsync check --unison [OPTIONS] FOLDER",
    example: "Example: hubsync check docs.prf photos.prf --rules rules",
};

/// That of `certify`.
pub(crate) const CERTIFY: Help = Help {
    about: "Writes certificates of a safe set, which anyone can check again",
    usage: "hubsync certify < BUNDLE\n       hubsync certify [OPTIONS] FILE.prf..",
    example: "Example: hubsync certify docs.prf photos.prf > certificates",
};

/// That of `verify`.
pub(crate) const VERIFY: Help = Help {
    about: "Says whether the certificates of the input show that the set is safe",
    usage: "hubsync verify < BUNDLE\n       hubsync verify [OPTIONS] FILE.prf..",
    example: "Example: hubsync verify docs.prf photos.prf --certificates certificates",
};

/// That of `clashes`.
pub(crate) const CLASHES: Help = Help {
    about: "Lists all clashes of profiles, and all rules that they may break",
    usage: "hubsync clashes [--dot] < BUNDLE\n       hubsync clashes [OPTIONS] FILE.prf..\n       \
        hubsync clashes --unison [OPTIONS] FOLDER",
    example: "Examples: hubsync clashes docs.prf photos.prf --rules rules\n          \
        hubsync clashes --dot docs.prf photos.prf | dot -Tsvg > clashes.svg",
};

/// That of `mend`.
pub(crate) const MEND: Help = Help {
    about: "Finds lines for profiles that make the set safe, and that only take away",
    usage: "hubsync mend [--bundle] < BUNDLE\n       hubsync mend [OPTIONS] FILE.prf..\n       \
        hubsync mend --unison [OPTIONS] FOLDER",
    example: "Examples: hubsync mend docs.prf photos.prf --rules rules\n          \
        hubsync mend --bundle docs.prf photos.prf > mended.bundle",
};

/// That of `rounds`.
pub(crate) const ROUNDS: Help = Help {
    about: "Cuts the profiles into rounds: those of a round may run at the same time",
    usage: "hubsync rounds < BUNDLE\n       hubsync rounds [OPTIONS] FILE.prf..\n       \
        hubsync rounds --unison [--alone] [OPTIONS] FOLDER",
    example: "Example: hubsync rounds docs.prf photos.prf",
};

/// That of `plan`.
pub(crate) const PLAN: Help = Help {
    about: "Says which profiles Unison may run at the same time, for a program that runs it",
    usage: "hubsync plan < BUNDLE\n       hubsync plan [OPTIONS] FILE.prf..\n       \
        hubsync plan [OPTIONS] FOLDER",
    example: "Example: hubsync plan ~/.unison",
};

/// That of `import`.
pub(crate) const IMPORT: Help = Help {
    about: "Writes a bundle of what Unison 2.51 to 2.53 may do by the profiles",
    usage: "hubsync import < BUNDLE\n       hubsync import [OPTIONS] FILE.prf..\n       \
        hubsync import [OPTIONS] FOLDER",
    example: "Example: hubsync import ~/.unison > office.bundle",
};

/// That of `reach`.
pub(crate) const REACH: Help = Help {
    about: "Says whether a profile of the input reaches a path",
    usage: "hubsync reach [--unison] PROFILE PATH < BUNDLE",
    example: "Example: hubsync reach docs docs/report.txt < examples/patterns.bundle",
};

/// That of `run`.
pub(crate) const RUN: Help = Help {
    about: "Runs the jobs of a safe set on the state of the input",
    usage: "hubsync run [--workers N] [--rounds | --in-order] < BUNDLE\n       \
        hubsync run [OPTIONS] FILE.prf..",
    example: "Examples: hubsync run docs.prf photos.prf --state state\n          \
        hubsync run --rounds docs.prf photos.prf --state state",
};

/// What follows the options in `hubsync --help`: a small bundle, the files, the lines of the answer, and the statuses.
pub(crate) const LONG: &str = "\
The input is a bundle of profiles, each after a line with its name:

  %profile docs
  root = /srv/hub
  root = /srv/laptop
  path = docs
  %profile photos
  root = /srv/hub
  root = /srv/laptop
  path = photos

A section '%rules' may say what no profile may do at a root:

  %rules
  root = /srv/hub
  nolose = BelowPath docs/archive

A section '%state' may say what the replicas hold. 'run' runs the jobs of a
safe set on it, and so does hubsync without a command if there is such a
section. For 'verify', a line '%certificates' and the text that 'certify' wrote
are part of the bundle too.

If a command but 'reach' is given files, the bundle is made of them, and
standard input isn't read. Each operand is a profile, which is named by it:
'docs.prf' is the profile docs. The files of --rules, --state and
--certificates have the lines of these sections, without their headings. Such
a file without one of a profile is a mistake in the words.

'check', 'verify' and 'reach' print one line: 'safe', 'verified', 'reached',
'not reached', 'overlap: ..', 'breach: ..', 'too large: ..', 'refused: ..' or
'fault: ..'. 'certify' prints certificates in the place of 'safe', and 'clashes'
a line for each clash, each rule that may be broken and what is too large to
decide, with a path that shows it.

'rounds' prints these lines:

  rounds 2                  how many rounds were found
  at least 2                so many profiles of which each two clash, or are too
                            large to decide; if they clash, no fewer rounds do
  round 1 docs              a profile of round 1
  breach 0 lists            a profile that may break rule 0: it is in no round
  too large 0 lists         the same, if whether it may wasn't found out

'rounds --unison --alone' makes rounds of the profiles that hubsync can read. A
profile that it can't read has these lines below them:

  alone photos              no other may run beside it
  why line 8: ..            the first line that hubsync has no answer for
  unchecked photos          if there are rules: it may break any of them

If the jobs are run, these lines stand below 'safe', for the profiles in their
order, and then the new state:

  job docs finished         or stopped: it ran out of memory
  to /srv/laptop docs/note  an item of a finished job, and the root it went to
  skip Conflict docs/plan   or Barred, Blocked, NoParent: it stays as it is

If they aren't run, 'run fault: MissingReplica ..' stands below 'safe'
if the state has no replica of a root, or 'NoWorkers' for 0 workers,
'TooManyWorkers' for more than 16, or 'ThreadRefused' if a thread can't be
started. The answer to 'run' without a state is 'fault: no state'.

'run --rounds' runs the rounds of any set one after another, as 'rounds' cuts
it. 'rounds N' stands in the place of 'safe', and 'run fault: ..' below the
lines of the rounds that were run. The state that they left always follows.

'run --in-order' runs the jobs of any set of which no profile may break a rule,
and leaves what they leave one after another, in the order of the profiles.
'in order' stands in the place of 'safe'.

'clashes --dot' draws the profiles, their roots and what clashes as a graph for
Graphviz. Profiles that clash are joined by a red line, and a profile that may
break a rule is a red box. What is too large to decide is dashed.

'plan' prints which profiles Unison may run at the same time, for a program that
runs it. A line begins with what it says, and names profiles by numbers:

  plan 1                    the version of this form
  profile 1 docs            a profile's number and its name
  root 1 /srv/hub           one of its two roots, the left one first
  apart 1 2 overlap: ..     1 and 2 may not run at the same time, and why
  alone 3 line 5: ..        hubsync can't read 3: no other may run beside it
  refused 4 breach: ..      4 may break a rule, so it isn't to be run
  order 1 2 3               those that are to be run, in an order that will do

'mend' prints lines that make the set safe, each behind the name of its profile,
and then 'safe with N lines', or what 'check' prints of the set with these
lines. They only take away: each profile reaches and writes no more than before.
'mend --bundle' prints the bundle with the lines in place.

With '--unison', 'check', 'clashes', 'mend' and 'rounds' follow the lines
'include' and 'source' of the files, as 'import' and 'plan' do, and an operand
may be a folder, as ~/.unison: its files
'*.prf' with roots are the profiles, but those that another one includes. An
operand 'NAME=FOLDER' has the profiles of the machine NAME, named 'NAME=docs'.
'--hosts' names a file of lines 'HOST PATH', by which a path stands for the / of
a host in roots as ssh://HOST//srv. '--verbose' lists on standard error each
line that doesn't count, and each that is refused.

With '--unison', 'check', 'clashes', 'mend', 'rounds' and 'reach' answer about
what Unison 2.51 to 2.53 may do by the profiles, not about hubsync's own reading
of them. What is safe then is safe in Unison, under what standard error says is
assumed.
An overlap or a breach may come of this reading alone: compare with the answer
without it. 'import' and 'plan' read the profiles in the same way. 'import' writes
such readings as a bundle, as for 'certify'.

Exit status:
  0  safe and no job stopped, verified, certificates, reached or not reached;
     rounds, if each profile is in one and nothing was too large to decide, or
     runs alone and there are no rules;
     a plan, if no profile is refused
  1  the profiles may not run at the same time, or may break a rule, or that
     they are safe was not shown; a profile in no round, or one that a plan
     refuses; with --strict also in the place of 0, if standard error has a note
     that a yes may mislead
  2  a fault of the input or of the command line, or a failed output; help and
     version too
  3  a job was stopped, or no job was run: 'run fault: ..'

Example: hubsync check docs.prf photos.prf --rules rules";
