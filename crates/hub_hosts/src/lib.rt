//! Paths in place of the roots on other machines that Unison profiles name.
//!
//! - [`Hosts::read`]: a table of hosts, each with the path that stands for it, or the first [`HostsFault`].
//! - [`Hosts::text_for`]: the text of a profile or of rules with a path in place of each root of a host that the table has. It may be
//!   the profile of another machine: then its roots that begin with one slash or a drive are there. [`Hosts::profile_for`] also says
//!   in a line that names fold, if they do.
//! - [`Hosts::has_machine`]: whether the table has a row for these; [`Hosts::has_own_row`]: whether it has one for this machine.
//!   [`Hosts::is_here`] says it of the host of a row, and [`Host::is_of`] whether that is the host of a machine.
//! - [`root_of`]: the value of a line `root`. [`Hosts::path_of`] is the path that stands for it, and [`Hosts::folds_names`] says whether
//!   its host takes names that differ in case alone for one name.
//!
//! A table has lines `HOST PATH`. PATH stands for the `/` of the host, and is absolute. HOST may be `USER@HOST`, which comes first.
//! A line `HOST~ PATH` is for roots that are relative to a home. The word `folds-names` before HOST marks a machine with Windows or
//! macOS: `folds-names pc /hosts/pc`. So with the lines
//!
//! ```text
//! build /hosts/build
//! laptop~ /hosts/laptop/home/anna
//! ```
//!
//! a root `ssh://build//srv` becomes `/hosts/build/srv`, and `ssh://laptop/work` becomes `/hosts/laptop/home/anna/work`. A root of
//! a host that the table lacks stays as it is, so the reader of profiles refuses it.
//!
//! A drive of Windows stands for a folder right below the `/` of its host, with a capital. So it needs the row of the host, and none for
//! a home. With the line `pc1 /hosts/pc1` these roots become paths:
//!
//! | Root | In a profile of | Path |
//! |---|---|---|
//! | `ssh://bob@pc1/C:/Users/bob` | any machine | `/hosts/pc1/C:/Users/bob` |
//! | `ssh://pc1/c:\Users\bob\` | any machine | `/hosts/pc1/C:/Users/bob` |
//! | `ssh://pc1//cygdrive/c/Users/bob` | any machine | `/hosts/pc1/C:/Users/bob` |
//! | `C:/Users/bob`, `c:\Users\bob` | `pc1` | `/hosts/pc1/C:/Users/bob` |
//! | `/cygdrive/c/Users/bob` | `pc1` | `/hosts/pc1/C:/Users/bob` |
//! | `C:/Users/bob`, `/cygdrive/c/Users/bob` | this machine | `/C:/Users/bob` |
//! | `C:Users`, `CC:/Users`, `1:/Users` | any machine | none: no drive, and not absolute |
//!
//! Names fold on a drive, whether or not a row says `folds-names`.
//!
//! The contracts use the words of `specs/Table` (the rows of a table), `specs/Drives` (drives of Windows), `specs/Remotes` (the path
//! that stands for a root) and `specs/Profiles` (the text). Only functions that return a `Result` allocate.
//!
//! # What is proved
//!
//! `read` returns exactly the rows that `specs/Table` gives, or exactly that fault. `text_for` returns exactly the text of
//! `specs/Profiles`. A text that names no root on another machine and none on a drive stays, as does a line of another name and one
//! whose host the table lacks; the lines keep their numbers; what stands in place of a root is an absolute path. A root here of a
//! profile of a machine is the one that `ssh://`, the machine, a slash and it say, and none stays if the table has the machine. A root
//! of this machine on a drive is the path of that folder, names fold there, and a drive is the same by each of its names ([`laws`]).
//!
//! # What is not
//!
//! That a path of the table leads to the files of its host: the table says so. The port of a root isn't looked at, so two roots on
//! one host with two ports get the same path. Whether a host has Windows isn't asked, nor whether Cygwin has its drives elsewhere: a
//! root with a drive counts as one on each host.
#![tactic(auto)]

mod drive;
mod fault;
mod folding;
mod host;
pub mod laws;
mod profile;
mod remote;
mod words;

pub use fault::HostsFault;
pub use host::{Host, Hosts};
pub use profile::root_of;
