//! What the help of the program and of each subcommand says below the options.

/// The help of the program: its exit statuses.
pub(crate) const STATUSES: &str = "\
Exit status:
  0  done
  1  something was refused; standard output says what, but not of a builder that is missing
  2  bad input
  3  bad command line, or a call for help or the version
  4  want of memory
  5  a read or a write failed
With 2, 4 and 5 standard error has one line that says what was wrong; with --explain a second one
says what is wanted of a refused text, and where, if the fault has a place, or of a file that can't
be read.

docs/FORMATS.md says exactly what is read and printed.";

/// The help of `simulate`.
pub(crate) const SIMULATE: &str = "\
Standard input has opening rows, a line `steps`, and a step on each line after it:
  foo/amd64 Failed 0 1
  steps
  gb foo/amd64
  undo 1
Standard output has the answer to each step, then a line `rows` and the rows as they are then.
Nothing is printed where the input isn't of this form.

docs/FORMATS.md says exactly what is read and printed, and lists the steps.";

/// The help of `check`.
pub(crate) const CHECK: &str = "\
The three files are read whole. Standard output has one line:
  sources S binaries B rows R
S sources and B binary packages count, and a desk would open with R rows.
With --details it then has a line for each architecture of the table, with its own packages, its
rows, and those that open as Needs-Build; and warnings of what is read but rarely meant:
  arch NAME binaries B rows R needs-build N
  warning: TEXT
Nothing is printed where a file isn't of its form; standard error names it.

docs/FORMATS.md says exactly which stanzas count, and which architectures have rows.";

/// The help of `track`.
pub(crate) const TRACK: &str = "\
The files are read whole. Standard output has the report of the rows that the tracker affects:
  tracker TITLE
  level K rows R installed I
  KEY STATUS STATE PRIORITY NUMBER
  cyclic rows R installed I
  affected A good G bad B partial P unknown U
With --only or --summary the lines that count stay as they are.
Nothing is printed where a file isn't of its form; standard error names it.

docs/FORMATS.md says exactly what is read and printed.";

/// The help of `waves`.
pub(crate) const WAVES: &str = "\
The files are read whole. Standard output has the sources that the tracker affects, by the levels in
which they can be rebuilt:
  level K
  SOURCE
  cyclic
With --steps it has them by steps. Sources that build on one another are on one line:
  step K
  SOURCE SOURCE
With --why each source has a line, with the sources on which it builds and a package of each:
  SOURCE: BASE PACKAGE, BASE PACKAGE
Nothing is printed where a file isn't of its form; standard error names it.

docs/FORMATS.md says exactly what is read and printed.";

/// The help of `plan`.
pub(crate) const PLAN: &str = "\
The files are read whole. Standard output has a script: lines that rebuild what the tracker calls
bad or partial, each source under one number and step by step, and that say what each row waits
for:
  # tracker TITLE
  # step K
  nmu N SOURCE_VERSION . ARCH.. . SUITE . -m \"TEXT\"
  dw SOURCE_VERSION . ARCH.. . SUITE . -m \"PACKAGE (>= VERSION)\"
  # not planned: KEY STATUS STATE NUMBER REASON
Give them all to one `run` or desk: between an `nmu` line and its `dw` line a builder could claim
the row. TEXT is one line; it stands in single quotes where it has a double quote, a dollar, a
backquote or a backslash, and then it has no single quote.
Nothing is printed where a file isn't of its form; standard error names it.

docs/FORMATS.md says exactly what is read and printed.";

/// The help of `run`.
pub(crate) const RUN: &str = "\
The files are read whole, and then the script on standard input, a line for each thing to be done:
  nmu foo . ANY . unstable . -m \"Rebuild against libbar2\"
  row foo amd64
  undo 1
Standard output has the answer to each line:
  entry 1 takes foo/amd64 foo/i386
  foo/amd64 Needs-Build 0 1
  undone 1
A line that isn't of its form is refused, and the others are done. Nothing is printed where a file
isn't of its form, or the script no text or too long; standard error names it.
With --journal the script goes on with what an earlier one did, as the line `journal` printed it.
With --builders, builders work beside the script; then the rows are printed as they leave them,
behind a line `rows`. Their builds end as the lines of --outcomes say (foo/amd64 givenback), and as
built where none is left; without builders that file is read and not looked at.

docs/FORMATS.md says exactly what is read and printed, and lists the lines.";

/// The help of `desk`.
pub(crate) const DESK: &str = "\
The files are read whole. Then each line on standard input is answered at once, before the next one
is read. An answer is printed only when what it says is on the disk. The file of --journal keeps all
that was done: the next desk over the same files goes on from there, and builders keep their rows.
The lines are those of `run`, and five more:
  ready [ARCH]         print the rows that need a build
  claim B SOURCE ARCH  give a row to builder B; B is from 1 to 64
  finish B WORD        end builder B's build: built, attempted, givenback, or waits : RELATION
  rows                 print all rows
  lines                print the commands that stand, as lines to send
A line that isn't of its form is refused, and the others are done. Nothing is printed if a file
isn't of its form; standard error names it.

docs/FORMATS.md says exactly what is read and printed, and lists the lines.";
