//! Each call of the book is a list of steps, each law the contract of a function that does nothing.
ghost use Rattle.td_steps.specs.Arrivals.{ArrivalsAreSteps, SweepsAreSteps};
ghost use Rattle.td_steps.specs.Books.{EntriesStay, WatchedStay, RowsAreReplayed, EntriesAreLawful};
ghost use Rattle.td_steps.specs.Books.{UndoneAtOnce, BlockedExactly, UndoneElse, WonNamesTheLatest};
ghost use Rattle.td_steps.specs.Builds.{StartsAreSteps, FinishesAreSteps, FinishesRun};
ghost use Rattle.td_steps.specs.Calls.{CallsAreSteps, BooksAreSteps};
ghost use Rattle.td_steps.specs.Choices.{WorldsDecide, DecidedCommandsRun};
ghost use Rattle.td_steps.specs.Commands.{CommandsAreSteps};
ghost use Rattle.td_steps.specs.Deeds.{JournalsTellDeeds, BooksTellDeeds};
ghost use Rattle.td_steps.specs.Laws.{MovesAreSteps, BuildersChangeNothing, RunsAreSeen};
ghost use Rattle.td_steps.specs.Openings.{OpeningsAreSteps, HistoriesOpen};
ghost use Rattle.td_steps.specs.Reopenings.{ReopeningsAreSteps, ReopenedBooksAreSteps};
ghost use Rattle.td_steps.specs.Reopenings.{ReopenedAreReplayed};
ghost use Rattle.td_steps.specs.Schedules.{SchedulesRun};
ghost use Rattle.td_steps.specs.Turns.{CommandsGoOn, StartsGoOn, UndosGoOn, OthersGoOn, TurnsRun};
ghost use Rattle.td_steps.specs.Undos.{UndosAreSteps};
ghost use Rattle.td_steps.specs.Watches.{WatchesStayAside, WatchesAreRefusedForReasons};
ghost use Rattle.td_steps.specs.Watches.{WatchesAreSteps};

/// Each move that the desk may make is the world's step of that name, refused only where it is a
/// withdrawal that a builder's claim beat; and the desk knows what comes of it.
pub fn moves_are_steps()
    ensures { MovesAreSteps }
{}

/// A builder's claim, finish or release changes nothing that the desk knows.
pub fn builders_change_nothing()
    ensures { BuildersChangeNothing }
{}

/// The world that a list of moves leads to is seen by the book after them, whatever builders do
/// before, between and after.
pub fn runs_are_seen()
    ensures { RunsAreSeen }
{}

/// The opening of a book sees the world at its opening, and offers each row that needs a build.
pub fn openings_are_steps()
    ensures { OpeningsAreSteps }
{}

/// Any lawful history in which no builder has a row begins a world, and the history that a
/// reopening leaves begins one that the reopened book sees.
pub fn reopenings_are_steps()
    ensures histories { HistoriesOpen }
    ensures books { ReopeningsAreSteps }
{}

/// Whatever a command answers: some list of moves, in any run from a world that the book sees, is
/// answered as `answer_of` says and leads to a world that the book sees afterwards.
pub fn commands_are_steps()
    ensures { CommandsAreSteps }
{}

/// Whatever an undo answers, some list of moves does it: withdrawals, the undo and offers, or the
/// withdrawals up to a claim that was faster.
pub fn undos_are_steps()
    ensures { UndosAreSteps }
{}

/// A builder's start and finish, an arrival and a sweep are each done by some list of moves; a
/// watch makes no move.
pub fn other_calls_are_steps()
    ensures starts { StartsAreSteps }
    ensures finishes { FinishesAreSteps }
    ensures arrivals { ArrivalsAreSteps }
    ensures sweeps { SweepsAreSteps }
    ensures watches { WatchesAreSteps }
{}

/// A watch leaves the history and the desk's seat, and a refused one the former watch. It is
/// refused for its own reason, or because memory runs out.
pub fn watches_stay_aside()
    ensures aside { WatchesStayAside }
    ensures reasons { WatchesAreRefusedForReasons }
{}

/// Any list of calls, whatever they answer, is done by some list of moves, and so is any since the
/// opening or a reopening: call by call the book sees each world to which a run of the moves leads.
pub fn calls_are_steps()
    ensures calls { CallsAreSteps }
    ensures opening { BooksAreSteps }
    ensures reopened { ReopenedBooksAreSteps }
{}

/// Each world that a book sees decides who is first at each row, and a command's moves run from it
/// with its choices.
pub fn commands_can_run()
    ensures decide { WorldsDecide }
    ensures run { DecidedCommandsRun }
{}

/// A builder that holds a row may end its build: the moves of its finish run, with its own step
/// before the settling.
pub fn finishes_can_run()
    ensures { FinishesRun }
{}

/// Whatever builders do between them, the moves of a command go on to the end, with choices that
/// the worlds on the way decide; and so do those of a start, and of an undo up to a faster claim.
/// No builder decides the moves of the desk's other calls.
pub fn commands_go_on()
    ensures on { CommandsGoOn }
    ensures starts { StartsGoOn }
    ensures undos { UndosGoOn }
    ensures others { OthersGoOn }
    ensures runs { TurnsRun }
{}

/// Over any list of a book's calls, whatever they answer, the opening rows and each entry stay and
/// more are appended, and the watched rows stay where none of the calls is a watch; so the rows are
/// the standing entries folded over the opening rows, each of
/// which applies on what those before it left. So it is of a reopened book, whose text's entries
/// count with the later ones.
pub fn rows_are_replayed()
    ensures entries { EntriesStay }
    ensures watched { WatchedStay }
    ensures rows { RowsAreReplayed }
    ensures lawful { EntriesAreLawful }
    ensures reopened { ReopenedAreReplayed }
{}

/// The undo of a book's last command isn't refused by the journal, and leaves every row as it was
/// before the command, except for the claims that the command had found. This holds of any book,
/// opened or reopened.
pub fn a_command_is_undone_at_once()
    ensures { UndoneAtOnce }
{}

/// The undo of a standing command that a later entry blocks is refused for the latest such, and
/// changes nothing. One that no later entry blocks is undone, unless memory runs out, or a builder
/// had won one of its rows: that claim is noted, and the undo refused for the claim's entry, the
/// latest that blocks it from then on. This holds of any book.
pub fn an_undo_is_refused_where_blocked()
    ensures blocked { BlockedExactly }
    ensures undone { UndoneElse }
    ensures won { WonNamesTheLatest }
{}

/// At every moment of every schedule of a board, what the journal of a book at the desk's seat says
/// of a builder, after the entries that the book opened with, is what that builder did, in order:
/// no claim and no outcome's code is invented, dropped or changed, and only the builder's last deed
/// may not be there yet. (`Book::seat` is such a seat.)
pub fn journals_tell_the_builders_deeds()
    ensures lists { JournalsTellDeeds }
    ensures books { BooksTellDeeds }
{}

/// At every moment of every schedule of a board at whose desk's seat a book is at rest: the run of
/// the world that begins with the book's first history is there which has the desk's steps at the
/// board, in their order, with the entries of the book's calls. The steps of builders between them
/// are those that each took at the board, in its order. The run is answered as the calls answer,
/// and leads to the book's history and to the board's phases and hands. No choice of the desk's
/// moves is left free, and no run is asked for.
pub fn schedules_are_runs()
    ensures { SchedulesRun }
{}
