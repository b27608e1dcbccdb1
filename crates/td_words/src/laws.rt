//! The words that ask for each subcommand do so, as theorems.
ghost use Rattle.td_words.specs.CheckWords.{CheckWordsExplain, JoinedWordsAsk, SeparateWordsAsk};
ghost use Rattle.td_words.specs.CommandLine.{PlainRunWordsAsk, RunWordsExplain, SimulationWordsAsk};
ghost use Rattle.td_words.specs.CommandLine.{TrackWordsAsk, TrackWordsExplain, WavesWordsAsk};
ghost use Rattle.td_words.specs.CommandLine.{WavesWordsExplain, WholeRunWordsAsk};
ghost use Rattle.td_words.specs.CommandLine.{ShownWordsAsk};
ghost use Rattle.td_words.specs.DeskWords.{DeskWordsAsk, DeskWordsExplain, SeparateDeskWordsAsk};
ghost use Rattle.td_words.specs.FolderWords.{FolderWordsAsk};
ghost use Rattle.td_words.specs.PlanWords.{PlanWordsAsk, PlanWordsExplain, SeparatePlanWordsAsk};
ghost use Rattle.td_words.specs.WordsApart.{SeparatePlainRunWordsAsk, SeparateTrackWordsAsk};
ghost use Rattle.td_words.specs.WordsApart.{SeparateWavesWordsAsk, SeparateWholeRunWordsAsk};

/// The words of a simulation ask for it, and for an explanation if `--explain` is one of them.
pub fn words_of_a_simulation_ask_for_it()
    ensures { SimulationWordsAsk }
{}

/// The words of a check ask for it, with details or without: with each path joined to its option,
/// whatever it is; or, without details, as a word of its own, if it isn't empty and doesn't begin
/// with a hyphen.
pub fn words_of_a_check_ask_for_it()
    ensures joined { JoinedWordsAsk }
    ensures separate { SeparateWordsAsk }
    ensures explained { CheckWordsExplain }
{}

/// The words of a report ask for it, with other rows or without, by chunks or whole: with each
/// value joined to its option, whatever it is; or as a word of its own, if it isn't empty and
/// doesn't begin with a hyphen.
pub fn words_of_a_track_ask_for_it()
    ensures joined { TrackWordsAsk }
    ensures separate { SeparateTrackWordsAsk }
    ensures explained { TrackWordsExplain }
    // With a word for the rows that are shown, over the archive's own rows.
    ensures shown { ShownWordsAsk }
{}

/// The words of waves ask for them, by levels or by steps, and with what each source builds on or
/// without. If they ask for levels alone, each value may be a word of its own.
pub fn words_of_waves_ask_for_them()
    ensures joined { WavesWordsAsk }
    ensures separate { SeparateWavesWordsAsk }
    ensures explained { WavesWordsExplain }
{}

/// The words of a plan ask for it, with other rows or without, and with a suite or without, if
/// lines can have the message and the suite.
pub fn words_of_a_plan_ask_for_it()
    ensures joined { PlanWordsAsk }
    ensures separate { SeparatePlanWordsAsk }
    ensures explained { PlanWordsExplain }
{}

/// The words of a run ask for it: over only an archive, and with everything that may be given.
pub fn words_of_a_run_ask_for_it()
    ensures plain { PlainRunWordsAsk }
    ensures whole { WholeRunWordsAsk }
    ensures plain_separate { SeparatePlainRunWordsAsk }
    ensures whole_separate { SeparateWholeRunWordsAsk }
    ensures explained { RunWordsExplain }
{}

/// The words of a desk ask for it: with other rows, a tracker and a suite or without them, waiting
/// for its file or not. If it doesn't wait, each value may be a word of its own.
pub fn words_of_a_desk_ask_for_it()
    ensures joined { DeskWordsAsk }
    ensures separate { SeparateDeskWordsAsk }
    ensures explained { DeskWordsExplain }
{}

/// Words that give only a folder ask for the files in it: for the three of an archive and that of a
/// desk whether they are there or not, and for the others if they are there. The path of a file's own
/// option wins.
pub fn words_of_a_folder_ask_for_its_files()
    ensures { FolderWordsAsk }
{}
