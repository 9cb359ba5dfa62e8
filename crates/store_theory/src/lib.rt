// The cue store in the definitions: levels as symbols, the store's calls, runs, the book of a run and what damage costs.
// What a reader must believe stands in specs/; the functions here carry the theorems about it in their contracts.
#![tactic(auto)]

ghost use Rattle.std.specs.Prelude.{◌≡◌, length};
ghost use Rattle.store_theory.specs.Layout.{most_cues, most_levels, most_cells};
ghost use Rattle.store_theory.specs.LevelCases.{level_cases, LevelExamplesHold};
ghost use Rattle.store_theory.specs.RunCases.{run_cases, RunExamplesHold};
ghost use Rattle.store_theory.specs.Statements.{BookAndStoreAgree, RecallGivesWhatWasLastRecorded, WrittenLevelsReadBack};

// Two flags and no enum: a cue is recorded or empty, and held or free, in each of the four ways.
/// What a store keeps of one cue.
#[derive(Clone, Copy)]
pub struct CueMark {
    /// It has levels; otherwise it is empty.
    pub recorded: bool,
    /// A slip is out for it; otherwise it is free.
    pub held: bool,
}

/// How many worked examples of levels the definitions list; every one of them holds.
pub fn level_examples() -> usize
    ensures value { result ≡ length level_cases }
    ensures level_examples_hold { LevelExamplesHold }
{
    7
}

/// How many worked examples of runs the definitions list; every one of them holds.
pub fn run_examples() -> usize
    ensures value { result ≡ length run_cases }
    ensures run_examples_hold { RunExamplesHold }
{
    30
}

/// The most levels that a cue may have. Levels that are written as messages are read back as they were.
pub fn most_levels() -> usize
    ensures value { result ≡ most_levels }
    ensures written_levels_read_back { WrittenLevelsReadBack }
{
    512
}

/// The most cues that a store may have. At every moment of every run, the book that is fed the run's list alone and the
/// store agree on which cues are recorded and held, and on what is refused.
pub fn most_cues() -> usize
    ensures value { result ≡ most_cues }
    ensures book_and_store_agree { BookAndStoreAgree }
{
    64
}

/// The most cells that a store may have. After every run, a recall of a cue whose words were damaged by less than the
/// distance in each stretch gives the levels that were last recorded.
pub fn most_cells() -> usize
    ensures value { result ≡ most_cells }
    ensures recall_gives_what_was_last_recorded { RecallGivesWhatWasLastRecorded }
{
    1_048_576
}
