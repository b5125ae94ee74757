//! What holds of each trial.
ghost use Rattle.ec_trial.specs.Laws.{EachEntryNamesWhatIsThere, EachTextIsShort, EachTrialIsSmall};

/// A trial has 2 to 8 workers of at most 2,000 rounds, 1 to 6 nodes, and 300 entries.
pub fn each_trial_is_small()
    ensures { EachTrialIsSmall }
{}

/// Each entry is a turn of a process that there is once all workers are made, or a move of an object that is then there and no
/// node's own, to a node that there is.
pub fn each_entry_names_what_is_there()
    ensures { EachEntryNamesWhatIsThere }
{}

/// The texts are far shorter than a source, a node file and a schedule may be, which is 1,048,576 bytes.
pub fn each_text_is_short()
    ensures { EachTextIsShort }
{}
