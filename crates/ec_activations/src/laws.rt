//! What holds of each frame.
ghost use Rattle.ec_activations.specs.Laws.{EachValueHasAWord, OneWordOneValue, ValuesAreOfNoKind};

/// The values of a frame, and their order, are those of the activation, whatever the kind of machine: so they can go from one kind to
/// another.
pub fn values_are_of_no_kind()
    ensures { ValuesAreOfNoKind }
{}

/// Each value of an activation of a well typed program has a word in its frame, which is none of the headings.
pub fn each_value_has_a_word()
    ensures { EachValueHasAWord }
{}

/// Two values of an activation that have one word in its frame are the same.
pub fn one_word_one_value()
    ensures { OneWordOneValue }
{}
