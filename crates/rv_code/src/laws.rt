//! What holds of the words of steps on RISC-V.
ghost use Rattle.rv_code.specs.Laws.{FarSpeaks, MiddleSpeaks, NearSpeaks};

/// The words do what the steps do, where questions lead near.
pub fn near_words_speak()
    ensures { NearSpeaks }
{}

/// So they do where questions lead as far as a jump reaches.
pub fn middle_words_speak()
    ensures { MiddleSpeaks }
{}

/// So they do where questions and jumps lead anywhere.
pub fn far_words_speak()
    ensures { FarSpeaks }
{}
