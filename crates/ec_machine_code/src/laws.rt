//! What holds of code that is laid out in the words of any kind of machine.
ghost use Rattle.ec_machine_code.specs.Machine.{MachineMeaning};
ghost use Rattle.ec_machine_code.specs.Fitted.{EachStopHasAFit};
ghost use Rattle.ec_machine_code.specs.Fitting.{LaidOutIsFaithful};

/// A kind of machine, by what it means to code.
pub trait Target {
    ghost State: { Type 0 };

    ghost meaning: { MachineMeaning State };
}

/// Code that is laid out in the words of a kind which speaks two vocabularies is faithful to its program, where the program is well
/// typed, its numbers fit words, homes fit its operations, and there is room.
pub fn laid_out_is_faithful<T: Target>()
    ensures { LaidOutIsFaithful T.meaning }
{}

/// What faithful code is asked to go on from can be met: at each stop of each such program with few constants, fields and literals, all
/// different, some activation and some state of a machine that can rest anywhere fit one another.
pub fn each_stop_has_a_fit<T: Target>()
    ensures { EachStopHasAFit T.meaning }
{}
