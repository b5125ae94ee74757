//! What holds of a code that follows another one.
ghost use Rattle.ec_machine_code.specs.Machine.{MachineMeaning};
ghost use Rattle.ec_machine_code.specs.declared.code.Code.{Code};
ghost use Rattle.ec_passes.specs.Following.{EachCodeFollowsItself, FollowingIsShort, FollowingKeepsFaithful};

/// A pass over code of a kind of machine, by what the kind means to code and by when states of both codes are alike.
pub trait Pass {
    ghost State: { Type 0 };

    ghost meaning: { MachineMeaning State };

    ghost alike: { Code → Code → State → State → Type 0 };
}

/// A code that follows faithful code, with its stops one to one, is faithful.
pub fn following_keeps_faithful<T: Pass>()
    ensures { FollowingKeepsFaithful T.meaning T.alike }
{}

/// And it takes no more steps to the next stop.
pub fn following_is_short<T: Pass>()
    ensures { FollowingIsShort T.meaning T.alike }
{}

/// A pass that changes nothing gives a code that follows the one that it was.
pub fn each_code_follows_itself<T: Pass>()
    ensures { EachCodeFollowsItself T.meaning }
{}
