//! Steps on words: what machine code of either kind does for a step of three-address code.
use crate::homes::Home;
use ec_code::code::Arithmetic;

/// Where a step finds a word: in a home, or in the code itself.
#[derive(Clone, Copy, PartialEq, Eq, Debug)]
pub enum Source {
    Home(Home),
    Word(u32),
}

/// What is asked of two words.
#[derive(Clone, Copy, PartialEq, Eq, Debug)]
pub enum Relation {
    /// They are the same.
    Same,
    /// The first is below the second, as signed numbers.
    Less,
}

/// Whether a relation between two words comes out as wanted.
#[derive(Clone, Copy, PartialEq, Eq, Debug)]
pub struct Question {
    pub relation: Relation,
    pub left: Source,
    pub right: Source,
    pub wanted: bool,
}

/// A step that is followed by the next one.
#[derive(Clone, Copy, PartialEq, Eq, Debug)]
pub enum Step {
    /// A home gets a word.
    Move {
        into: Home,
        from: Source,
    },
    /// A home gets the node's own reference to the own object, which stands in the frame.
    Itself {
        into: Home,
    },
    /// A home gets a field of the own object.
    Field {
        into: Home,
        field: u32,
    },
    /// A field of the own object gets a word.
    SetField {
        field: u32,
        from: Source,
    },
    /// A home gets a constant of the program.
    Constant {
        into: Home,
        index: u32,
    },
    /// A home gets the result of arithmetic on two words, as signed numbers. A divisor isn't 0.
    Work {
        how: Arithmetic,
        into: Home,
        left: Source,
        right: Source,
    },
    /// A home gets 1 where a question is answered with yes, else 0.
    Decide {
        into: Home,
        question: Question,
    },
}

/// How the code goes on behind a step.
#[derive(Clone, Copy, PartialEq, Eq, Debug)]
pub enum Ending {
    /// To the place of three-address code that is so many steps past the next one, where a question is answered with yes.
    Branch { question: Question, over: u32 },
    /// To the place so many steps past the next one.
    Jump { over: u32 },
    /// To the place so many steps before.
    Again { back: u32 },
    /// It stops.
    Stop,
}
