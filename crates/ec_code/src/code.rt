//! Three-address code: what an operation of an object does between its stops, and at them.
use ec_base::list::Seq;
use ec_types::conform::static_type::StaticType;
use ec_world::class::{ClassNo, Classes};
use ec_world::stop::Stop;
use ec_world::value::Text;

/// A variable of an operation.
#[derive(Clone, Copy, PartialEq, Eq, Debug)]
pub enum Variable {
    /// A parameter, the result or a local, by its number in the operation: parameters first, then the result, then the locals
    /// in the order of the text.
    Named(u32),
    /// A value that is held while others are worked out, by how many are held below it.
    Temporary(u32),
}

/// What is read: a variable, or a value that the code says.
#[derive(Clone, Copy, PartialEq, Eq, Debug)]
pub enum Operand {
    Of(Variable),
    Number(i32),
    Truth(bool),
    Nil,
}

/// Arithmetic on two numbers of 32 bits. Sums, differences and products wrap; a quotient is truncated towards 0, and the
/// remainder is that of this quotient; neither is there for a divisor of 0.
#[derive(Clone, Copy, PartialEq, Eq, Debug)]
pub enum Arithmetic {
    Sum,
    Difference,
    Product,
    Quotient,
    Remainder,
}

/// What comes out true or false.
#[derive(Clone, Copy, PartialEq, Eq, Debug)]
pub enum Test {
    /// A truth is true.
    Holds(Operand),
    /// Two values of one value type have the same contents, or two references are of one object, or both nil.
    Same(Operand, Operand),
    /// The first number is below the second.
    Less(Operand, Operand),
    /// The first number is at most the second.
    LessEqual(Operand, Operand),
    /// Of two numbers, the first can be divided by the second: this isn't 0.
    Divides(Operand, Operand),
}

/// A stop: what it is, whether its action is on the own object, which then is its first operand, the variables that have its
/// operands, and, where it gives something, the static type of that and the variable that takes it.
#[derive(Drop)]
pub struct StopRow {
    pub stop: Stop,
    pub on_itself: bool,
    pub operands: Seq<Variable>,
    pub gives: Option<StaticType>,
    pub into: Option<Variable>,
}

/// One step of the code.
#[derive(Drop)]
pub enum Op {
    /// A variable gets what is read.
    Copy {
        to: Variable,
        from: Operand,
    },
    /// A variable gets a literal of the program, by its place among them.
    Literal {
        to: Variable,
        index: u32,
    },
    /// A variable gets the own object.
    Itself {
        to: Variable,
    },
    /// A variable gets a field of the own object, by its number there: captured names and parameters first.
    Field {
        to: Variable,
        field: u32,
    },
    /// A field of the own object gets what is read.
    SetField {
        field: u32,
        from: Operand,
    },
    /// A variable gets a constant of the program, by its place among those with a value.
    Constant {
        to: Variable,
        index: u32,
    },
    /// A variable gets the result of arithmetic.
    Compute {
        how: Arithmetic,
        to: Variable,
        left: Operand,
        right: Operand,
    },
    /// A variable gets whether a test comes out as wanted.
    Decide {
        to: Variable,
        test: Test,
        wanted: bool,
    },
    /// So many steps are passed over where a test comes out as wanted.
    Branch {
        test: Test,
        wanted: bool,
        over: u32,
    },
    /// So many steps are passed over.
    Jump {
        over: u32,
    },
    /// The next turn of a loop: its loop top stands so many steps before.
    Again {
        back: u32,
    },
    /// The activation rests at a stop.
    Rest(StopRow),
}

/// A variable with the static type of the value that it has.
#[derive(Clone, Copy, PartialEq, Eq, Debug)]
pub struct Live {
    pub variable: Variable,
    pub of: StaticType,
}

/// A step, and the variables that are live before it: those that some way from here reads before it writes them.
#[derive(Drop)]
pub struct Line {
    pub op: Op,
    pub live: Seq<Live>,
}

/// An operation of the objects of a class: the types of its parameters, and of its result where it has one; whether it is
/// the lowest of a process, and so returns to none; the types of its named variables; and its code, which begins with the
/// entry stop. A stop is known by its place in the code, from 0.
#[derive(Drop)]
pub struct Operation {
    pub class: ClassNo,
    pub parameters: Seq<StaticType>,
    pub result: Option<StaticType>,
    pub is_lowest: bool,
    pub variables: Seq<StaticType>,
    pub code: Seq<Line>,
}

/// The parts of a program: its classes, the types of its constants with a value, its literals, each text once and the empty
/// one among them, and its operations. Operation 0 is the program's own.
#[derive(Drop)]
pub struct Parts {
    pub classes: Classes,
    pub constants: Seq<StaticType>,
    pub literals: Seq<Text>,
    pub operations: Seq<Operation>,
}
