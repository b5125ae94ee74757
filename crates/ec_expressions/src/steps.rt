//! What is done once the parts of an expression are worked out.
ghost use Rattle.std.specs.Prelude.{◌≡◌, ◌++◌, ◌∷◌, OnOk};
ghost use Rattle.ec_core.specs.declared.Expression.{out-Expression};
ghost use Rattle.ec_core.specs.declared.Link.{out-Link};
ghost use Rattle.ec_expressions.specs.Emitting as emitting;

use crate::backward::Backward;
use crate::emitter::Emitter;
use crate::leaves::number;
use crate::operators::stop_order;
use crate::places::copy;
use crate::rows::{above, own_rest, rest};
use crate::types::{BOOLEAN, INTEGER, NODE, builtin_type, stop_of};
use ec_ast::Comparison;
use ec_code::code::{Arithmetic, Op, Operand, Test, Variable};
use ec_core::{At, Compared, Expression, Link};
use ec_meaning::types::{number_of, vector_type};
use ec_types::conform::static_type::{Plain, StaticType};
use ec_world::stop::Stop;
use std::alloc::AllocError;

impl<'a> Emitter<'a> {
    /// What an expression does behind its parts. The error is want of memory, a number of more than 31 bits, or one of a
    /// variable, a field, a constant, a literal, a type or a count of operands of more than 32.
    pub(crate) fn step(&self, x: &Expression, h: u32, out: &mut Backward) -> Result<(), AllocError>
        ensures { OnOk result (out.new ≡ emitting.steps_in self.now (out-Expression x.now) h ++ out.old) }
    {
        let to = Variable::Temporary(h);
        match x {
            Expression::Number(n) => copy(number(*n)?, h, out),
            Expression::Literal(text) => self.literal(text.as_slice(), to, out),
            Expression::Truth(b) => copy(Operand::Truth(*b), h, out),
            Expression::Nil => copy(Operand::Nil, h, out),
            Expression::Itself => out.before(Op::Itself { to }),
            Expression::Read(place) => out.before(self.fetch(to, *place)?),
            Expression::NodeCount => rest(out, Stop::NodeCount, h, 0, Some(INTEGER)),
            Expression::NodeAt(_, at) => self.node_at(*at, h, out),
            Expression::NewVector(of, _, at) => self.new_vector(*of, *at, h, out),
            Expression::Construct(class, places) => self.make(*class, places.len(), h, out),
            Expression::Create(class, xs) => self.make(*class, xs.len(), h, out),
            Expression::Negative(x) => self.negate(x.get(), h, out),
            Expression::Not(x) => self.invert(x.get(), h, out),
            Expression::View(_, of, at) => self.view(*of, *at, h, out),
            Expression::IsFixed(_, at) => self.is_fixed(*at, h, out),
            Expression::Compare(left, how, what, right) => {
                let first = self.operand(left.get(), h)?;
                self.compare_by(*how, *what, first, right.get(), h, out)
            }
            _ => Ok(()),
        }
    }

    fn node_at(&self, at: At, h: u32, out: &mut Backward) -> Result<(), AllocError>
        ensures { OnOk result (out.new ≡ emitting.numbers_node self.now at h ++ out.old) }
    {
        let line = self.line(at);
        rest(out, Stop::NodeAt { line }, h, 1, Some(NODE))
    }

    /// The error is want of memory, or a type's number of more than 32 bits.
    fn new_vector(
        &self,
        of: StaticType,
        at: At,
        h: u32,
        out: &mut Backward,
    ) -> Result<(), AllocError>
        ensures { OnOk result (out.new ≡ emitting.makes_vector self.now of at h ++ out.old) }
    {
        let made = vector_type(of)?;
        let line = self.line(at);
        rest(out, Stop::NewVector { of: made, line }, h, 1, Some(of))
    }

    /// The error is want of memory, or a count of operands or a place of a class of more than 32 bits.
    fn make(&self, class: usize, takes: usize, h: u32, out: &mut Backward) -> Result<(), AllocError>
        ensures { OnOk result (out.new ≡ emitting.makes self.now class takes h ++ out.old) }
    {
        let of = StaticType::Plain(Plain::Named(class));
        let class = self.class_number(class)?;
        rest(out, Stop::New { class }, h, number_of(takes)?, Some(of))
    }

    fn negate(&self, x: &Expression, h: u32, out: &mut Backward) -> Result<(), AllocError>
        ensures { OnOk result (out.new ≡ emitting.computes_negative self.now x.now h ∷ out.old) }
    {
        out.before(Op::Compute {
            how: Arithmetic::Difference,
            to: Variable::Temporary(h),
            left: Operand::Number(0),
            right: self.operand(x, h)?,
        })
    }

    fn invert(&self, x: &Expression, h: u32, out: &mut Backward) -> Result<(), AllocError>
        ensures { OnOk result (out.new ≡ emitting.decides_inverse self.now x.now h ∷ out.old) }
    {
        out.before(Op::Decide {
            to: Variable::Temporary(h),
            test: Test::Holds(self.operand(x, h)?),
            wanted: false,
        })
    }

    /// The error is want of memory, or a type's number of more than 32 bits.
    fn view(&self, of: StaticType, at: At, h: u32, out: &mut Backward) -> Result<(), AllocError>
        ensures { OnOk result (out.new ≡ emitting.views self.now of at h ++ out.old) }
    {
        let to = self.type_viewed(of)?;
        let line = self.line(at);
        rest(out, Stop::View { to, line }, h, 1, Some(of))
    }

    fn is_fixed(&self, at: At, h: u32, out: &mut Backward) -> Result<(), AllocError>
        ensures { OnOk result (out.new ≡ emitting.asks_fixed self.now at h ++ out.old) }
    {
        let line = self.line(at);
        rest(out, Stop::IsFixed { line }, h, 1, Some(BOOLEAN))
    }

    /// What a comparison does with its two values. The error is want of memory, or that of an operand.
    fn compare_by(
        &self,
        how: Comparison,
        what: Compared,
        left: Operand,
        right: &Expression,
        h: u32,
        out: &mut Backward,
    ) -> Result<(), AllocError>
        ensures { OnOk result
            (out.new ≡ emitting.compares_by how what left (emitting.emitted_by self.now right.now) h ++ out.old) }
    {
        self.compare(how, stop_order(how, what), left, right, h, out)
    }

    /// The stop of a link, which may be an invocation on the own object. The error is want of memory, or a number of a name
    /// or a count of operands of more than 32 bits.
    pub(crate) fn link_stop(
        &self,
        link: &Link,
        is_own: bool,
        h: u32,
        out: &mut Backward,
    ) -> Result<(), AllocError>
        ensures { OnOk result (out.new ≡ emitting.stop_if self.now is_own (out-Link link.now) h ++ out.old) }
    {
        match link {
            Link::Invoke(name, xs, gives, at) => {
                let name = self.name_number(name.as_slice())?;
                let line = self.line(*at);
                let takes = above(number_of(xs.len())?)?;
                invoke(out, Stop::Invoke { name, line }, is_own, h, takes, *gives)
            }
            Link::Call(builtin, xs, at) => {
                let stop = stop_of(*builtin, self.line(*at));
                let takes = above(number_of(xs.len())?)?;
                rest(out, stop, h, takes, Some(builtin_type(*builtin)))
            }
            Link::Element(_, of, at) => {
                let line = self.line(*at);
                rest(out, Stop::Get { line }, h, 2, Some(*of))
            }
        }
    }
}

/// An invocation that takes so many values, on the own object or on another. The error is want of memory, or a temporary of
/// more than 32 bits.
fn invoke(
    out: &mut Backward,
    stop: Stop,
    is_own: bool,
    h: u32,
    takes: u32,
    gives: Option<StaticType>,
) -> Result<(), AllocError>
    ensures { OnOk result (out.new ≡ Op.Rest (emitting.invoke_row is_own stop h takes gives) ∷ out.old) }
{
    if is_own {
        own_rest(out, stop, h, takes, gives)
    } else {
        rest(out, stop, h, takes, gives)
    }
}
