//! The machine code of a program.
ghost use Rattle.std.specs.Prelude.{◌≡◌, ℕ, ◌≤◌, Some, IfOk, length, slice_get};
ghost use Rattle.ec_code.specs.declared.code.Operation.{Operation as One};
ghost use Rattle.ec_code.specs.Fine.{Fine};
ghost use Rattle.ec_code.specs.Typing.{Declared};
ghost use Rattle.ec_machine_code.specs.Limits.{HasLimits};
ghost use Rattle.ec_machine_code.specs.Fitted.{CanRest, HasFew};
ghost use Rattle.ec_machine_code.specs.Fitting.{HomesFit};
ghost use Rattle.ec_machine_code.specs.Layout.{HasOrders, HasRoom, code_of};
ghost use Rattle.ec_machine_code.specs.Once.{FaithfulOnce};
ghost use Rattle.ec_machine_code.specs.Speaks.{Speaks, words_end};
ghost use Rattle.ec_generate.specs.Addresses.{HasFew as HasFewStops};
ghost use Rattle.ec_generate.specs.Fits.{EachFits};
ghost use Rattle.ec_generate.specs.Tables.{AreTablesWithin, all_homes};

use crate::direct::led_to;
use crate::fitting::FittingProgram;
use crate::kind::Kind;
use crate::operation::put_operation;
use crate::order::order_of;
use crate::site::Site;
use crate::sizes::span_of;
use crate::table::StopTable;
use ec_base::list::Seq;
use ec_code::code::{Operation, Parts};
use ec_machine_code::code::Code;
use ec_machine_code::homes::Home;
use ec_machine_code::laws::Target;
use std::alloc::{AllocError, Global};

/// An operation with the places to which its steps lead, the homes of its variables, and the order of its steps.
fn site_of<'a>(
    operation: &'a Operation,
    led: &'a [bool],
    row: &'a Seq<Home>,
    order: &'a Seq<usize>,
) -> Site<'a>
    ensures code { result.code.now ≡ operation.now.code }
    ensures led { result.led.now ≡ led.now }
    ensures named { result.named ≡ length operation.now.variables }
    ensures homes { result.homes.now ≡ row.now }
    ensures order { result.order.now ≡ order.now }
{
    Site {
        code: &operation.code,
        led,
        named: operation.variables.len(),
        homes: row,
        order,
    }
}

/// The order of the steps of each operation. The error is want of memory.
fn orders_of(alloc: Global, parts: &Parts) -> Result<Seq<Seq<usize>>, AllocError>
    ensures ordered { IfOk result (λ orders. HasOrders orders parts.now) }
    ensures many { IfOk result (λ orders. length orders ≡ length parts.now.operations) }
{
    let mut orders = Seq::new(alloc);
    let count = parts.operations.len();
    for n in 0..count {
        orders.push(order_of(alloc, &parts.operations.at(n).code)?)?;
    }
    Ok(orders)
}

/// Lays out the words of each operation's steps in their order, and the operations behind one another.
fn lay_out<K: Kind>(
    alloc: Global,
    kind: &K,
    parts: &Parts,
    table: &StopTable,
    orders: &Seq<Seq<usize>>,
) -> Result<Code, AllocError>
    requires fine { (d : Declared) × Fine d parts.now }
    requires limits { HasLimits parts.now }
    requires tables { AreTablesWithin K.homes parts.now table.now.operations }
    requires ordered { HasOrders orders.now parts.now }
    requires many { length orders.now ≡ length parts.now.operations }
    ensures code { IfOk result (λ code.
        code ≡ code_of K.vocabularies (all_homes table.now.operations) orders.now parts.now.operations) }
    ensures room { IfOk result
        (λ code. HasRoom K.vocabularies (all_homes table.now.operations) orders.now parts.now) }
    ensures fit { IfOk result (λ code. (n : ℕ) (o : One) → slice_get parts.now.operations n ≡ Some o →
        HomesFit K.homes (all_homes table.now.operations) n o) }
{
    let mut words = Seq::new(alloc);
    let mut operations = Seq::new(alloc);
    for n in 0..parts.operations.len() {
        let operation = parts.operations.at(n);
        let led = led_to(alloc, &operation.code)?;
        let site = site_of(operation, &led, &table.operations.at(n).homes, orders.at(n));
        let span = span_of(kind, &site);
        operations.push(put_operation(alloc, kind, span, &site, &mut words)?)?;
    }
    Ok(Code { words, operations })
}

/// The machine code of a program for a kind of machine, by a stop table for at most as many registers as the kind has for homes, where the
/// kind's words do on the machine what the steps do that they are of. Between any two stops the code does what the program's silent steps do, and passes no word twice. The
/// error is want of memory.
pub fn generate<K: Kind, M: Target>(
    alloc: Global,
    kind: &K,
    program: &FittingProgram,
    table: &StopTable,
) -> Result<Code, AllocError>
    requires near { Speaks M.meaning K.vocabularies.near }
    requires middle { Speaks M.meaning K.vocabularies.middle }
    requires far { Speaks M.meaning K.vocabularies.far }
    requires homes { M.meaning.homes ≡ K.homes }
    requires tables { AreTablesWithin K.homes program.now table.now.operations }
    ensures faithful { IfOk result (λ code. FaithfulOnce M.meaning program.now code (all_homes table.now.operations)) }
    ensures met { IfOk result (λ code. (d : Declared) → Fine d program.now → CanRest M.meaning → HasFew d program.now →
        EachFits M.meaning program.now code (all_homes table.now.operations)) }
    ensures low { IfOk result (λ code. length code.words ≤ words_end) }
    ensures few { IfOk result (λ code. HasFewStops code) }
{
    let parts = program.parts();
    let orders = orders_of(alloc, parts)?;
    let code = lay_out(alloc, kind, parts, table, &orders)?;
    Ok(code)
}
