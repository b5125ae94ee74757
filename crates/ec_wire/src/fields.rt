//! The fields of a parcel: values, objects, monitors and activations.
ghost use Rattle.std.proofs.Common.{rules};
ghost use Rattle.std.specs.Prelude.{◌≡◌, ◌+◌, ◌≤◌, length, IfOk, IfSome, IfNone, List, Some, None};
ghost use Rattle.ec_base.specs.Stack.{top_of};
ghost use Rattle.ec_formats.specs.Answers.{Gives};
ghost use Rattle.ec_formats.specs.Combinators.{such_that};
ghost use Rattle.ec_formats.specs.Fields.{number};
ghost use Rattle.ec_formats.specs.Format.{Format};
ghost use Rattle.ec_formats.specs.Lists.{list_of};
ghost use Rattle.ec_wire.specs.WireForm as form;

use crate::parcel::*;
use ec_base::list::Seq;
use ec_formats::error::FieldError;
use ec_formats::field::*;
use ec_formats::reading::*;
use ec_formats::writing::*;
use ec_monitors::record::{Hold, MonitorRec};
use ec_world::value::Value;
use std::alloc::{AllocError, Global};

/// The wire form of version 1.
pub struct Emv1;

impl Field<Emv1> for Value {
    ghost format = { λ _. form.value };

    const LEAST: usize = 1;

    ghost LEAST = { 1 };

    ghost takes_some = { Prim.search rules };

    #[tactic(auto, unfolding(crate::specs::WireForm::value_read))]
    fn read<'a>(
        alloc: Global,
        _before: &[Value],
        bytes: &'a [u8],
    ) -> Result<(Value, &'a [u8]), FieldError> {
        match bytes {
            [] => Err(FieldError::Fault(0)),
            [0, rest @ ..] => Ok((Value::Nil, rest)),
            [1, rest @ ..] => {
                let (integer, rest) = read_integer(rest)?;
                Ok((Value::Int(integer), rest))
            }
            [2, rest @ ..] => {
                let (truth, rest) = read_truth(rest)?;
                Ok((Value::Bool(truth), rest))
            }
            [3, rest @ ..] => {
                let (text, rest) = read_text(alloc, 65_535, rest)?;
                Ok((Value::Str(text), rest))
            }
            [4, rest @ ..] => {
                let (object, rest) = read_number_from(1, rest)?;
                Ok((Value::Ref(object), rest))
            }
            [_, ..] => Err(FieldError::Fault(bytes.len())),
        }
    }

    #[tactic(auto, unfolding(crate::specs::WireForm::value_fits))]
    fn write(&self, out: &mut Vec<u8>) -> Result<(), AllocError> {
        match self {
            Value::Nil => out.push(0)?,
            Value::Int(integer) => {
                out.push(1)?;
                put_integer(out, *integer)?;
            }
            Value::Bool(truth) => {
                out.push(2)?;
                put_truth(out, *truth)?;
            }
            Value::Str(text) => {
                out.push(3)?;
                put_text(out, text)?;
            }
            Value::Ref(object) => {
                out.push(4)?;
                put_number(out, *object)?;
            }
        }
        Ok(())
    }
}

impl Field<Emv1> for ObjectPart {
    ghost format = { form.object };

    const LEAST: usize = 12;

    ghost LEAST = { 12 };

    ghost takes_some = { Prim.search rules };

    fn read<'a>(
        alloc: Global,
        before: &[ObjectPart],
        bytes: &'a [u8],
    ) -> Result<(ObjectPart, &'a [u8]), FieldError> {
        let (number, rest) = read_number_above(last_number(before), bytes)?;
        let (class, rest) = read_number(rest)?;
        let (values, rest) = read_list::<Emv1, _>(alloc, 16_384, rest)?;
        Ok((
            ObjectPart {
                number,
                class,
                values,
            },
            rest,
        ))
    }

    fn write(&self, out: &mut Vec<u8>) -> Result<(), AllocError> {
        put_number(out, self.number)?;
        put_number(out, self.class)?;
        put_list::<Emv1, _>(out, &self.values)
    }
}

impl Field<Emv1> for MonitorPart {
    ghost format = { form.monitor };

    const LEAST: usize = 17;

    ghost LEAST = { 17 };

    ghost takes_some = { Prim.search rules };

    fn read<'a>(
        alloc: Global,
        before: &[MonitorPart],
        bytes: &'a [u8],
    ) -> Result<(MonitorPart, &'a [u8]), FieldError> {
        let (object, rest) = read_number_above(last_object(before), bytes)?;
        let (holder, rest) = read_optional::<Emv1, _>(alloc, rest)?;
        let (entry, rest) = read_list::<Emv1, _>(alloc, u32::MAX, rest)?;
        let (urgent, rest) = read_list::<Emv1, _>(alloc, u32::MAX, rest)?;
        let (conditions, rest) = read_list::<Emv1, _>(alloc, u32::MAX, rest)?;
        let monitor = MonitorRec {
            holder,
            entry,
            urgent,
            conditions,
        };
        Ok((MonitorPart { object, monitor }, rest))
    }

    fn write(&self, out: &mut Vec<u8>) -> Result<(), AllocError> {
        put_number(out, self.object)?;
        put_optional::<Emv1, _>(out, &self.monitor.holder)?;
        put_list::<Emv1, _>(out, &self.monitor.entry)?;
        put_list::<Emv1, _>(out, &self.monitor.urgent)?;
        put_list::<Emv1, _>(out, &self.monitor.conditions)
    }
}

/// The number of a process in an entry queue.
impl Field<Emv1> for u32 {
    ghost format = { λ _. number };

    const LEAST: usize = 4;

    ghost LEAST = { 4 };

    ghost takes_some = { Prim.search rules };

    fn read<'a>(
        _alloc: Global,
        _before: &[u32],
        bytes: &'a [u8],
    ) -> Result<(u32, &'a [u8]), FieldError> {
        read_number(bytes)
    }

    fn write(&self, out: &mut Vec<u8>) -> Result<(), AllocError> {
        put_number(out, *self)
    }
}

/// A process and its depth in a monitor.
impl Field<Emv1> for Hold {
    ghost format = { λ _. form.hold };

    const LEAST: usize = 8;

    ghost LEAST = { 8 };

    ghost takes_some = { Prim.search rules };

    fn read<'a>(
        _alloc: Global,
        _before: &[Hold],
        bytes: &'a [u8],
    ) -> Result<(Hold, &'a [u8]), FieldError> {
        let (process, rest) = read_number(bytes)?;
        let (depth, rest) = read_number_from(1, rest)?;
        Ok((Hold { process, depth }, rest))
    }

    fn write(&self, out: &mut Vec<u8>) -> Result<(), AllocError> {
        put_number(out, self.process)?;
        put_number(out, self.depth)
    }
}

/// The queue of a condition.
impl Field<Emv1> for Seq<Hold> {
    ghost format = { λ _. list_of form.most form.hold };

    const LEAST: usize = 4;

    ghost LEAST = { 4 };

    ghost takes_some = { Prim.search rules };

    fn read<'a>(
        alloc: Global,
        _before: &[Seq<Hold>],
        bytes: &'a [u8],
    ) -> Result<(Seq<Hold>, &'a [u8]), FieldError> {
        read_list::<Emv1, _>(alloc, u32::MAX, bytes)
    }

    fn write(&self, out: &mut Vec<u8>) -> Result<(), AllocError> {
        put_list::<Emv1, _>(out, self)
    }
}

impl Field<Emv1> for ActivationPart {
    ghost format = { form.activation };

    const LEAST: usize = 25;

    ghost LEAST = { 25 };

    ghost takes_some = { Prim.search rules };

    fn read<'a>(
        alloc: Global,
        before: &[ActivationPart],
        bytes: &'a [u8],
    ) -> Result<(ActivationPart, &'a [u8]), FieldError> {
        let (process, rest) = read_process(before, bytes)?;
        let (depth, rest) = read_depth(before, process, rest)?;
        let (operation, rest) = read_number(rest)?;
        let (stop, rest) = read_number(rest)?;
        let (is_pending, rest) = read_truth(rest)?;
        let (own, rest) = read_number_from(1, rest)?;
        let (values, rest) = read_list::<Emv1, _>(alloc, 100, rest)?;
        Ok((
            ActivationPart {
                process,
                depth,
                operation,
                stop,
                is_pending,
                own,
                values,
            },
            rest,
        ))
    }

    fn write(&self, out: &mut Vec<u8>) -> Result<(), AllocError> {
        put_number(out, self.process)?;
        put_number(out, self.depth)?;
        put_number(out, self.operation)?;
        put_number(out, self.stop)?;
        put_truth(out, self.is_pending)?;
        put_number(out, self.own)?;
        put_list::<Emv1, _>(out, &self.values)
    }
}

/// The number of the last object read so far; 0 where there is none.
fn last_number(before: &[ObjectPart]) -> u32
    ensures { result ≡ form.last_number (top_of before.now) }
{
    match last_of(before) {
        None => 0,
        Some(last) => last.number,
    }
}

/// The object of the last monitor read so far; 0 where there is none.
fn last_object(before: &[MonitorPart]) -> u32
    ensures { result ≡ form.last_object (top_of before.now) }
{
    match last_of(before) {
        None => 0,
        Some(last) => last.object,
    }
}

/// A process that may follow the activations read so far.
fn read_process<'a>(
    before: &[ActivationPart],
    bytes: &'a [u8],
) -> Result<(u32, &'a [u8]), FieldError>
    ensures value { Gives (λ x. (x.0, x.1.now)) result ((such_that number (form.process_follows (top_of before.now))).read bytes.now) }
    ensures least { IfOk result (λ x. length x.1.now + 4 ≤ length bytes.now) }
{
    let (process, rest) = read_number(bytes)?;
    if !process_follows(before, process) {
        return Err(FieldError::Fault(bytes.len()));
    }
    Ok((process, rest))
}

/// A depth, in this process, that may follow the activations read so far.
fn read_depth<'a>(
    before: &[ActivationPart],
    process: u32,
    bytes: &'a [u8],
) -> Result<(u32, &'a [u8]), FieldError>
    ensures value { Gives (λ x. (x.0, x.1.now)) result ((such_that number (form.depth_follows (top_of before.now) process)).read bytes.now) }
    ensures least { IfOk result (λ x. length x.1.now + 4 ≤ length bytes.now) }
{
    let (depth, rest) = read_number(bytes)?;
    if !depth_follows(before, process, depth) {
        return Err(FieldError::Fault(bytes.len()));
    }
    Ok((depth, rest))
}

fn process_follows(before: &[ActivationPart], process: u32) -> bool
    ensures { result ≡ form.process_follows (top_of before.now) process }
{
    match last_of(before) {
        None => true,
        Some(last) => !(process < last.process),
    }
}

fn depth_follows(before: &[ActivationPart], process: u32, depth: u32) -> bool
    ensures { result ≡ form.depth_follows (top_of before.now) process depth }
{
    match last_of(before) {
        None => true,
        Some(last) => last.process < process || last.depth < depth,
    }
}

/// The last of the items read so far.
fn last_of<T>(before: &[T]) -> Option<&T>
    ensures some { IfSome result (λ last. top_of before.now ≡ Some last.now) }
    ensures none { IfNone result (top_of before.now ≡ None) }
{
    if before.is_empty() {
        return None;
    }
    Some(&before[before.len() - 1])
}
