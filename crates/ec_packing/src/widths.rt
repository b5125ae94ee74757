//! Numbers of 32 bits in a parcel. Nothing is done here: what the calls look at has these types, so their contracts can say it.
ghost use Rattle.ec_packing.specs.Narrow as spec;
ghost use Rattle.ec_packing.specs.Narrow.{EachIs, HasBits, IsNarrow, NarrowActivation, NarrowContents, NarrowHold, NarrowHolder};
ghost use Rattle.ec_packing.specs.Narrow.{NarrowMonitor, NarrowObject, NarrowPart};

use ec_base::list::Seq;
use ec_monitors::record::{Hold, MonitorRec};
use ec_wire::parcel::{ActivationPart, Contents, MonitorPart, ObjectPart};
use ec_world::value::Value;

/// Each number of a parcel has 32 bits.
pub(crate) fn look_at(contents: &Contents)
    ensures { NarrowContents contents.now }
{
    look_at_objects(contents.objects.as_slice());
    look_at_monitors(contents.monitors.as_slice());
    look_at_activations(contents.activations.as_slice());
}

fn look_at_objects(parts: &[ObjectPart])
    ensures { EachIs NarrowObject parts.now }
{
    for part in parts {
        look_at_object(part);
    }
}

fn look_at_object(part: &ObjectPart)
    ensures { NarrowObject part.now }
{
    let _number = part.number;
    let _class = part.class;
    look_at_values(part.values.as_slice());
}

fn look_at_monitors(parts: &[MonitorPart])
    ensures { EachIs NarrowPart parts.now }
{
    for part in parts {
        look_at_part(part);
    }
}

fn look_at_part(part: &MonitorPart)
    ensures { NarrowPart part.now }
{
    let _object = part.object;
    look_at_monitor(&part.monitor);
}

fn look_at_monitor(monitor: &MonitorRec)
    ensures { NarrowMonitor monitor.now }
{
    look_at_holder(monitor.holder);
    look_at_numbers(monitor.entry.as_slice());
    look_at_holds(monitor.urgent.as_slice());
    look_at_queues(monitor.conditions.as_slice());
}

fn look_at_holder(holder: Option<Hold>)
    ensures { NarrowHolder holder }
{
    if let Some(hold) = holder {
        look_at_hold(hold);
    }
}

fn look_at_numbers(numbers: &[u32])
    ensures { EachIs HasBits numbers.now }
{}

fn look_at_queues(queues: &[Seq<Hold>])
    ensures { EachIs (EachIs NarrowHold) queues.now }
{
    for queue in queues {
        look_at_holds(queue.as_slice());
    }
}

fn look_at_holds(holds: &[Hold])
    ensures { EachIs NarrowHold holds.now }
{
    for hold in holds {
        look_at_hold(*hold);
    }
}

fn look_at_hold(hold: Hold)
    ensures { NarrowHold hold }
{
    let _process = hold.process;
    let _depth = hold.depth;
}

fn look_at_activations(parts: &[ActivationPart])
    ensures { EachIs NarrowActivation parts.now }
{
    for part in parts {
        look_at_activation(part);
    }
}

fn look_at_activation(part: &ActivationPart)
    ensures { NarrowActivation part.now }
{
    let _process = part.process;
    let _depth = part.depth;
    let _operation = part.operation;
    let _stop = part.stop;
    let _own = part.own;
    look_at_values(part.values.as_slice());
}

fn look_at_values(values: &[Value])
    ensures { EachIs IsNarrow values.now }
{
    for value in values {
        look_at_value(value);
    }
}

fn look_at_value(value: &Value)
    ensures { IsNarrow value.now }
{
    if let Value::Ref(oid) = value {
        let _oid = *oid;
    }
}
