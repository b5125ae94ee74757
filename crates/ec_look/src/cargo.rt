//! What a move carries: which objects from where, in how many parcels, of how many bytes. Sizes are those of the wire form.
use crate::watching::CodeRun;
use ec_code::activation::CodeActivation;
use ec_code::code::{Op, Parts, StopRow, Variable};
use ec_code::steps::is_same;
use ec_monitors::monitor::Monitor;
use ec_network::nodes_running::network::Network;
use ec_world::group::group;
use ec_world::object::ObjectRec;
use ec_world::stop::Stop;
use ec_world::value::{NodeNo, Oid, Value};
use std::alloc::{AllocError, Global};

/// The members of a group that aren't at the target, rising, with the nodes on which they are.
#[derive(Drop)]
pub(crate) struct Cargo {
    pub members: Vec<(Oid, NodeNo)>,
    pub parcels: u32,
    pub bytes: u64,
}

/// A parcel without things: letters, version, and three counts.
const EMPTY_PARCEL: u64 = 16;

/// An object without its values: its number, its class, and a count.
const EMPTY_OBJECT: u64 = 12;

/// An activation without its values: its process, its depth, its operation, its stop, whether it is pending, its object, and a count.
const EMPTY_ACTIVATION: u64 = 25;

/// The node of an object.
pub(crate) fn place(net: &Network, oid: Oid) -> Option<NodeNo> {
    if net.is_whole() { net.place(oid) } else { None }
}

/// The node of an object; none of the nodes where it isn't there.
pub(crate) fn node_at(net: &Network, oid: Oid) -> NodeNo {
    place(net, oid).unwrap_or(NodeNo::MAX)
}

/// What a move of an object's group to a node would carry now.
pub(crate) fn carried_by(
    alloc: Global,
    net: &Network,
    running: &CodeRun<'_>,
    oid: Oid,
    target: NodeNo,
) -> Result<Cargo, AllocError> {
    let mut cargo = Cargo {
        members: Vec::new(alloc),
        parcels: 0,
        bytes: 0,
    };
    let mut from_nodes = Vec::new(alloc);
    for member in &group(&running.world, oid)? {
        let Some(from) = place(net, *member) else {
            continue;
        };
        if from == target {
            continue;
        }
        if !from_nodes.iter().any(|node| *node == from) {
            from_nodes.push(from)?;
            cargo.parcels = cargo.parcels.saturating_add(1);
            cargo.add(EMPTY_PARCEL);
        }
        cargo.members.push((*member, from))?;
        cargo.add(object_bytes(alloc, running, *member)?);
    }
    cargo.add_activations(running);
    Ok(cargo)
}

/// The group and the node that the action of a stop would move, where it moves any.
pub(crate) fn asked_move(net: &Network, stop: Stop, operands: &[Value]) -> Option<(Oid, NodeNo)> {
    match stop {
        Stop::Move { .. } | Stop::Fix { .. } | Stop::Refix { .. } => {}
        _ => return None,
    }
    match operands {
        [Value::Ref(oid), Value::Ref(to), ..] => Some((*oid, place(net, *to)?)),
        _ => None,
    }
}

impl Cargo {
    fn add(&mut self, bytes: u64) {
        self.bytes = self.bytes.saturating_add(bytes);
    }

    /// The activations on members.
    fn add_activations(&mut self, running: &CodeRun<'_>) {
        for process in running.world.processes.as_slice() {
            self.add_those_of(process.activations.as_slice(), running.code.parts);
        }
    }

    /// The activations of a process that are on members.
    fn add_those_of(&mut self, activations: &[CodeActivation], parts: &Parts) {
        for activation in activations {
            if self.has(activation.own) {
                self.add(activation_bytes(parts, activation));
            }
        }
    }

    /// Whether an object is carried.
    fn has(&self, oid: Oid) -> bool {
        self.members.iter().any(|(member, _)| *member == oid)
    }
}

/// How many bytes a value has.
fn value_bytes(value: &Value) -> u64 {
    match value {
        Value::Nil => 1,
        Value::Bool(_) => 2,
        Value::Int(_) | Value::Ref(_) => 5,
        Value::Str(text) => (text.len() as u64).saturating_add(5),
    }
}

/// How many bytes values have together.
fn values_bytes(values: &[Value]) -> u64 {
    let mut bytes = 0u64;
    for value in values {
        bytes = bytes.saturating_add(value_bytes(value));
    }
    bytes
}

/// How many bytes an object has, with its monitor.
fn object_bytes(alloc: Global, running: &CodeRun<'_>, oid: Oid) -> Result<u64, AllocError> {
    let Some(object) = running.world.common.object(oid) else {
        return Ok(0);
    };
    let fields = values_bytes(object.fields.as_slice());
    let monitor = match &object.monitor {
        Some(monitor) => monitor_bytes(alloc, monitor)?,
        None => 0,
    };
    Ok(EMPTY_OBJECT.saturating_add(fields).saturating_add(monitor))
}

/// How many bytes a monitor has: its object, whether it is held, its holder, and its queues.
fn monitor_bytes(alloc: Global, monitor: &Monitor) -> Result<u64, AllocError> {
    let record = monitor.to_record(alloc)?;
    let mut bytes = if record.holder.is_some() {
        25u64
    } else {
        17u64
    };
    bytes = bytes.saturating_add((record.entry.len() as u64).saturating_mul(4));
    bytes = bytes.saturating_add((record.urgent.len() as u64).saturating_mul(8));
    for queue in record.conditions.as_slice() {
        bytes = bytes
            .saturating_add(4)
            .saturating_add((queue.len() as u64).saturating_mul(8));
    }
    Ok(bytes)
}

/// How many bytes an activation has: the operands of its stop while its action is pending, and what is live behind it.
fn activation_bytes(parts: &Parts, activation: &CodeActivation) -> u64 {
    let mut bytes = EMPTY_ACTIVATION;
    if activation.pending {
        bytes = bytes.saturating_add(values_bytes(activation.operands.as_slice()));
    }
    let Some(operation) = parts.operations.get(activation.operation as usize) else {
        return bytes;
    };
    let place = activation.at as usize;
    let (Some(line), Some(next)) = (operation.code.get(place), operation.code.get(place + 1)) else {
        return bytes;
    };
    let Op::Rest(row) = &line.op else {
        return bytes;
    };
    if leaves(row.stop) {
        return bytes;
    }
    for live in next.live.as_slice() {
        if !takes(row, live.variable) {
            bytes = bytes.saturating_add(variable_bytes(activation, live.variable));
        }
    }
    bytes
}

/// Whether no code goes on behind a stop.
fn leaves(stop: Stop) -> bool {
    match stop {
        Stop::Return { .. } | Stop::End | Stop::Fail { .. } => true,
        _ => false,
    }
}

/// Whether a variable takes what a stop gives.
fn takes(row: &StopRow, variable: Variable) -> bool {
    match row.into {
        Some(into) => is_same(into, variable),
        None => false,
    }
}

/// How many bytes the value of a variable has.
fn variable_bytes(activation: &CodeActivation, variable: Variable) -> u64 {
    let value = match variable {
        Variable::Named(n) => activation.variables.get(n as usize),
        Variable::Temporary(n) => activation.temporaries.get(n as usize),
    };
    match value {
        Some(value) => value_bytes(value),
        None => 1,
    }
}
