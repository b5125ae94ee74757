//! What happened in a run, as plain data. The trace, the map and the list of objects are printed from it. Nodes and processes are counted
//! from 0; objects, entries and lines of the source from 1.

/// A node: its name, and the kind of its machine.
#[derive(Drop)]
pub struct NodeSeen {
    pub name: String,
    pub kind: &'static str,
}

/// An object: the name of its class, the node on which it began, and the entry that made it; 0 where the load did.
#[derive(Drop)]
pub struct ObjectSeen {
    pub class: String,
    pub node: u32,
    pub made_by: u32,
}

/// An object has gone from one node to another.
#[derive(Clone, Copy)]
pub struct Step {
    pub object: u32,
    pub from: u32,
    pub to: u32,
}

/// Who has an entry: a process, or the operator.
#[derive(Clone, Copy, PartialEq, Eq)]
pub enum Actor {
    Process(u32),
    Operator,
}

/// Which line of the source a stop tells.
#[derive(Clone, Copy, PartialEq, Eq)]
pub enum LineSeen {
    At(u32),
    /// The stop tells none. Its operation begins in this line.
    Within(u32),
    /// It is in no operation of the source.
    Nowhere,
}

/// The stop at which a process rests: its node, its line, and what it is, with its operands.
#[derive(Drop)]
pub struct StopSeen {
    pub node: u32,
    pub line: LineSeen,
    pub what: String,
}

/// What an entry did.
#[derive(Drop)]
pub enum Deed {
    /// Nothing: the process isn't there or can't go on; or the object or the node isn't there, or a member of the group is fixed.
    Idle,
    Made {
        object: u32,
    },
    /// Objects have gone, in so many parcels that had so many bytes together.
    Moved {
        steps: Vec<Step>,
        parcels: u32,
        bytes: u64,
    },
    Printed(String),
    /// A process waits: for what, in words.
    Blocked(String),
    /// Another process that waited may go on.
    Granted {
        process: u32,
    },
    Started {
        process: u32,
    },
    Ended,
    /// The process has failed: why, in words, in which line, and its calls, the innermost first.
    Failed {
        why: &'static str,
        line: u32,
        calls: Vec<String>,
    },
}

/// One entry of a run: who had it, at which stop, what it did, and how many instructions were then run, on which node.
#[derive(Drop)]
pub struct EntrySeen {
    pub number: u32,
    pub actor: Actor,
    pub stop: Option<StopSeen>,
    pub deeds: Vec<Deed>,
    pub instructions: u64,
    pub ran_on: Option<u32>,
}

/// What happened in a run. Object number n stands at place n - 1; the nodes' own objects come first.
#[derive(Drop)]
pub struct History {
    pub nodes: Vec<NodeSeen>,
    pub objects: Vec<ObjectSeen>,
    pub entries: Vec<EntrySeen>,
    /// How the run ended, as the last line of a report tells it.
    pub end: String,
}

impl History {
    /// The name of a node; `nowhere` where there is no such node.
    pub fn node_name(&self, node: u32) -> &str {
        match self.nodes.get(node as usize) {
            Some(node) => node.name.as_str(),
            None => "nowhere",
        }
    }

    /// The name of an object's class; `nothing` where there is no such object.
    pub fn class_name(&self, object: u32) -> &str {
        match self.object(object) {
            Some(object) => object.class.as_str(),
            None => "nothing",
        }
    }

    /// The object of a number, where it is there.
    pub fn object(&self, number: u32) -> Option<&ObjectSeen> {
        let place = number.checked_sub(1)?;
        self.objects.get(place as usize)
    }
}
