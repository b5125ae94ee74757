//! What is kept of owners of blocks beside their words.
ghost use Rattle.std.specs.Prelude.{◌≡◌, ◌+◌, ◌/◌, max};
ghost use Rattle.ec_world.specs.Things as spec;

use ec_base::list::Seq;
use ec_monitors::monitor::Monitor;
use ec_world::class::ClassNo;
use ec_world::value::Oid;

/// An object: its blocks in the order of its words, how many fields or elements it has, its class, whether it is fixed at its node,
/// and its monitor, if its class has one.
#[derive(Drop)]
pub struct ObjectRow {
    pub blocks: Seq<u32>,
    pub size: u32,
    pub class: ClassNo,
    pub fixed: bool,
    pub monitor: Option<Monitor>,
}

/// An activation: the object that it is on, and its block.
#[derive(Clone, Copy)]
pub struct FrameRow {
    pub home: Oid,
    pub block: u32,
}

/// What a node says of an object: its class, how many fields or elements it has, and whether it is fixed.
#[derive(Clone, Copy, PartialEq, Eq, Debug)]
pub struct Object {
    pub class: ClassNo,
    pub size: u32,
    pub fixed: bool,
}

/// How many blocks an object of a class with so many fields or elements has: the object of a node none, any other one for each
/// 128 of these, and at least one.
pub fn class_blocks(class: ClassNo, size: u32) -> u32
    ensures { result ≡ spec.class_blocks class size }
{
    match class {
        ClassNo::Node => 0,
        ClassNo::Program | ClassNo::Made(_) | ClassNo::Vector(_) => blocks_for(size),
    }
}

// How many blocks hold so many words, at least one.
fn blocks_for(words: u32) -> u32
    ensures { result ≡ max 1 ((words + 127) / 128) }
{
    if words == 0 {
        return 1;
    }
    (words - 1) / 128 + 1
}
