//! What a parcel holds.
ghost use Rattle.std.specs.Prelude.{◌≡◌};

use ec_base::list::Seq;
use ec_monitors::record::MonitorRec;
use ec_world::value::Values;
use std::marker::Model;

/// An object: its number (from 1), the number of its class, and its values (at most 16,384).
#[derive(Drop)]
pub struct ObjectPart {
    pub number: u32,
    pub class: u32,
    pub values: Values,
}

/// The monitor of an object, by the object's number (from 1). All depths are at least 1.
#[derive(Drop)]
pub struct MonitorPart {
    pub object: u32,
    pub monitor: MonitorRec,
}

/// An activation: its process and its depth there (0 at the bottom), its operation, the stop at which it rests, whether that stop
/// is still to be acted on, the object that it is an activation of (from 1), and the values that are live there (at most 100).
#[derive(Drop)]
pub struct ActivationPart {
    pub process: u32,
    pub depth: u32,
    pub operation: u32,
    pub stop: u32,
    pub is_pending: bool,
    pub own: u32,
    pub values: Values,
}

/// What a parcel holds. Objects and monitors rise strictly by number, and activations by process and then by depth.
#[derive(Drop)]
pub struct Contents {
    pub objects: Seq<ObjectPart>,
    pub monitors: Seq<MonitorPart>,
    pub activations: Seq<ActivationPart>,
}

/// Contents that keep the rules of the wire form.
#[derive(Drop)]
pub struct Parcel {
    contents: Contents,
}

impl Model for Parcel {
    ghost use Rattle.ec_wire.specs.WireForm.{KeepsRules};
    ghost use Rattle.ec_wire.specs.declared.parcel.Contents.{Contents};

    ghost Value = { Contents };

    ghost view = { λ p. p.contents };

    ghost invariant = { λ p. KeepsRules p.contents };
}

impl Parcel {
    ghost use Rattle.ec_wire.specs.WireForm.{KeepsRules};

    /// A parcel of contents that keep the rules.
    pub fn new(contents: Contents) -> Parcel
        requires { KeepsRules contents }
        ensures { result ≡ contents }
    {
        Parcel { contents }
    }

    /// The contents, which keep the rules.
    pub fn into_contents(self) -> Contents
        ensures same { result ≡ self }
        ensures rules { KeepsRules result }
    {
        self.contents
    }

    /// The contents, which keep the rules.
    pub fn contents(&self) -> &Contents
        ensures same { result.now ≡ self.now }
        ensures rules { KeepsRules result.now }
    {
        &self.contents
    }

    /// The objects.
    pub fn objects(&self) -> &[ObjectPart]
        ensures { result.now ≡ self.now.objects }
    {
        self.contents.objects.as_slice()
    }

    /// The monitors.
    pub fn monitors(&self) -> &[MonitorPart]
        ensures { result.now ≡ self.now.monitors }
    {
        self.contents.monitors.as_slice()
    }

    /// The activations.
    pub fn activations(&self) -> &[ActivationPart]
        ensures { result.now ≡ self.now.activations }
    {
        self.contents.activations.as_slice()
    }
}
