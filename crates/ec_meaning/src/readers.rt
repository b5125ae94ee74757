//! What is read of the world of a source.
ghost use Rattle.std.specs.Prelude.{◌≡◌, IfOk, option_map, slice_get};
ghost use Rattle.ec_meaning.specs.ClassNames as names;
ghost use Rattle.ec_meaning.specs.Readers as spec;
ghost use Rattle.ec_meaning.specs.Sources.{source_of};
ghost use Rattle.ec_world.specs.Objects.{object_at};
ghost use Rattle.ec_world.specs.Places.{place_in, places};

use crate::meaning::Meaning;
use ec_world::places::{place_of, placement_after};
use ec_world::process::ProcStatus;
use ec_world::value::{NodeNo, Oid, Pid, Text};
use std::alloc::AllocError;

impl Meaning<'_> {
    /// What has been printed.
    pub fn output(&self) -> &Text
        ensures { result.now ≡ self.now.world.common.output }
    {
        &self.world.common.output
    }

    /// What a process may do, where it is there.
    pub fn process(&self, p: Pid) -> Option<ProcStatus>
        ensures { result ≡ spec.status_if (slice_get self.now.world.processes p) }
    {
        match self.world.processes.get(p as usize) {
            Some(process) => Some(process.status),
            None => None,
        }
    }

    /// The name of an object's class, where the object is there. The error is want of memory.
    pub fn class_name(&self, o: Oid) -> Result<Option<Vec<u8>>, AllocError>
        ensures { IfOk result
            (λ found. option_map (λ name. name.items) found ≡ names.name_if (source_of self.now.program)
            (object_at self.now.world.common.objects o)) }
    {
        let Some(object) = self.world.common.object(o) else {
            return Ok(None);
        };
        let mut name = Vec::new(self.world.common.objects.allocator());
        self.program.push_class_name(object.class, &mut name)?;
        Ok(Some(name))
    }

    /// Whether an object is fixed, where it is there.
    pub fn is_fixed(&self, o: Oid) -> Option<bool>
        ensures { result ≡ spec.fixed_if (object_at self.now.world.common.objects o) }
    {
        match self.world.common.object(o) {
            Some(object) => Some(object.fixed),
            None => None,
        }
    }

    /// The node at which each object is, in the order of their numbers. The error is want of memory.
    pub fn placement(&self) -> Result<Vec<NodeNo>, AllocError>
        ensures { IfOk result (λ v. v.items ≡ places self.now.world.common.nodes self.now.world.common.events) }
    {
        let common = &self.world.common;
        let alloc = common.events.allocator();
        placement_after(alloc, common.nodes, common.events.as_slice())
    }

    /// The node at which an object is, where it is there. The error is want of memory.
    pub fn place(&self, o: Oid) -> Result<Option<NodeNo>, AllocError>
        ensures { IfOk result (λ k. k ≡ place_in (places self.now.world.common.nodes self.now.world.common.events) o) }
    {
        let placement = self.placement()?;
        Ok(place_of(&placement, o))
    }
}
