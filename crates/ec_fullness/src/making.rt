//! What the node of a maker lacks for a new object.
ghost use Rattle.std.specs.Prelude.{◌≡◌, IfOk, length, replicate};
ghost use Rattle.ec_cluster.specs.Frames.{HasNode};
ghost use Rattle.ec_fullness.specs.Told.{Tells, TellsOfMaking};
ghost use Rattle.ec_world.specs.Things as things;
ghost use Rattle.ec_world.specs.Objects.{class_at, element_kind};
ghost use Rattle.ec_world.specs.Values.{default_of, new_fields};
ghost use Rattle.ec_world.specs.declared.class.ClassNo.TheVariants.{Vector};

use crate::nodes::lack_at;
use ec_base::list::Seq;
use ec_cluster::cluster::Cluster;
use ec_stores::rows::class_blocks;
use ec_world::class::{ClassNo, FieldRec, VectorType};
use ec_world::initial::{default_elements, push_defaults};
use ec_world::room::Lack;
use ec_world::value::{Oid, Values, copy_values};
use std::alloc::{AllocError, Global};

/// What the maker's node lacks for a new object of a class, with the values that its creation gives, and for an activation on it; nothing
/// where there is no such class. The error is that of `lack_of`, or an object with 2^32 fields or more.
pub(crate) fn lack_to_make(
    cluster: &Cluster,
    alloc: Global,
    maker: Oid,
    class: ClassNo,
    given: &Values,
) -> Result<Option<Lack>, AllocError>
    requires { HasNode cluster.now maker }
    ensures { IfOk result
        (λ r. TellsOfMaking cluster.now maker class given.now (class_at cluster.now.parts.classes class) r) }
{
    let ClassNo::Made(number) = class else {
        return Ok(None);
    };
    let Some(made) = cluster.parts.classes.get(number as usize) else {
        return Ok(None);
    };
    let fields = all_fields(alloc, given, &made.fields)?;
    let Ok(size) = u32::try_from(fields.len()) else {
        return Err(AllocError);
    };
    let blocks = class_blocks(class, size) + 1;
    lack_at(cluster, alloc, maker, blocks, fields.as_slice())
}

/// What the maker's node lacks for a new vector of so many elements. The error is that of `lack_of`.
pub(crate) fn lack_for_vector(
    cluster: &Cluster,
    alloc: Global,
    maker: Oid,
    of: VectorType,
    size: u32,
) -> Result<Option<Lack>, AllocError>
    requires { HasNode cluster.now maker }
    ensures { IfOk result (λ r. Tells cluster.now maker
        (things.class_blocks (Vector of) (length (replicate size (default_of (element_kind of)))))
        (replicate size (default_of (element_kind of))) r) }
{
    let elements = default_elements(alloc, of.elements(), size)?;
    let blocks = class_blocks(ClassNo::Vector(of), size);
    lack_at(cluster, alloc, maker, blocks, elements.as_slice())
}

/// The fields of a new object: what is given, and the defaults of the others. The error is want of memory.
fn all_fields(alloc: Global, given: &Values, fields: &Seq<FieldRec>) -> Result<Values, AllocError>
    ensures { IfOk result (λ vs. vs ≡ new_fields given.now fields.now) }
{
    let mut values = copy_values(given)?;
    push_defaults(alloc, &mut values, fields, given.len())?;
    Ok(values)
}
