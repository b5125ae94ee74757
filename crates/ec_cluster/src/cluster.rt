//! Nodes, the program that they run, and where objects are.
ghost use Rattle.std.specs.Prelude.{◌≡◌};
ghost use Rattle.ec_cluster.specs.Images.{image_of};

use crate::forward::whereabouts::Whereabouts;
use ec_base::list::Seq;
use ec_code::code::Parts;
use ec_generate::image::Image;
use ec_stores::node::NodeStore;
use ec_world::node::Kind;

/// The image of a program for each kind of machine.
#[derive(Drop)]
pub struct Images {
    pub riscv: Image,
    pub mips: Image,
}

/// Nodes by their numbers (from 0), the program that they run with its images, and what they know of the whereabouts of all objects.
#[derive(Drop)]
pub struct Cluster {
    pub parts: Parts,
    pub images: Images,
    pub nodes: Seq<NodeStore>,
    pub whereabouts: Whereabouts,
}

impl Images {
    /// The image for a kind.
    pub fn of(&self, kind: Kind) -> &Image
        ensures { result.now ≡ image_of self.now kind }
    {
        match kind {
            Kind::Riscv => &self.riscv,
            Kind::Mips => &self.mips,
        }
    }
}
