// Surfaces that a box may lie on, and what is asked of its cells beyond the rule.
// A plane says where a look falls; a space adds rows of ties; a layer is a space over another.
#![tactic(auto)]

mod axis;
mod fault;
mod fixed;
mod laws;
mod layer;
mod mirror;
mod neighbours;
mod pins;
mod place;
mod plane;
mod row;
mod sheet;
mod space;
mod surface;
mod tie;

pub use axis::{Bounded, Edge, Round};
pub use fault::FixFault;
pub use fixed::Fixed;
pub use laws::{
    fixes_stand, layers_stand, mirrors_stand, planes_stand, remainders_stand, worked_planes_stand,
};
pub use layer::Layer;
pub use mirror::{Mirror, MirrorKind};
pub use neighbours::{NEIGHBOURS, Offset};
pub use pins::{Pin, Pins};
pub use place::Place;
pub use plane::Plane;
pub use row::Row;
pub use sheet::{Cylinder, Plain, Sheet, Torus};
pub use space::Space;
pub use surface::Surface;
pub use tie::Tie;
