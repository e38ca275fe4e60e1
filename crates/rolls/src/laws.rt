ghost use Rattle.rolls.specs.Examples.{RollsWorked};
ghost use Rattle.rolls.specs.Laws.{OrderLaws, RollLaws};
ghost use Rattle.rolls.specs.Margins.{MarginsStand};
ghost use Rattle.rolls.specs.Rolls.{Lawful, around, surface};
ghost use Rattle.planes.specs.declared.neighbours.TheConstants.{NEIGHBOURS};
ghost use Rattle.std.specs.Prelude.{◌≡◌};

use planes::{Plane, Space};

// The laws of the roll stand: the first generation decides a member, and joined cells are alike.
pub fn roll_laws_stand()
    ensures { RollLaws }
{}

// The laws of dictionary order stand.
pub fn order_laws_stand()
    ensures { OrderLaws }
{}

// The law of the margin stands: where looks outside the box fall on nothing, as on the plain plane,
// the instances up to nine cells outside it decide all the others.
pub fn margins_stand()
    ensures { MarginsStand }
{}

// What any space says keeps the laws of planes.
pub fn surface_stands<S: Space>(space: &S)
    ensures { Lawful (surface (S.Plane.means space.now) (S.Space.count space.now) (S.Space.tied space.now)) }
{}

// The worked examples of the roll stand.
pub fn worked_rolls_stand()
    ensures { RollsWorked }
{}

// The neighbours that the roll speaks of are those of the program's list.
pub fn neighbours_stand()
    ensures { NEIGHBOURS ≡ around }
{}
