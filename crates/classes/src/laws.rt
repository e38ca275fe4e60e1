ghost use Rattle.classes.specs.Classed.{ClassesStand};
ghost use Rattle.classes.specs.Examples.{ClassesWorked};
ghost use Rattle.classes.specs.Free.{FreeStands};
ghost use Rattle.classes.specs.Joins.{LabelsStand};
ghost use Rattle.classes.specs.Needed.{MustsStand};

// The law of the labels stands: cells have one label exactly when chains of ties join them, and it is
// the lowest cell that is joined to them.
pub fn labels_stand()
    ensures { LabelsStand }
{}

// The law of the classes stands: two cells have one class exactly when chains of ties join them, each
// class has its lowest cell, and classes are numbered in the sequence of these.
pub fn classes_stand()
    ensures { ClassesStand }
{}

// The law of the musts stands: off or on is asked of a class exactly when a row asks it of one of its
// cells.
pub fn musts_stand()
    ensures { MustsStand }
{}

// The law of the free classes stands: they are as many as there are classes none of whose cells any
// row asks to be off or on.
pub fn free_stands()
    ensures { FreeStands }
{}

// The worked examples of classes stand.
pub fn worked_classes_stand()
    ensures { ClassesWorked }
{}
