ghost use Rattle.systems.specs.Alike.{AlikeLaws};
ghost use Rattle.systems.specs.Laws.{FillingLaws, SettlingLaws};
ghost use Rattle.systems.specs.Spaces.{SolutionsStand};
ghost use Rattle.systems.specs.Trails.{TrailLaws};

// What settling comes to does not depend on its sequence, it ends, and settling in two goes is
// settling once.
pub fn settling_stands()
    ensures { SettlingLaws }
{}

// A solution agrees with everything that is forced and lets no contradiction arise, and where all
// is known without a contradiction there is a solution.
pub fn fillings_stand()
    ensures { FillingLaws }
{}

// Only which instances there are counts, and not how often or in which sequence.
pub fn alike_stands()
    ensures { AlikeLaws }
{}

// The solutions of a space's system are exactly the fillings that keep its ties and the rule, and
// its unknown classes are those that nothing is asked of.
pub fn solutions_stand()
    ensures { SolutionsStand }
{}

// What settling with a trail goes by: a look at an instance is a sequence of forcing steps, an
// instance that names no class set since is still quiet, and what was set can be put back.
pub fn trails_stand()
    ensures { TrailLaws }
{}
