ghost use Rattle.planes.specs.Edges.{edge_place};
ghost use Rattle.planes.specs.Looks.{wrap, within};
ghost use Rattle.planes.specs.declared.axis.Edge.TheVariants.{Bounded, Round};
ghost use Rattle.std.specs.Prelude.{◌≡◌, ℕ, ◌<◌, ◌≤◌, ℤ, pos, Some, Option, IfSome};
ghost use Rattle.std.proofs.Common.{rules, mod-eq_of_lt};

// What lies past the ends of a line of places, numbered from 0. The crate does not hand it out: only
// a sheet asks, over its own frame, whose lines have 1 to 32 places.
pub trait Axis {
    ghost place: { Self → ℕ → ℤ → Option ℕ };

    // The place of `n` that a look at `c` falls on; none where it falls on nothing.
    fn place(&self, c: i32, n: u32) -> Option<u32>
        requires some { 1 ≤ n }
        requires few { n ≤ 32 }
        ensures { result ≡ place self.now n c };

    ghost below: { (a : Self) (n : ℕ) (c : ℤ) → 1 ≤ n → IfSome (place a n c) (λ i. i < n) };

    ghost own: { (a : Self) (n i : ℕ) → i < n → place a n (pos i) ≡ Some i };
}

// Nothing lies past the ends.
#[derive(Clone, Copy, Default, PartialEq, Eq, Debug)]
pub struct Bounded;

impl Axis for Bounded {
    ghost place = { λ a. within };

    ghost below = { Prim.search rules };

    ghost own = { Prim.search rules };

    fn place(&self, c: i32, n: u32) -> Option<u32> {
        u32::try_from(c).ok().filter(|c| *c < n)
    }
}

// The last place meets the first.
#[derive(Clone, Copy, Default, PartialEq, Eq, Debug)]
pub struct Round;

impl Axis for Round {
    ghost place = { λ a n c. Some (wrap n c) };

    ghost below = { Prim.search rules };

    ghost own = { λ a n i h. Prim.simp (mod-eq_of_lt h) };

    fn place(&self, c: i32, n: u32) -> Option<u32> {
        // both casts are shown to fit
        Some(c.rem_euclid(n as i32) as u32)
    }
}

// Which of the two an axis is, where that is chosen at run time.
#[derive(Clone, Copy, PartialEq, Eq, Debug)]
pub enum Edge {
    Bounded,
    Round,
}

// A match in each call: a choice at run time without `dyn` has no plainer form.
impl Axis for Edge {
    ghost place = { edge_place };

    ghost below = { elim [ Bounded ↦ Prim.search rules | Round ↦ Prim.search rules ] };

    ghost own = { elim [ Bounded ↦ Prim.search rules | Round ↦ λ n i h. Prim.simp (mod-eq_of_lt h) ] };

    fn place(&self, c: i32, n: u32) -> Option<u32> {
        match self {
            Edge::Bounded => Bounded.place(c, n),
            Edge::Round => Round.place(c, n),
        }
    }
}
