ghost use Rattle.planes.specs.Meaning.{Meaning, InBox, LooksAtItself};
ghost use Rattle.std.specs.Prelude.{◌≡◌, ℤ};

use crate::place::Place;
use frames::Frame;

// A surface that the box lies on: for every column and row a place of the box, or nothing.
pub trait Plane {
    ghost means: { Self → Meaning };

    fn frame(&self) -> Frame
        ensures { result ≡ (means self.now).frame };

    fn look(&self, x: i32, y: i32) -> Option<Place>
        ensures { result ≡ (means self.now).look x y };

    ghost inside: { (p : Self) (x y : ℤ) → InBox (means p).frame ((means p).look x y) };

    ghost own: { (p : Self) → LooksAtItself (means p) };
}
