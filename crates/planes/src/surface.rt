ghost use Rattle.planes.specs.Looks.{plain, torus, cylinder};
ghost use Rattle.std.specs.Prelude.{◌≡◌};

use crate::axis::Edge;
use crate::plane::Plane;
use crate::sheet::Sheet;
use frames::Frame;

// One of the supplied planes, chosen at run time.
pub type Surface = Sheet<Edge, Edge>;

impl Sheet<Edge, Edge> {
    // Looks as `Plain`.
    pub fn plain(frame: Frame) -> Surface
        ensures { ⟦<Surface as Plane>⟧.means result ≡ plain frame }
    {
        Sheet::over(frame, Edge::Bounded, Edge::Bounded)
    }

    // Looks as `Torus`.
    pub fn torus(frame: Frame) -> Surface
        ensures { ⟦<Surface as Plane>⟧.means result ≡ torus frame }
    {
        Sheet::over(frame, Edge::Round, Edge::Round)
    }

    // Looks as `Cylinder`.
    pub fn cylinder(frame: Frame) -> Surface
        ensures { ⟦<Surface as Plane>⟧.means result ≡ cylinder frame }
    {
        Sheet::over(frame, Edge::Round, Edge::Bounded)
    }
}
