ghost use Rattle.std.specs.Prelude.{◌≡◌, ◌<◌};
ghost use Rattle.planes.specs.Layers.{kind_of, kind_tie, turned};

use crate::layer::Layer;
use crate::place::Place;
use crate::row::Row;
use crate::tie::Tie;
use frames::{Cell, Frame};

// Where the image of a cell lies.
#[derive(Clone, Copy, PartialEq, Eq, Debug)]
pub enum MirrorKind {
    // left and right change places
    LeftRight,
    // top and bottom change places
    TopBottom,
    // half a turn
    HalfTurn,
    // mirrored at the diagonal from the top left
    FallingDiagonal,
    // mirrored at the diagonal from the top right
    RisingDiagonal,
    // a quarter turn
    QuarterTurn,
    // nowhere: nothing is asked
    Untied,
}

// A layer that asks each cell to be as its image.
pub type Mirror<S> = Layer<S, MirrorKind>;

// Every number is of a kind: those from 1 to 6 turn the box, each other asks nothing.
impl From<u8> for MirrorKind {
    ghost from_gives = { λ number kind. kind ≡ kind_of number };

    fn from(number: u8) -> MirrorKind {
        match number {
            1 => MirrorKind::LeftRight,
            2 => MirrorKind::TopBottom,
            3 => MirrorKind::HalfTurn,
            4 => MirrorKind::FallingDiagonal,
            5 => MirrorKind::RisingDiagonal,
            6 => MirrorKind::QuarterTurn,
            _ => MirrorKind::Untied,
        }
    }
}

impl MirrorKind {
    // The image of a place, wherever it lies; none left of the box.
    fn image(self, frame: &Frame, place: Place) -> Option<Place>
        requires column { place.x < frame.now.width }
        requires row { place.y < frame.now.height }
        ensures { result ≡ turned frame.now self place.x place.y }
    {
        let Place { x, y } = place;
        let right = frame.width() - 1;
        let bottom = frame.height() - 1;
        let (x, y) = match self {
            MirrorKind::LeftRight => (right - x, y),
            MirrorKind::TopBottom => (x, bottom - y),
            MirrorKind::HalfTurn => (right - x, bottom - y),
            MirrorKind::FallingDiagonal => (y, x),
            MirrorKind::RisingDiagonal => (right.checked_sub(y)?, right - x),
            MirrorKind::QuarterTurn => (right.checked_sub(y)?, x),
            MirrorKind::Untied => return None,
        };
        Some(Place { x, y })
    }
}

impl Row for MirrorKind {
    ghost asked = { λ kind f. kind_tie f kind };

    // As its image in the same generation, and off where that lies outside the box.
    fn asks(&self, frame: &Frame, cell: u32) -> Tie {
        if *self == MirrorKind::Untied {
            return Tie::Free;
        }
        let Some(Cell { x, y, t }) = frame.cell_at(cell) else {
            return Tie::Free;
        };
        let image = self.image(frame, Place { x, y });
        image
            .and_then(|Place { x, y }| frame.number_of(Cell { x, y, t }))
            .map_or(Tie::Off, Tie::Same)
    }
}
