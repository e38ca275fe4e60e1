ghost use Rattle.std.specs.Prelude.{◌≡◌, ◌<◌, ◌≤◌, [], length, OnOk};
ghost use Rattle.classes.specs.Numbers.{numbered_too};

use std::alloc::{AllocError, Global};
use std::marker::Model;

// Classes while they are numbered: the class of each cell so far, and the lowest cell of each class.
#[derive(Drop)]
pub(crate) struct Numbering {
    pub(crate) labels: Vec<u16>,
    pub(crate) lowest: Vec<u16>,
}

impl Model for Numbering {
    ghost use Rattle.std.specs.Prelude.{vec_len};
    ghost use Rattle.classes.specs.Numbers.{Numbers, Fit};

    ghost Value = { Numbers };

    ghost view = { λ n. record { classes = n.labels.items; lowest = n.lowest.items } };

    ghost invariant = { λ n. Fit (vec_len n.lowest) (vec_len n.labels) n.labels.items };
}

impl Numbering {
    // No cell is numbered yet.
    pub(crate) fn new(heap: Global) -> Numbering
        ensures { result ≡ record { classes = []; lowest = [] } }
    {
        Numbering {
            labels: Vec::new(heap),
            lowest: Vec::new(heap),
        }
    }

    // Takes the next cell in, which begins a class.
    fn begin(&mut self, cell: u16) -> Result<(), AllocError>
        requires next { cell ≡ length self.old.classes }
        requires room { cell < 4096 }
        ensures { OnOk result (self.new ≡ numbered_too self.old cell) }
    {
        self.lowest.reserve(1)?;
        // shown to fit, so that nothing can fail
        self.labels.push(self.lowest.len() as u16)?;
        self.lowest.push_reserved(cell);
        Ok(())
    }

    // Takes the next cell in: it begins a class where its label is its own number, else it joins
    // that of the cell that the label names.
    pub(crate) fn add(&mut self, label: u16) -> Result<(), AllocError>
        requires known { label ≤ length self.old.classes }
        requires room { length self.old.classes < 4096 }
        ensures { OnOk result (self.new ≡ numbered_too self.old label) }
    {
        let Some(class) = self.labels.get(usize::from(label)).copied() else {
            return self.begin(label);
        };
        self.labels.push(class)?;
        Ok(())
    }
}
