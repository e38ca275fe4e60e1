ghost use Rattle.pages.specs.Faults.{number_of};
ghost use Rattle.std.specs.Prelude.{◌≡◌};

// Why a page takes no text.
#[derive(Clone, Copy, PartialEq, Eq, Debug)]
pub enum PageFault {
    // the text does not fit from the place on
    Short,
}

impl PageFault {
    // The number that a user sees.
    pub fn number(&self) -> u32
        ensures { result ≡ number_of self.now }
    {
        match self {
            PageFault::Short => 15,
        }
    }
}
