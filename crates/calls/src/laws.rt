ghost use Rattle.calls.specs.Histories.{OpeningKeeps};
ghost use Rattle.calls.specs.Laws.{RunsDecided};

// A search that was just opened, by whatever call, stands where nothing is told.
pub fn openings_stand()
    ensures { OpeningKeeps }
{}

/// The same calls on the same pages have the same answers and leave the same pages, whoever makes them: only
/// whether memory is wanting at an opening is not decided by what is asked.
pub fn runs_decided()
    ensures { RunsDecided }
{}
