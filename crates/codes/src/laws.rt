ghost use Rattle.codes.specs.Laws.{CodesKeep, CodesOnly, CodesPlaced, CodesTell};

// Under every rule, the code of every descriptor says just what all completions that agree with it
// have in common, as no other number does, keeps saying so as more becomes known, and stands at the
// descriptor's index.
pub fn codes_stand()
    ensures tell { CodesTell }
    ensures only { CodesOnly }
    ensures keep { CodesKeep }
    ensures placed { CodesPlaced }
{}
