ghost use Rattle.std.specs.Prelude.{◌≡◌, ℕ, ◌+◌, ◌*◌, ◌<◌, ◌≤◌, ◌&&◌, ◌||◌, not, length, replicate};
ghost use Rattle.classes.specs.Labels.{Numbered};
ghost use Rattle.frames.specs.Frames.{cells};
ghost use Rattle.classes.specs.Asked.{asked_after, asked_by, free_among, torn_among, unasked};

use crate::classes::Musts;
use crate::ties::Ties;
use planes::{Plane, Space, Tie};

impl Musts {
    // Whether nothing is asked.
    fn are_none(&self) -> bool
        ensures { result ≡ not (self.now.off || self.now.on) }
    {
        !self.off && !self.on
    }

    // Whether a class is asked to be off and on at once.
    fn are_torn(&self) -> bool
        ensures { result ≡ (self.now.off && self.now.on) }
    {
        self.off && self.on
    }
}

// Notes what a tie asks of a class.
fn note(musts: &mut [Musts], class: u16, tie: Tie)
    requires { class < length musts.old }
    ensures { musts.new ≡ asked_by musts.old class tie }
{
    let class = usize::from(class);
    match tie {
        Tie::Off => musts[class].off = true,
        Tie::On => musts[class].on = true,
        Tie::Free | Tie::Same(_) => {}
    }
}

// Notes what every tie asks of its cell's class.
pub(crate) fn note_all<S: Space>(musts: &mut [Musts], labels: &[u16], space: &S)
    requires long { length labels.now ≡ cells (S.Plane.means space.now).frame }
    requires numbered { Numbered (length musts.old) labels.now }
    ensures len { length musts.new ≡ length musts.old }
    ensures value { musts.old ≡ replicate (length musts.old) unasked → musts.new ≡ asked_after (S.Space.tied space.now) (cells (S.Plane.means space.now).frame) labels.now (length musts.old) (S.Space.count space.now * cells (S.Plane.means space.now).frame) }
{
    for (cell, tie) in Ties::of(space) {
        // no From takes a u32 to a usize
        note(musts, labels[cell as usize], tie);
    }
}

// How many classes nothing is asked of.
pub(crate) fn count_free(musts: &[Musts]) -> usize
    ensures bound { result ≤ length musts.now }
    ensures value { result ≡ free_among musts.now }
{
    musts.iter().filter(|must| must.are_none()).count()
}

// Whether something is asked to be off and on at once.
pub(crate) fn any_torn(musts: &[Musts]) -> bool
    ensures { result ≡ torn_among musts.now }
{
    musts.iter().any(|must| must.are_torn())
}
