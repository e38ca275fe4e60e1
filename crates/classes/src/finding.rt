ghost use Rattle.std.specs.Prelude.{◌≡◌, ℕ, ◌+◌, ◌*◌, ◌<◌, ◌≤◌, length, IfOk, vec_len, OnOk};
ghost use Rattle.classes.specs.Asked.{asked_after, free_among};
ghost use Rattle.classes.specs.Joins.{TiesInside};
ghost use Rattle.classes.specs.Labels.{Low, joined_labels};
ghost use Rattle.classes.specs.Numbers.{Numbers, numbers_of};
ghost use Rattle.frames.specs.Frames.{cells};
ghost use Rattle.rolls.specs.Rolls.{surface};
ghost use Rattle.std.specs.List.{range_with_len};

use crate::classes::{Classes, Musts};
use crate::musts::{count_free, note_all};
use crate::numbering::Numbering;
use crate::ties::Ties;
use crate::uniting::join;
use planes::{Plane, Space};
use std::alloc::{AllocError, Global};

// Each cell with its own number as its label.
fn own_labels(heap: Global, cells: u32) -> Result<Vec<u16>, AllocError>
    requires { cells ≤ 4096 }
    ensures { IfOk result (λ v. v.items ≡ range_with_len 0 cells) }
{
    // shown to fit, here and at the number of free classes, so that nothing can fail
    (0..cells as u16).collect(heap)
}

// Unites cells by every tie to another cell.
fn join_all<S: Space>(labels: &mut [u16], space: &S)
    requires { labels.old ≡ range_with_len 0 (cells (S.Plane.means space.now).frame) }
    ensures value { labels.new ≡ joined_labels (S.Plane.means space.now).frame (S.Space.count space.now) (S.Space.tied space.now) }
    ensures low { Low labels.new }
    ensures inside { TiesInside (surface (S.Plane.means space.now) (S.Space.count space.now) (S.Space.tied space.now)) }
{
    for (cell, tie) in Ties::of(space) {
        // no From takes a u32 to a usize
        join(labels, cell as usize, tie);
    }
}

// The labels of the cells once every tie to another cell has joined two of them.
fn joined_labels<S: Space>(heap: Global, space: &S) -> Result<Vec<u16>, AllocError>
    ensures value { IfOk result (λ v. v.items ≡ joined_labels (S.Plane.means space.now).frame (S.Space.count space.now) (S.Space.tied space.now)) }
    ensures len { IfOk result (λ v. vec_len v ≡ cells (S.Plane.means space.now).frame) }
    ensures low { IfOk result (λ v. Low v.items) }
    ensures inside { OnOk result (TiesInside (surface (S.Plane.means space.now) (S.Space.count space.now) (S.Space.tied space.now))) }
{
    let mut labels = own_labels(heap, space.frame().cells())?;
    join_all(labels.as_mut_slice(), space);
    Ok(labels)
}

// Numbers the classes in the sequence of their lowest cells, whose numbers are the labels.
fn numbered(heap: Global, joined: &[u16]) -> Result<Numbering, AllocError>
    requires low { Low joined.now }
    requires few { length joined.now ≤ 4096 }
    ensures len { IfOk result (λ n. length n.classes ≡ length joined.now) }
    ensures value { IfOk result (λ n. n ≡ numbers_of joined.now) }
{
    let mut numbering = Numbering::new(heap);
    for label in joined {
        numbering.add(*label)?;
    }
    Ok(numbering)
}

// The classes of a space: its cells joined by chains of ties to other cells. Every tie has then been
// asked for, so that every cell that one names is known to exist.
pub fn classes_of<S: Space>(heap: Global, space: &S) -> Result<Classes, AllocError>
    ensures len { IfOk result (λ c. vec_len c.labels ≡ cells (S.Plane.means space.now).frame) }
    ensures numbers { IfOk result (λ c. ◌≡◌ {A = Numbers} (record { classes = c.labels.items; lowest = c.lowest.items }) (numbers_of (joined_labels (S.Plane.means space.now).frame (S.Space.count space.now) (S.Space.tied space.now)))) }
    ensures musts { IfOk result (λ c. c.musts.items ≡ asked_after (S.Space.tied space.now) (cells (S.Plane.means space.now).frame) c.labels.items (vec_len c.lowest) (S.Space.count space.now * cells (S.Plane.means space.now).frame)) }
    ensures free { IfOk result (λ c. c.free ≡ free_among c.musts.items) }
    ensures inside { OnOk result (TiesInside (surface (S.Plane.means space.now) (S.Space.count space.now) (S.Space.tied space.now))) }
{
    let joined = joined_labels(heap, space)?;
    let Numbering { labels, lowest } = numbered(heap, joined.as_slice())?;
    let mut musts = vec![in heap; Musts::default(); lowest.len()]?;
    note_all(musts.as_mut_slice(), labels.as_slice(), space);
    let free = count_free(musts.as_slice()) as u32;
    Ok(Classes {
        labels,
        lowest,
        musts,
        free,
    })
}
