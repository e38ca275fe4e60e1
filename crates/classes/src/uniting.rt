ghost use Rattle.std.specs.Prelude.{◌≡◌, ℕ, ◌<◌, ◌≤◌, length};
ghost use Rattle.classes.specs.Labels.{Lowered, renamed, united, joined_by};
ghost use Rattle.planes.specs.Ties.{Within};

use planes::Tie;

// A label, with the high one of two made the low one.
fn renamed_label(label: u16, low: u16, high: u16) -> u16
    ensures { result ≡ renamed low high label }
{
    if label == high { low } else { label }
}

// Gives two cells one label, the lower of theirs, and all cells that had the other one too.
pub(crate) fn unite(labels: &mut [u16], a: usize, b: usize)
    requires a { a < length labels.old }
    requires b { b < length labels.old }
    ensures value { labels.new ≡ united labels.old a b }
    ensures lower { Lowered labels.old labels.new }
{
    let one = labels[a];
    let other = labels[b];
    let low = one.min(other);
    let high = one.max(other);
    for label in labels.iter_mut() {
        *label = renamed_label(*label, low, high);
    }
}

// Unites a cell with the one that a tie names.
pub(crate) fn join(labels: &mut [u16], cell: usize, tie: Tie)
    requires cell { cell < length labels.old }
    requires tie { Within (length labels.old) tie }
    ensures value { labels.new ≡ joined_by labels.old cell tie }
    ensures lower { Lowered labels.old labels.new }
{
    if let Tie::Same(other) = tie {
        // no From takes a u32 to a usize
        unite(labels, cell, other as usize);
    }
}
