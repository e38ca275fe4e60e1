use choices::{AnyOrder, Surface};
use planes::{Fixed, Mirror};
use rules::Rule;

// What a lister is asked: a rule, a space (which has the box) and the order of the search.
#[derive(Drop)]
pub struct Problem {
    pub rule: Rule,
    pub space: Fixed<Mirror<Surface>>,
    pub order: AnyOrder,
}
