use calls::{Call, Opening};
use choices::AnyOrder;
use planes::{Fixed, Mirror, Surface};
use problem::Problem;
use std::alloc::Global;

type ProblemSpace = Fixed<Mirror<Surface>>;

// A call of a search that is opened on the space and the order of a problem.
pub type ProblemCall<'a> = Call<'a, ProblemSpace, AnyOrder>;

// What a search is opened on to list a problem.
pub fn opening_of(heap: Global, problem: &Problem) -> Opening<'_, ProblemSpace, AnyOrder> {
    Opening {
        heap,
        space: &problem.space,
        order: &problem.order,
        rule: &problem.rule,
    }
}
