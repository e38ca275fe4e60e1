use calls::{CallFault, Reply};
use checking::CheckFault;

// What the checker says of a text: the pattern that it accepts, or why it accepts none.
pub type Verdict = Result<Vec<bool>, CheckFault>;

// What both parties answered.
#[derive(Drop)]
pub struct Report {
    // to the opening of the search
    pub opened: Result<Reply, CallFault>,
    // to each call, in sequence
    pub answers: Vec<Result<Reply, CallFault>>,
    // to each text
    pub verdicts: Vec<Verdict>,
}
