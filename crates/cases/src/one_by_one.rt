use crate::answers::Expected;
use crate::opening::opening_of;
use crate::reply::Said;
use crate::script::Script;
use calls::{Call, perform};
use search::Search;
use std::alloc::{AllocError, Global};

// Whether a script gets the answers that are expected, its calls made one after another.
pub fn script_agrees(heap: Global, script: &[u8], expected: &[u8]) -> Result<bool, AllocError> {
    let Some(script) = Script::read(script) else {
        return Ok(false);
    };
    let mut page = script.page(heap)?;
    let Some(calls) = script.calls() else {
        return Ok(false);
    };
    let mut opened = Search::blank();
    let mut blank = Search::blank();
    let opening = Call::Open(opening_of(heap, &script.problem));
    if !Said::of(perform(&mut opened, &opening, page.as_mut_slice()))?.is_granted() {
        return Ok(false);
    }
    let mut expected = Expected::new(heap, expected);
    let agree = expected.agree(&script, calls, |called, call| {
        let search = called.pick(&mut opened, &mut blank);
        Some(perform(search, call, page.as_mut_slice()))
    })?;
    Ok(agree && expected.show(page.as_slice())?)
}
