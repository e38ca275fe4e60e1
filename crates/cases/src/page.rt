use running::{AsTold, ask, run};
use std::alloc::Global;

// Whether the lister prints what is expected for an input, a refusal included.
pub fn page_agrees(heap: Global, mut input: &[u8], expected: &[u8]) -> bool {
    let mut output = Vec::new(heap);
    run(heap, &AsTold, &mut input, &mut output).is_ok() && output.as_slice() == expected
}

// Whether the checker prints nothing for a problem that is expected to be listed, and what is expected for
// one that is refused.
pub fn refusal_agrees(heap: Global, mut input: &[u8], expected: &[u8]) -> bool {
    let mut output = Vec::new(heap);
    match ask(heap, &mut input, &mut output) {
        Ok(Some(_)) => output.is_empty() && !expected.starts_with(b"refused"),
        Ok(None) => output.as_slice() == expected,
        Err(_) => false,
    }
}
