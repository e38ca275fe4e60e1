use crate::opening::ProblemCall;
use crate::reply::Said;
use crate::script::{Called, Line, Script};
use calls::{CallFault, Reply};
use lines::Lines;
use std::alloc::{AllocError, Global};

// What a call is answered.
pub type Answered = Result<Reply, CallFault>;

// The answers that are expected of a script: a line for each of its calls, and one for the page at the end.
#[derive(Clone, Copy)]
pub struct Expected<'a> {
    heap: Global,
    lines: Lines<'a>,
}

impl<'a> Expected<'a> {
    pub fn new(heap: Global, text: &'a [u8]) -> Expected<'a> {
        Expected {
            heap,
            lines: Lines::new(text),
        }
    }

    // Whether each of a script's calls is answered as the next lines say. A call without an answer differs.
    pub fn agree<F: FnMut(Called, &ProblemCall<'_>) -> Option<Answered>>(
        &mut self,
        script: &Script<'_>,
        calls: Lines<'_>,
        mut answer: F,
    ) -> Result<bool, AllocError>
        requires { F.IsAlwaysCallable answer }
    {
        let mut called = Called::Opened;
        for line in calls {
            let line = script.line(self.heap, line);
            if let Line::Names(search) = line {
                called = search;
                continue;
            }
            let Some(wanted) = self.lines.next_line() else {
                return Ok(false);
            };
            let said = match line {
                Line::Asks(call) => match answer(called, &call) {
                    Some(answer) => Said::of(answer)?,
                    None => return Ok(false),
                },
                _ => Said::NoSuchCall,
            };
            if format!(in self.heap; "{said}")?.as_bytes() != wanted {
                return Ok(false);
            }
        }
        Ok(true)
    }

    // Whether the next line shows this page, a newline by two bytes.
    pub fn show(&mut self, page: &[u8]) -> Result<bool, AllocError> {
        let mut shown = Vec::from_slice(self.heap, b"page")?;
        if !page.is_empty() {
            shown.push(b' ')?;
        }
        for byte in page {
            match byte {
                b'\n' => shown.extend_from_slice(b"\\n")?,
                _ => {
                    shown.push(*byte)?;
                }
            }
        }
        Ok(self.lines.next_line() == Some(shown.as_slice()))
    }
}
