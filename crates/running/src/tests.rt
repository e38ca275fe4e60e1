// What the promises leave open: that a run ends well, and what comes of a reader or a writer that fails on the way.
use crate::{AsTold, RunFault, ask, judge, run};
use calls::CallFault;
use listing::ListFault;
use search::OpenFault;
use std::alloc::AllocError;
use std::io::{self, ErrorKind, Read, Write};

const BLOCK: &[u8] = b"rule B3/S23\nbox 2 2 1 0 0\nspace plain\norder rows\nmirror 0\n";

const PAGE: &[u8] =
    b"x = 2, y = 2, rule = B3/S23\n!\nx = 2, y = 2, rule = B3/S23\n2o$2o!\nfound 2\n";

// Fails at once.
#[derive(Clone, Copy)]
struct Gone;

impl Read for Gone {
    fn read(&mut self, _buf: &mut [u8]) -> io::Result<usize> {
        Err(ErrorKind::ConnectionReset.into())
    }
}

// Takes a few bytes at a time until it is full, and then fails.
#[derive(Drop)]
struct Small {
    held: Vec<u8>,
    room: usize,
}

impl Write for Small {
    fn write(&mut self, buf: &[u8]) -> io::Result<usize> {
        let n = buf.len().min(3).min(self.room);
        if n == 0 {
            return Err(ErrorKind::StorageFull.into());
        }
        self.held.extend_from_slice(&buf[..n])?;
        self.room -= n;
        Ok(n)
    }

    fn flush(&mut self) -> io::Result<()> {
        Ok(())
    }
}

#[test]
fn nothing_is_written_of_an_input_that_fails(rt: HostRuntime) {
    let heap = rt.alloc();
    let mut output = Vec::new(heap);
    let ran = run(heap, &AsTold, &mut BLOCK.chain(Gone), &mut output);
    assert!(rt; matches!(ran, Err(RunFault::Read(_))));
    assert!(rt; output.is_empty());
}

#[test]
fn a_first_part_is_written_where_the_output_is_full(rt: HostRuntime) {
    let heap = rt.alloc();
    for room in 0..=PAGE.len() {
        let mut output = Small {
            held: Vec::new(heap),
            room,
        };
        let mut input: &[u8] = BLOCK;
        let ran = run(heap, &AsTold, &mut input, &mut output);
        assert_eq!(rt; ran.is_ok(), room == PAGE.len(), "at {room}");
        assert!(rt;
            PAGE.get(..room) == Some(output.held.as_slice()),
            "at {room}"
        );
    }
}

#[test]
fn a_verdict_is_cut_off_where_the_output_is_full(rt: HostRuntime) {
    let heap = rt.alloc();
    let line: &[u8] = b"block: accepted\n";
    for room in 0..=line.len() {
        let mut output = Small {
            held: Vec::new(heap),
            room,
        };
        let mut problem: &[u8] = BLOCK;
        let Ok(Some(problem)) = ask(heap, &mut problem, &mut output) else {
            assert!(rt; false, "the problem is refused");
            return;
        };
        let mut text: &[u8] = b"x = 2, y = 2\n2o$2o!\n";
        let judged = judge(
            heap,
            &problem.space,
            &problem.rule,
            b"block",
            &mut text,
            &mut output,
        );
        assert_eq!(rt; judged.is_ok(), room == line.len(), "at {room}");
        assert!(rt;
            line.get(..room) == Some(output.held.as_slice()),
            "at {room}"
        );
    }
}

#[test]
fn memory_that_is_wanting_at_the_opening_is_named(rt: HostRuntime) -> Result<(), AllocError> {
    let opening = CallFault::Open(OpenFault::Memory);
    let fault = RunFault::List(ListFault::Call(opening));
    let told = format!(in rt.alloc(); "{fault}")?;
    assert_eq!(rt; told.as_str(), "no memory");
    Ok(())
}
