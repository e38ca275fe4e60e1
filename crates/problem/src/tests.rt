use crate::reading::read_problem;

// The number and the line of a text's refusal; none where it is a problem.
fn refusal(text: &[u8]) -> Option<(u32, u32)> {
    let fault = read_problem(text).err()?;
    Some((fault.cause.number(), fault.line))
}

#[test]
fn problems_are_read(rt: HostRuntime) {
    let texts: [&[u8]; 4] = [
        b"rule B3/S23\nbox 3 3 1 0 0\nspace plain\norder rows\nmirror 0\n",
        b"rule B3/S23\nbox 3 3 1 0 0\nspace torus\norder columns\nmirror 6",
        b"rule B3/S23 \t\r\nbox 4 4 4 -1 -8\r\nspace cylinder\r\norder generations\r\nmirror 1\r\n",
        b"rule\tB/S\nbox 3 3 1 0 0\nspace plain\norder rows\nmirror 0\nfix 1 1 0 1\nfix 0 1 0 0\n",
    ];
    for text in texts {
        assert_eq!(rt; refusal(text), None);
    }
}

#[test]
fn first_lines_at_fault_are_named(rt: HostRuntime) {
    let cases: [(&[u8], u32, u32); 16] = [
        (b"", 27, 1),
        (b"\n", 27, 1),
        (b"rule \n", 27, 1),
        (b"rules B3/S23\n", 27, 1),
        (b"rule  B3/S23\n", 5, 1),
        (b"rule B03/S23\n", 6, 1),
        (b"rule B3/S23", 27, 2),
        (b"rule B3/S23\nbox 33 3 99 9 9\n", 1, 2),
        (b"rule B3/S23\nbox 3 3 17 0 0\n", 2, 2),
        (b"rule B3/S23\nbox 32 32 5 0 0\n", 3, 2),
        (b"rule B3/S23\nbox 3 3 1 0 -9\n", 4, 2),
        (b"rule B3/S23\nbox 99 3 1 0 -0\n", 27, 2),
        (b"rule B3/S23\nbox 3 3  1 0 0\n", 27, 2),
        (b"rule B3/S23\nbox 3 3 1 0 0\nspace flat\n", 27, 3),
        (
            b"rule B3/S23\nbox 3 3 1 0 0\nspace plain\norder row\n",
            27,
            4,
        ),
        (
            b"rule B3/S23\nbox 3 3 1 0 0\nspace plain\norder rows\nmirror 7\n",
            27,
            5,
        ),
    ];
    for (text, number, line) in cases {
        assert_eq!(rt; refusal(text), Some((number, line)));
    }
}

#[test]
fn fixes_at_fault_are_named(rt: HostRuntime) {
    let cases: [(&[u8], u32, u32); 4] = [
        (
            b"rule B3/S23\nbox 3 3 1 0 0\nspace plain\norder rows\nmirror 0\n\n",
            27,
            6,
        ),
        (
            b"rule B3/S23\nbox 3 3 1 0 0\nspace plain\norder rows\nmirror 0\nfix 9 9 9 2\n",
            27,
            6,
        ),
        (
            b"rule B3/S23\nbox 3 3 1 0 0\nspace plain\norder rows\nmirror 0\nfix 0 0 1 1\n",
            7,
            6,
        ),
        (
            b"rule B3/S23\nbox 3 3 1 0 0\nspace plain\norder rows\nmirror 0\nfix 1 1 0 1\nfix 1 1 0 0\n",
            8,
            7,
        ),
    ];
    for (text, number, line) in cases {
        assert_eq!(rt; refusal(text), Some((number, line)));
    }
}

#[test]
fn long_texts_are_refused(rt: HostRuntime) {
    let blanks = [b' '; 65_537];
    assert_eq!(rt; refusal(&blanks), Some((18, 1)));
    assert_eq!(rt; refusal(&blanks[1..]), Some((27, 1)));
}
