use crate::writing::write_pattern;
use frames::Frame;
use pages::PageFault;
use rules::Rule;
use std::process::Abort;
use std::test::Fail;

const OFF: bool = false;

const ON: bool = true;

// Writes a pattern into a page of dots from place 3 on, and compares the text and what lies around it.
fn writes(
    rt: &impl Abort,
    width: u32,
    height: u32,
    pattern: &[bool],
    text: &[u8],
) -> Result<(), Fail> {
    let frame = Frame::new(width, height, 1, 0, 0)?;
    let rule = Rule::parse(b"B3/S23")?;
    let dots = [b'.'; 64];
    let mut page = dots;
    let end = write_pattern(&mut page, 3, &frame, &rule, pattern)?;
    assert!(rt; 3 <= end && end <= 64);
    assert_eq!(rt; &page[3..end], text);
    assert_eq!(rt; &page[0..3], &dots[0..3]);
    assert_eq!(rt; &page[end..], &dots[end..]);
    Ok(())
}

#[test]
fn block_is_two_rows(rt: HostRuntime) -> Result<(), Fail> {
    writes(
        &rt,
        2,
        2,
        &[ON, ON, ON, ON],
        b"x = 2, y = 2, rule = B3/S23\n2o$2o!\n",
    )
}

#[test]
fn empty_has_no_runs(rt: HostRuntime) -> Result<(), Fail> {
    writes(
        &rt,
        2,
        2,
        &[OFF, OFF, OFF],
        b"x = 2, y = 2, rule = B3/S23\n!\n",
    )
}

#[test]
fn empty_rows_are_one_run(rt: HostRuntime) -> Result<(), Fail> {
    let pattern = [
        OFF, OFF, OFF, OFF, ON, OFF, OFF, OFF, OFF, OFF, OFF, OFF, ON, OFF, ON, OFF, OFF, OFF,
    ];
    writes(
        &rt,
        3,
        6,
        &pattern,
        b"x = 3, y = 6, rule = B3/S23\n$bo3$obo!\n",
    )
}

#[test]
fn short_page_stays(rt: HostRuntime) -> Result<(), Fail> {
    let frame = Frame::new(2, 2, 1, 0, 0)?;
    let rule = Rule::parse(b"B3/S23")?;
    let dots = [b'.'; 34];
    let mut page = dots;
    assert_eq!(rt;
        write_pattern(&mut page, 0, &frame, &rule, &[ON, ON, ON, ON]),
        Err(PageFault::Short)
    );
    assert_eq!(rt; &page[0..34], &dots[0..34]);
    Ok(())
}
