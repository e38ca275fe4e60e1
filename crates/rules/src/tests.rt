use crate::rule::Rule;
use std::test::Fail;

#[test]
fn the_length_of_a_text_is_that_of_its_bytes(rt: HostRuntime) -> Result<(), Fail> {
    let texts: [&str; 4] = ["B/S", "B3/S23", "B/S012345678", "B12345678/S012345678"];
    for text in texts {
        let written = Rule::parse(text.as_bytes())?.text();
        assert_eq!(rt; written.as_str(), text);
        assert_eq!(rt; written.as_slice(), text.as_bytes());
        assert_eq!(rt; written.len(), text.len());
    }
    Ok(())
}
