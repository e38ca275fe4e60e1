use rle::ReadFault;

// A line and a column, both from 1.
#[derive(Clone, Copy, PartialEq, Eq, Debug)]
pub struct Place {
    pub line: u32,
    pub column: u32,
}

// The number of a refusal, and the place at fault.
#[derive(Clone, Copy, PartialEq, Eq, Debug)]
pub struct Refusal {
    pub number: u32,
    pub place: Place,
}

impl From<ReadFault> for Refusal {
    fn from(fault: ReadFault) -> Refusal {
        Refusal {
            number: fault.cause.number(),
            place: Place {
                line: fault.line,
                column: fault.column,
            },
        }
    }
}

// What the reader has to make of a text.
#[derive(Clone, Copy, PartialEq, Eq, Debug)]
pub enum Verdict {
    // it is at fault: 18 to 22
    Refused(Refusal),
    // it is read to its end, and its rule is at fault: 5 and 6
    RuleAt(Place),
    // it is read to its end
    Read,
}

// A text's file and its verdict.
#[derive(Clone, Copy)]
pub struct Expected<'a> {
    pub name: &'a str,
    pub verdict: Verdict,
}

// The refusal that a line tells: the file, eight words on the space and the rule, `refused`, and a
// number and a place; a line or column that is not told is 0, where no fault stands.
fn refusal_of(line: &str) -> Option<Refusal> {
    let mut numbers = line
        .split(' ')
        .skip(10)
        .map_while(|word| word.parse::<u32>().ok());
    Some(Refusal {
        number: numbers.next()?,
        place: Place {
            line: numbers.next().unwrap_or(0),
            column: numbers.next().unwrap_or(0),
        },
    })
}

// The verdict that a line tells, so far as the reader decides it.
fn verdict_of(line: &str) -> Verdict {
    refusal_of(line).map_or(Verdict::Read, |refusal| match refusal.number {
        18..=22 => Verdict::Refused(refusal),
        5 | 6 => Verdict::RuleAt(refusal.place),
        _ => Verdict::Read,
    })
}

pub fn expected_of(line: &str) -> Expected<'_> {
    Expected {
        name: line.split(' ').next().unwrap_or(""),
        verdict: verdict_of(line),
    }
}
