use rle::Step;

// `x =`
pub(crate) const BEFORE_WIDTH: [Step; 2] = [Step::Loose(b'x'), Step::Loose(b'=')];

// `, y =`
pub(crate) const BEFORE_HEIGHT: [Step; 3] = [
    Step::Loose(b','),
    Step::Loose(b'y'),
    Step::Loose(b'='),
];

// `, rule =`
pub(crate) const BEFORE_RULE: [Step; 6] = [
    Step::Loose(b','),
    Step::Tight(b'r'),
    Step::Tight(b'u'),
    Step::Tight(b'l'),
    Step::Loose(b'e'),
    Step::Loose(b'='),
];
