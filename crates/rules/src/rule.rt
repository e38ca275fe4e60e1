ghost use Rattle.std.specs.Prelude.{◌≡◌, ◌%◌, ◌<◌};

// A rule: the numbers of live neighbours, from 0 to 8, among which a dead cell comes alive and
// those among which a live one stays so, each a set of bits. By its type no rule gives birth
// among 0 neighbours.
#[derive(Clone, Copy, PartialEq, Eq, Debug)]
pub struct Rule {
    pub(crate) births: u16,
    pub(crate) survivals: u16,
    ghost few_births: { births < 512 },
    ghost few_survivals: { survivals < 512 },
    ghost quiet: { births % 2 ≡ 0 },
}
