ghost use Rattle.std.specs.Prelude.{◌≡◌, ◌+◌, ◌<◌, ◌≤◌, ◌&&◌, not, if◌then◌else◌};
ghost use Rattle.codes.specs.Codes.{fitting, parts_of};
ghost use Rattle.codes.specs.Commons.{Gathers, both, common_of, said_by};
ghost use Rattle.rules.specs.Answers.{answer};

use crate::common::{Common, Verdict};
use crate::descriptor::Descriptor;
use crate::part::Part;
use rules::Rule;

impl Verdict {
    // What a state says: off, or on.
    fn of(state: bool) -> Verdict
        ensures { result ≡ record { off = not state; on = state } }
    {
        Verdict {
            off: !state,
            on: state,
        }
    }

    // What both of two verdicts say.
    fn and(self, other: Verdict) -> Verdict
        ensures { result ≡ record { off = self.off && other.off; on = self.on && other.on } }
    {
        Verdict {
            off: self.off && other.off,
            on: self.on && other.on,
        }
    }

    // The weight of what every pair says of a part; 0 for a part that is known.
    pub(crate) fn weight(self, unknown: bool, part: Part) -> u8
        ensures { result ≡ (if unknown then (if self.off then part.off else 0) + (if self.on then part.on else 0) else 0) }
    {
        if !unknown {
            return 0;
        }
        let off_weight = if self.off { part.off } else { 0 };
        let on_weight = if self.on { part.on } else { 0 };
        off_weight + on_weight
    }
}

impl Common {
    // What a pair says whose successor is `next`.
    fn said(descriptor: &Descriptor, centre: bool, sum: u32, next: bool) -> Common
        ensures { result ≡ said_by (parts_of descriptor.now) centre sum next }
    {
        Common {
            centre: Verdict::of(centre),
            successor: Verdict::of(next),
            neighbours: Verdict {
                off: sum == descriptor.on,
                on: sum == descriptor.on + descriptor.unknown,
            },
        }
    }

    // What this and another pair have in common.
    fn and(self, other: Common) -> Common
        ensures { result ≡ both self other }
    {
        Common {
            centre: self.centre.and(other.centre),
            successor: self.successor.and(other.successor),
            neighbours: self.neighbours.and(other.neighbours),
        }
    }

    // What fitting pairs have in common with a pair more, if it fits: the one of a centre where
    // `more` of the unknown neighbours are on.
    fn with(
        before: Option<Common>,
        rule: &Rule,
        descriptor: &Descriptor,
        centre: bool,
        more: u32,
    ) -> Option<Common>
        requires { more ≤ descriptor.now.unknown }
        ensures { Gathers (answer rule.now) (parts_of descriptor.now) (record { centre = centre; sum = descriptor.now.on + more }) before result }
    {
        let sum = descriptor.on + more;
        let next = rule.answer(centre, sum);
        if !descriptor.centre.admits(centre) || !descriptor.successor.admits(next) {
            return before;
        }
        let said = Common::said(descriptor, centre, sum, next);
        Some(before.map_or(said, |common| said.and(common)))
    }

    // What all fitting pairs of a descriptor have in common, if there is one.
    pub(crate) fn of(rule: &Rule, descriptor: &Descriptor) -> Option<Common>
        ensures { result ≡ common_of (answer rule.now) (parts_of descriptor.now)
            (fitting (answer rule.now) (parts_of descriptor.now)) }
    {
        // no `0..=`: a goal of its loop has a name that isn't stable
        let mut common = None;
        for more in 0..descriptor.unknown + 1 {
            common = Common::with(common, rule, descriptor, true, more);
            common = Common::with(common, rule, descriptor, false, more);
        }
        common
    }
}
