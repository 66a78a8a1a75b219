// A percent set, made of two widths.
ghost use Rattle.std.specs.Prelude.{IfOk};
ghost use Rattle.ranges.specs.PercentLaw.{percent_meaning, Made, LawOfMaking, LawOfPercent};

use super::{PercentSet, Width};
use words::refusals::Refusal;

impl PercentSet {
    // Widths are in tenths of a percent, from 1 to 1,000.
    pub fn new(static_width: u16, dynamic_width: u16) -> Result<PercentSet, Refusal>
        ensures value { Made static_width dynamic_width result }
        ensures law_of_making { LawOfMaking static_width dynamic_width result }
        ensures law_of_ranges { IfOk result (λ set. LawOfPercent static_width dynamic_width (percent_meaning set)) }
    {
        Ok(PercentSet {
            static_width: Width::try_from(static_width)?,
            dynamic_width: Width::try_from(dynamic_width)?,
        })
    }
}
