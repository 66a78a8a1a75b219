// The percent set: its ranges reach a part of the anchor to either side of it.
ghost use Rattle.std.specs.Prelude.{◌≡◌, true, false, MatchResult};
ghost use Rattle.words.specs.declared.refusals.Refusal.TheVariants.{ReferenceUnfit};
ghost use Rattle.ranges.specs.Percent.{is_width, within_halves, percent};

mod making;

use crate::sets::RangeSet;
use words::refusals::Refusal;

// A range reaches so many halves of its width to either side: an extended one reaches two and a half times as far.
const PLAIN: u8 = 2;

const EXTENDED: u8 = 5;

// A width is in tenths of a percent, from 1 to 1,000.
#[derive(Clone, Copy, Debug, PartialEq, Eq)]
struct Width {
    tenths: u16,
    ghost in_range: { is_width tenths ≡ true },
}

impl TryFrom<u16> for Width {
    type Error = Refusal;

    ghost try_from_gives = { λ tenths r.
        MatchResult r (λ width. width.tenths ≡ tenths) (λ why. (is_width tenths ≡ false) × (why ≡ ReferenceUnfit)) };

    fn try_from(tenths: u16) -> Result<Width, Refusal> {
        match tenths {
            1..=1000 => Ok(Width { tenths }),
            _ => Err(Refusal::ReferenceUnfit),
        }
    }
}

impl Width {
    // Whether a price is at most so many halves of the width's part of the anchor away from it. The products are 64 bits wide, and
    // cannot overflow there.
    fn reaches(self, halves: u8, price: u32, anchor: u32) -> bool
        ensures { result ≡ within_halves halves self.tenths anchor price }
    {
        let distance = u64::from(price.abs_diff(anchor)) * 2000;
        let reach = u64::from(halves) * u64::from(self.tenths) * u64::from(anchor);
        distance <= reach
    }
}

#[derive(Clone, Copy, Debug, PartialEq, Eq)]
pub struct PercentSet {
    static_width: Width,
    dynamic_width: Width,
}

impl RangeSet for PercentSet {
    ghost meaning = { λ s. percent s.static_width.tenths s.dynamic_width.tenths };

    fn inside_static(&self, price: u32, anchor: u32) -> bool {
        self.static_width.reaches(PLAIN, price, anchor)
    }

    fn inside_dynamic(&self, price: u32, anchor: u32) -> bool {
        self.dynamic_width.reaches(PLAIN, price, anchor)
    }

    fn inside_extended_static(&self, price: u32, anchor: u32) -> bool {
        self.static_width.reaches(EXTENDED, price, anchor)
    }

    fn inside_extended_dynamic(&self, price: u32, anchor: u32) -> bool {
        self.dynamic_width.reaches(EXTENDED, price, anchor)
    }
}
