// The two sides of a book.
ghost use Rattle.std.specs.Prelude.{◌≡◌};
ghost use Rattle.std.specs.Option.{ok_or};
ghost use Rattle.words.specs.Codes.{side_code, side_at};
ghost use Rattle.words.specs.declared.refusals.Refusal.TheVariants.{CodeUnknown};

use crate::refusals::Refusal;

#[derive(Clone, Copy, Debug, PartialEq, Eq)]
pub enum Side {
    Buy = 1,
    Sell = 2,
}

impl From<Side> for u8 {
    ghost from_gives = { λ side code. code ≡ side_code side };

    fn from(side: Side) -> u8 {
        side as u8
    }
}

// The side with that code, if any has it.
impl TryFrom<u8> for Side {
    type Error = Refusal;

    ghost try_from_gives = { λ code r. r ≡ ok_or (side_at code) CodeUnknown };

    fn try_from(code: u8) -> Result<Side, Refusal> {
        match code {
            1 => Ok(Side::Buy),
            2 => Ok(Side::Sell),
            _ => Err(Refusal::CodeUnknown),
        }
    }
}
