// What an order asks: its kind, with the limit that only a limit order has, and its condition.
ghost use Rattle.std.specs.Prelude.{◌≡◌};
ghost use Rattle.std.specs.Option.{ok_or};
ghost use Rattle.words.specs.Codes.{kind_code, kind_at, condition_code, condition_at, CodesAgree};
ghost use Rattle.words.specs.declared.refusals.Refusal.TheVariants.{CodeUnknown};
ghost use Rattle.words.specs.Terms.{kind_of, limit_of, terms_from, may_trade};

use crate::refusals::Refusal;
use crate::sides::Side;

#[derive(Clone, Copy, Debug, PartialEq, Eq)]
pub enum Kind {
    Limit = 1,
    Market = 2,
    MarketToLimit = 3,
}

#[derive(Clone, Copy, Debug, PartialEq, Eq)]
pub enum Condition {
    Unconditional = 0,
    ImmediateOrCancel = 1,
    FillOrKill = 2,
    BookOrCancel = 3,
}

// A kind of order together with its limit, if the kind has one.
#[derive(Clone, Copy, Debug, PartialEq, Eq)]
pub enum Terms {
    Limit(u32),
    Market,
    MarketToLimit,
}

impl From<Kind> for u8 {
    ghost from_gives = { λ kind code. code ≡ kind_code kind };

    fn from(kind: Kind) -> u8 {
        kind as u8
    }
}

// The kind with that code, if any has it.
impl TryFrom<u8> for Kind {
    type Error = Refusal;

    ghost try_from_gives = { λ code r. r ≡ ok_or (kind_at code) CodeUnknown };

    fn try_from(code: u8) -> Result<Kind, Refusal> {
        match code {
            1 => Ok(Kind::Limit),
            2 => Ok(Kind::Market),
            3 => Ok(Kind::MarketToLimit),
            _ => Err(Refusal::CodeUnknown),
        }
    }
}

impl From<Condition> for u8 {
    ghost from_gives = { λ condition code. code ≡ condition_code condition };

    fn from(condition: Condition) -> u8 {
        condition as u8
    }
}

// The condition with that code, if any has it.
impl TryFrom<u8> for Condition {
    type Error = Refusal;

    ghost try_from_gives = { λ code r. r ≡ ok_or (condition_at code) CodeUnknown };

    fn try_from(code: u8) -> Result<Condition, Refusal> {
        match code {
            0 => Ok(Condition::Unconditional),
            1 => Ok(Condition::ImmediateOrCancel),
            2 => Ok(Condition::FillOrKill),
            3 => Ok(Condition::BookOrCancel),
            _ => Err(Refusal::CodeUnknown),
        }
    }
}

impl Terms {
    // The terms of an order of that kind with that price field: a limit order's price is from 1 to 1,000,000, the others' 0.
    pub fn new(kind: Kind, price: u32) -> Result<Terms, Refusal>
        ensures { result ≡ terms_from kind price }
    {
        match (kind, price) {
            (Kind::Limit, 1..=1_000_000) => Ok(Terms::Limit(price)),
            (Kind::Market, 0) => Ok(Terms::Market),
            (Kind::MarketToLimit, 0) => Ok(Terms::MarketToLimit),
            _ => Err(Refusal::PriceUnfit),
        }
    }

    pub fn kind(self) -> Kind
        ensures { result ≡ kind_of self }
    {
        match self {
            Terms::Limit(_) => Kind::Limit,
            Terms::Market => Kind::Market,
            Terms::MarketToLimit => Kind::MarketToLimit,
        }
    }

    pub fn limit(self) -> Option<u32>
        ensures { result ≡ limit_of self }
    {
        match self {
            Terms::Limit(limit) => Some(limit),
            Terms::Market => None,
            Terms::MarketToLimit => None,
        }
    }

    // Whether an order of that side with these terms can trade at the price.
    pub fn may_trade(self, side: Side, price: u32) -> bool
        ensures { result ≡ may_trade side price self }
    {
        match self {
            Terms::Limit(limit) => match side {
                Side::Buy => price <= limit,
                Side::Sell => limit <= price,
            },
            Terms::Market => true,
            Terms::MarketToLimit => true,
        }
    }
}

// Each code of a side, a kind or a condition leads back to it, and no other number does.
pub fn codes_agree() -> u8
    ensures { CodesAgree }
{
    0
}
