// What is refused, by number: 1 to 17 for what a call or a file brings, 20 to 32 for how things stand.
ghost use Rattle.std.specs.Prelude.{◌≡◌, true, List};
ghost use Rattle.words.specs.Codes.{refusal_number, RefusalsNumbered};
ghost use Rattle.words.specs.Refused.{Row, first_due, rising, RefusedRightly};

#[derive(Clone, Copy, Debug, PartialEq, Eq)]
pub enum Refusal {
    // a price that does not fit the kind of the order
    PriceUnfit = 1,
    // a quantity outside 1 to 1,000,000
    QuantityUnfit = 2,
    // a code that names no side, kind or condition
    CodeUnknown = 3,
    // a kind of order with a condition that it never enters with
    PairNeverEnters = 4,
    // member 0
    MemberUnfit = 5,
    // a time beyond the day's last second, 86,399
    TimeUnfit = 6,
    // a tape of fewer than 256 places
    TapeShort = 7,
    // a closing price, reference price or width out of range, where something is made with it
    ReferenceUnfit = 8,
    // a call file that does not begin with version byte 1
    VersionUnknown = 9,
    // a record with an unknown letter
    LetterUnknown = 10,
    // a record of length 0, or of a length that does not fit its letter
    LengthUnfit = 11,
    // a record that the end of the file cuts short
    RecordCutShort = 12,
    // a first record that does not make a session (letter M), or a later one that does
    MakingMisplaced = 13,
    // a client reference with a byte outside 33 to 126
    ClientReferenceUnfit = 14,
    // an offer or minimum price of a sale outside 1 to 1,000,000
    OfferUnfit = 15,
    // a bid price below the minimum of the sale or above 1,000,000
    BidPriceUnfit = 16,
    // a market bid's money outside 1 to 1,000,000,000
    BidMoneyUnfit = 17,
    // a time earlier than the clock of the session
    TimeRunsBack = 20,
    // a call that the phase or the stage does not take
    CallNotOfPhase = 21,
    // a kind of order with a condition that does not enter in this phase
    PairNotOfPhase = 22,
    // a number under which no order stands
    OrderNotStanding = 23,
    // 128 orders stand on the side already
    SideFull = 24,
    // a market-to-limit order in continuous trading that finds no limit to take
    NoLimitOpposite = 25,
    // a book-or-cancel order that would trade
    WouldTrade = 26,
    // a fill-or-kill order for which too few shares stand inside the ranges
    NotFilledWhole = 27,
    // an amended price that does not fit the kind of the order
    AmendedPriceUnfit = 28,
    // a strike under 120 seconds into an interruption or an extension
    StrikeTooEarly = 29,
    // the 60,000 numbers are used up
    NumbersUsedUp = 30,
    // 64 bids stand in the sale already
    SaleFull = 31,
    // a number that is not of a bid of this member's
    BidNotOwn = 32,
}

impl Refusal {
    pub fn number(self) -> u8
        ensures { result ≡ refusal_number self }
    {
        self as u8
    }
}

// Each number leads back to its refusal, and no other number does: they are 1 to 17 and 20 to 32.
pub fn refusals_are_numbered() -> u8
    ensures { RefusalsNumbered }
{
    0
}

// A table of refusals in the order of their numbers refuses for what is due with the smallest number, and only where something is due.
pub fn refused_by_number() -> u8
    ensures { (rows : List Row) → rising 0 rows ≡ true → RefusedRightly rows (first_due rows) }
{
    0
}
