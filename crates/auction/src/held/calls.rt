// The calls of an auction.
ghost use Rattle.std.specs.Prelude.{◌≡◌, ◌≤◌, [], IfOk, None};
ghost use Rattle.auction.specs.Calls.{Made, order_of, order_rows, order_by, enter_step, ask_reply, preview_reply, strike_step};
ghost use Rattle.auction.specs.Laws.{LawOfAnswer, LawOfCall, RefusesByNumber};
ghost use Rattle.auction.specs.States.{view};
ghost use Rattle.auction.specs.declared.held.calls.MakeError.TheVariants.{NoMemory};
ghost use Rattle.book.specs.Books.{joined};
ghost use Rattle.execution.specs.Laws.{standing};
ghost use Rattle.pricing.specs.Laws.{LawOfPrice};
ghost use Rattle.pricing.specs.Passes.{Few};
ghost use Rattle.pricing.specs.Outcomes.{outcome_of};
ghost use Rattle.pricing.specs.Sides.{open_at};
ghost use Rattle.words.specs.Refused.{first_due};

use super::Auction;
use book::asking::Answer;
use book::striking::Struck;
use book::table::Book;
use execution::scratch::Scratch;
use pricing::demands::open_at;
use pricing::outcomes::Outcome;
use pricing::standing::Standing;
use std::alloc::{AllocError, Global};
use words::orders::{Order, Ticket};
use words::refusals::Refusal;
use words::sides::Side;
use words::tape::Trade;
use words::terms::{Condition, Terms};

// Why no auction was made.
#[derive(Clone, Copy, Debug, PartialEq, Eq)]
pub enum MakeError {
    Refused(Refusal),
    NoMemory,
}

impl From<AllocError> for MakeError {
    ghost from_gives = { λ _ e. e ≡ NoMemory };

    fn from(_e: AllocError) -> MakeError {
        MakeError::NoMemory
    }
}

// The order that a ticket brings, of condition none, unless something is wrong with it by itself.
fn order_with(number: u16, ticket: Ticket) -> Result<Order, Refusal>
    ensures value { result ≡ order_by (order_of number ticket.side ticket.kind ticket.price ticket.quantity) (first_due (order_rows ticket.kind ticket.price ticket.quantity [])) }
    ensures fit { IfOk result (λ o. (o ≡ order_of number ticket.side ticket.kind ticket.price ticket.quantity) × (ticket.quantity ≤ 1000000) × (first_due (order_rows ticket.kind ticket.price ticket.quantity []) ≡ None)) }
{
    let terms = Terms::new(ticket.kind, ticket.price)?;
    if !(1..=1_000_000).contains(&ticket.quantity) {
        return Err(Refusal::QuantityUnfit);
    }
    Ok(Order {
        number,
        side: ticket.side,
        terms,
        condition: Condition::Unconditional,
        quantity: ticket.quantity,
    })
}

impl Auction {
    // The standing orders of a side, the earlier granted first.
    pub fn orders(&self, side: Side) -> &[Order]
        ensures standing { result.now ≡ standing side (view self.now).sides }
        ensures few { Few result.now }
    {
        match side {
            Side::Buy => self.book.buys.as_slice(),
            Side::Sell => self.book.sells.as_slice(),
        }
    }

    // Demand (the buys') or supply (the sells') at a price.
    pub fn open_at(&self, side: Side, price: u32) -> u32
        ensures value { result ≡ open_at side price (standing side (view self.now).sides) }
        ensures bound { result ≤ 129000000 }
    {
        open_at(side, self.orders(side), price)
    }

    // The price of the call as it stands, what it executes, and the surplus there.
    pub fn outcome(&self) -> Outcome
        ensures value { result ≡ outcome_of (view self.now).sides (view self.now).reference }
        ensures law_of_price { LawOfPrice (view self.now).sides (view self.now).reference result.price }
    {
        Standing::new(self.orders(Side::Buy), self.orders(Side::Sell)).outcome(self.reference)
    }
}

impl Auction {
    // An auction with no orders, at a reference price from 1 to 1,000,000. All the memory that it will need is reserved here.
    pub fn new(heap: Global, reference: u32) -> Result<Auction, MakeError>
        ensures { Made reference result }
    {
        if !(1..=1_000_000).contains(&reference) {
            return Err(MakeError::Refused(Refusal::ReferenceUnfit));
        }
        Ok(Auction {
            book: Book::new(heap)?,
            reference,
            last: 0,
            gathered: Scratch::new(heap)?,
            ranked: Scratch::new(heap)?,
        })
    }

    // The order stands, last in time. Replies with its number.
    pub fn enter(&mut self, ticket: Ticket) -> Result<u16, Refusal>
        ensures { (view self.new, result) ≡ enter_step (view self.old) ticket.side ticket.kind ticket.price ticket.quantity }
    {
        let order = order_with(self.last + 1, ticket)?;
        if self.orders(ticket.side).len() >= 128 {
            return Err(Refusal::SideFull);
        }
        if self.last >= 60_000 {
            return Err(Refusal::NumbersUsedUp);
        }
        self.last += 1;
        self.book.enter(order);
        Ok(self.last)
    }

    // What the call would give with one more order in it, and how many shares that order would get. Nothing changes.
    pub fn ask(&mut self, ticket: Ticket) -> Result<Answer, Refusal>
        ensures same { self.new.book ≡ self.old.book }
        ensures state { view self.new ≡ view self.old }
        ensures reply { result ≡ ask_reply (view self.old) ticket.side ticket.kind ticket.price ticket.quantity }
        ensures law_of_answer { IfOk result (λ a. LawOfAnswer (joined (view self.old).sides (order_of 0 ticket.side ticket.kind ticket.price ticket.quantity)) (order_of 0 ticket.side ticket.kind ticket.price ticket.quantity) (view self.old).reference a) }
    {
        let order = order_with(0, ticket)?;
        Ok(self.book.ask(order, self.reference, &mut self.gathered, &mut self.ranked))
    }

    // The same question with the trades that the call would make, on a tape of at least 256 places. The auction does not change.
    pub fn preview(&mut self, ticket: Ticket, tape: &mut [Trade]) -> Result<Struck, Refusal>
        ensures same { self.new.book ≡ self.old.book }
        ensures state { view self.new ≡ view self.old }
        ensures reply { (tape.new, result) ≡ preview_reply (view self.old) ticket.side ticket.kind ticket.price ticket.quantity tape.old }
        ensures law_of_call { IfOk result (λ k. LawOfCall (joined (view self.old).sides (order_of 0 ticket.side ticket.kind ticket.price ticket.quantity)) (view self.old).reference k tape.new) }
    {
        let order = order_with(0, ticket)?;
        if tape.len() < 256 {
            return Err(Refusal::TapeShort);
        }
        let struck = self.book.preview(
            order,
            self.reference,
            tape,
            &mut self.gathered,
            &mut self.ranked,
        );
        Ok(struck)
    }

    // Strikes the call: its trades are the first lines of the tape, which has at least 256 places, and the book is settled by them.
    pub fn strike(&mut self, tape: &mut [Trade]) -> Result<Struck, Refusal>
        ensures step { (view self.new, tape.new, result) ≡ strike_step (view self.old) tape.old }
        ensures law_of_call { IfOk result (λ k. LawOfCall (view self.old).sides (view self.old).reference k tape.new) }
    {
        if tape.len() < 256 {
            return Err(Refusal::TapeShort);
        }
        Ok(self.book.strike(self.reference, tape, &mut self.ranked))
    }
}

// Each call is refused for what is due with the smallest number.
pub fn refused_by_number() -> u8
    ensures { RefusesByNumber }
{
    0
}
