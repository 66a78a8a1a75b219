// The what-if question: what would the call give with one more order in it?
ghost use Rattle.std.specs.Prelude.{◌≡◌, ◌+◌, ◌≤◌, length};
ghost use Rattle.book.specs.Asking.{answer_in, answer_of};
ghost use Rattle.book.specs.Books.{standing_of, joined, emptied, FitsQuestion};
ghost use Rattle.book.specs.Striking.{trades_of, struck_of};
ghost use Rattle.execution.specs.Execution.{written};
ghost use Rattle.pricing.specs.Laws.{LawOfPrice};

use crate::guard::WhatIf;
use crate::striking::{Struck, strike_orders};
use crate::table::Book;
use execution::scratch::Scratch;
use execution::sharing::shares;
use pricing::outcomes::Outcome;
use pricing::standing::Standing;
use words::orders::Order;
use words::tape::Trade;

// The outcome of the call with the asked order in it, and the shares that this order would get.
#[derive(Clone, Copy, Debug, PartialEq, Eq)]
pub struct Answer {
    pub outcome: Outcome,
    pub shares: u32,
}

// The answer of a book in which the order stands.
fn reply_for(standing: &Standing, order: Order, reference: u32, ranked: &mut Scratch) -> Answer
    ensures value { result ≡ answer_in standing.now order reference }
    ensures law_of_price { LawOfPrice standing.now reference result.outcome.price }
{
    let outcome = standing.outcome(reference);
    let shares = match outcome.price {
        None => 0,
        Some(price) => shares(standing, order.side, price, order.number, ranked),
    };
    Answer { outcome, shares }
}

impl Book {
    // What would the call of the book give with the order in it, last in time, and how many shares would the order get?
    // A full side takes it too, since it has a place of its own. The book is found after it as before, that place empty.
    pub fn ask(
        &mut self,
        order: Order,
        reference: u32,
        gathered: &mut Scratch,
        ranked: &mut Scratch,
    ) -> Answer
        requires { FitsQuestion self.old order }
        ensures after { self.new ≡ emptied self.old }
        ensures value { result ≡ answer_of (standing_of self.old) order reference }
        ensures law_of_price { LawOfPrice (joined (standing_of self.old) order) reference result.outcome.price }
    {
        let guard = WhatIf::new(self, order);
        guard.gather(gathered);
        let standing = Standing::new(gathered.buys.as_slice(), gathered.sells.as_slice());
        reply_for(&standing, order, reference, ranked)
    }

    // The same question, with the trades that the call would make: they are the first lines of the tape, whose further places stay.
    pub fn preview(
        &mut self,
        order: Order,
        reference: u32,
        tape: &mut [Trade],
        gathered: &mut Scratch,
        ranked: &mut Scratch,
    ) -> Struck
        requires fits { FitsQuestion self.old order }
        requires room { length (joined (standing_of self.old) order).buys + length (joined (standing_of self.old) order).sells ≤ length tape.old + 1 }
        ensures after { self.new ≡ emptied self.old }
        ensures value { result ≡ struck_of (joined (standing_of self.old) order) reference }
        ensures lines { tape.new ≡ written (trades_of (joined (standing_of self.old) order) reference) tape.old }
        ensures law_of_price { LawOfPrice (joined (standing_of self.old) order) reference result.outcome.price }
    {
        let guard = WhatIf::new(self, order);
        guard.gather(gathered);
        let standing = Standing::new(gathered.buys.as_slice(), gathered.sells.as_slice());
        strike_orders(&standing, reference, tape, ranked)
    }
}
