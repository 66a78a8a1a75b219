// The strike of a call: its price, the trades at that price, and the book settled by them.
ghost use Rattle.std.specs.Prelude.{◌≡◌, ◌+◌, ◌≤◌, length};
ghost use Rattle.book.specs.Books.{standing_of, Keeps};
ghost use Rattle.book.specs.Striking.{trades_at, trades_of, after_strike, struck_of};
ghost use Rattle.execution.specs.Execution.{written};
ghost use Rattle.pricing.specs.Laws.{LawOfPrice};
ghost use Rattle.pricing.specs.Passes.{Few};

use crate::table::Book;
use execution::executing::execute;
use execution::scratch::Scratch;
use pricing::outcomes::Outcome;
use pricing::standing::Standing;
use words::tape::Trade;

// The outcome of a call that was struck, or would be, and how many lines of the tape are its trades.
#[derive(Clone, Copy, Debug, PartialEq, Eq)]
pub struct Struck {
    pub outcome: Outcome,
    pub lines: usize,
}

// Writes the trades at a price, if there is one, at the front of the tape. Returns how many.
fn write_trades(
    standing: &Standing,
    price: Option<u32>,
    tape: &mut [Trade],
    ranked: &mut Scratch,
) -> usize
    requires { length standing.now.buys + length standing.now.sells ≤ length tape.old + 1 }
    ensures count { result ≡ length (trades_at standing.now price) }
    ensures lines { tape.new ≡ written (trades_at standing.now price) tape.old }
    ensures within { result ≤ length tape.old }
{
    match price {
        None => 0,
        Some(price) => execute(standing.buys(), standing.sells(), price, tape, ranked),
    }
}

// The outcome and the trades of a call of these orders.
pub(crate) fn strike_orders(
    standing: &Standing,
    reference: u32,
    tape: &mut [Trade],
    ranked: &mut Scratch,
) -> Struck
    requires { length standing.now.buys + length standing.now.sells ≤ length tape.old + 1 }
    ensures value { result ≡ struck_of standing.now reference }
    ensures lines { tape.new ≡ written (trades_of standing.now reference) tape.old }
    ensures within { result.lines ≤ length tape.old }
    ensures law_of_price { LawOfPrice standing.now reference result.outcome.price }
{
    let outcome = standing.outcome(reference);
    let lines = write_trades(standing, outcome.price, tape, ranked);
    Struck { outcome, lines }
}

impl Book {
    // Strikes the call of the book: the trades are the first lines of the tape, whose further places stay.
    pub fn strike(&mut self, reference: u32, tape: &mut [Trade], ranked: &mut Scratch) -> Struck
        requires buys { Few (standing_of self.old).buys }
        requires sells { Few (standing_of self.old).sells }
        requires room { length (standing_of self.old).buys + length (standing_of self.old).sells ≤ length tape.old + 1 }
        ensures value { result ≡ struck_of (standing_of self.old) reference }
        ensures lines { tape.new ≡ written (trades_of (standing_of self.old) reference) tape.old }
        ensures standing { standing_of self.new ≡ after_strike (standing_of self.old) reference }
        ensures rest { Keeps self.old self.new }
        ensures law_of_price { LawOfPrice (standing_of self.old) reference result.outcome.price }
    {
        let standing = Standing::new(self.buys.as_slice(), self.sells.as_slice());
        let struck = strike_orders(&standing, reference, tape, ranked);
        if struck.outcome.price.is_some() {
            self.settle_by(&tape[..struck.lines]);
        }
        struck
    }
}
