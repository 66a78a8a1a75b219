// The questions of a study, asked of the auction that holds its book. What a study says is never refused.
ghost use Rattle.std.specs.Prelude.{◌≡◌, ◌≤◌, length};
ghost use Rattle.auction.specs.Laws.{LawOfCall};
ghost use Rattle.auction.specs.States.{view};
ghost use Rattle.book.specs.Asking.{answer_of};
ghost use Rattle.book.specs.Books.{joined};
ghost use Rattle.inquiry.specs.Questions.{Askable, trades_asked, trades_struck};

use auction::held::Auction;
use book::asking::Answer;
use book::striking::Struck;
use words::orders::{Order, Ticket};
use words::tape::Trade;

// An order that a study asks about.
#[derive(Clone, Copy, Debug, PartialEq, Eq)]
pub struct Question {
    pub order: Order,
    ghost askable: { Askable order },
}

impl Question {
    pub fn new(order: Order) -> Question
        requires { Askable order }
        ensures { result.order ≡ order }
    {
        Question { order }
    }

    // What the call gives with the asked order in it, and the shares that the order gets.
    pub fn answer(self, auction: &mut Auction) -> Answer
        ensures state { view auction.new ≡ view auction.old }
        ensures value { result ≡ answer_of (view auction.old).sides self.order (view auction.old).reference }
    {
        auction.ask(Ticket::from(self.order)).unwrap()
    }

    // The trades that the call makes with the asked order in it: the first lines of the tape.
    pub fn trades(self, auction: &mut Auction, tape: &mut [Trade]) -> Struck
        requires { 256 ≤ length tape.old }
        ensures state { view auction.new ≡ view auction.old }
        ensures reply { (tape.new, result) ≡ trades_asked (view auction.old) self.order tape.old }
        ensures law_of_call { LawOfCall (joined (view auction.old).sides self.order) (view auction.old).reference result tape.new }
    {
        auction.preview(Ticket::from(self.order), tape).unwrap()
    }
}

// The trades of the call itself.
pub fn trades_of(auction: &mut Auction, tape: &mut [Trade]) -> Struck
    requires { 256 ≤ length tape.old }
    ensures step { (view auction.new, tape.new, result) ≡ trades_struck (view auction.old) tape.old }
    ensures law_of_call { LawOfCall (view auction.old).sides (view auction.old).reference result tape.new }
{
    auction.strike(tape).unwrap()
}
