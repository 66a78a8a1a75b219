// The answer to a whole study.
ghost use Rattle.std.specs.Prelude.{◌≡◌, true};
ghost use Rattle.report.specs.Reports.{Answers};
ghost use Rattle.study.specs.Bytes.{all};
ghost use Rattle.study.specs.Sound.{Sound, fit_order, is_unnumbered};
ghost use Rattle.study.specs.Studies.{study_of};
ghost use Rattle.study.specs.Views.{content};

use crate::pictures::Picture;
use crate::tables::{OrderText, Orders, Outcomes, Rest, Sentence, Shares, Trades};
use auction::held::Auction;
use inquiry::loading::load;
use inquiry::questions::{Question, trades_of};
use std::alloc::{AllocError, Global};
use study::faults::StudyError;
use study::numbers::Leva;
use study::reading::{Study, read_study};
use words::orders::Order;
use words::tape::Trade;

// An answer under way: what is written of it so far, and the auction and the orders that it is about.
#[derive(Drop)]
struct Writer<'a> {
    heap: Global,
    out: String,
    auction: Auction,
    orders: &'a [Order],
}

impl Writer<'_> {
    // Demand and supply by price, and the auction price that was found.
    fn picture(&mut self, asked: Option<Order>, found: Option<u32>) -> Result<(), AllocError> {
        let picture = Picture::new(self.heap, &self.auction, self.orders, asked, found)?;
        write!(self.out, "\n{picture}")
    }

    // The trades of the call, or of the call with the asked order in it, and what stays after them.
    fn trades(&mut self, question: Option<Question>) -> Result<(), AllocError> {
        let mut tape = vec![in self.heap; Trade::default(); 256]?;
        let struck = match question {
            Some(question) => question.trades(&mut self.auction, tape.as_mut_slice()),
            None => trades_of(&mut self.auction, tape.as_mut_slice()),
        };
        let lines = &tape[..struck.lines];
        let trades = Trades(lines);
        let rest = Rest {
            orders: self.orders,
            asked: question.map(|question| question.order),
            lines,
        };
        write!(self.out, "\n{trades}\n{rest}")
    }

    // The book, and what its call gives as it stands.
    fn book(&mut self, reference: u32) -> Result<(), AllocError> {
        let reference = Leva(reference);
        let orders = Orders(self.orders);
        let outcome = self.auction.outcome();
        let outcomes = Outcomes(&[("the call", outcome)]);
        let sentence = Sentence(outcome);
        write!(
            self.out,
            "The book at reference price {reference}\n\n{orders}\nThe call as it stands\n\n{outcomes}\n{sentence}"
        )
    }

    // The book without a question: what its call gives.
    fn call(&mut self) -> Result<(), AllocError> {
        let found = self.auction.outcome().price;
        self.picture(None, found)?;
        self.trades(None)
    }

    // One question: what the call gives with the asked order in it.
    fn question(&mut self, question: Question) -> Result<(), AllocError> {
        let asked = question.order;
        let without = self.auction.outcome();
        let answer = question.answer(&mut self.auction);
        let outcomes = Outcomes(&[("without it", without), ("with it", answer.outcome)]);
        let sentence = Sentence(answer.outcome);
        let shares = Shares { asked, answer };
        write!(self.out, "{outcomes}\n{sentence}{shares}")?;
        self.picture(Some(asked), answer.outcome.price)?;
        self.trades(Some(question))
    }

    fn questions(&mut self, asks: &[Order]) -> Result<(), AllocError>
        requires fit { all fit_order asks.now ≡ true }
        requires unnumbered { all is_unnumbered asks.now ≡ true }
    {
        for (i, asked) in asks.iter().enumerate() {
            write!(self.out, "\nQuestion {}: {}\n\n", i + 1, OrderText(*asked))?;
            self.question(Question::new(*asked))?;
        }
        Ok(())
    }

    // The whole answer to the study.
    fn answer(&mut self, study: &Study) -> Result<(), AllocError>
        requires { Sound (content study.now) }
    {
        self.book(study.reference)?;
        if study.asks.is_empty() {
            self.call()
        } else {
            self.questions(study.asks.as_slice())
        }
    }
}

// The answer to a study, as text, or why there is none.
pub fn report(heap: Global, text: &[u8]) -> Result<String, StudyError>
    ensures { Answers (study_of text.now) result }
{
    let study = read_study(heap, text)?;
    let auction = load(heap, &study).map_err(|_| StudyError::NoMemory)?;
    let mut writer = Writer {
        heap,
        out: String::new(heap),
        auction,
        orders: study.orders.as_slice(),
    };
    writer.answer(&study)?;
    Ok(writer.out)
}
