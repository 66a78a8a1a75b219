// The tables and sentences of an answer.
use book::asking::Answer;
use execution::settling::left_of;
use pricing::outcomes::Outcome;
use std::cmp::Ordering;
use std::fmt;
use std::fmt::InlineText;
use study::numbers::Leva;
use words::orders::Order;
use words::sides::Side;
use words::tape::Trade;
use words::terms::Terms;

// The kind of an order and its limit, as a study writes them.
#[derive(Clone, Copy)]
struct TermsText(Terms);

impl fmt::Display for TermsText {
    fn fmt<W: fmt::Write>(&self, f: &mut fmt::Formatter<W>) -> fmt::Result {
        match self.0 {
            Terms::Limit(limit) => write!(f, "at {}", Leva(limit)),
            Terms::Market => f.write_str("market"),
            Terms::MarketToLimit => f.write_str("market-to-limit"),
        }
    }
}

// A side, as a study writes it.
#[derive(Clone, Copy)]
struct SideText(Side);

impl fmt::Display for SideText {
    fn fmt<W: fmt::Write>(&self, f: &mut fmt::Formatter<W>) -> fmt::Result {
        f.pad(match self.0 {
            Side::Buy => "buy",
            Side::Sell => "sell",
        })
    }
}

// An order as a study writes it: side, quantity and terms.
#[derive(Clone, Copy)]
pub(crate) struct OrderText(pub(crate) Order);

impl fmt::Display for OrderText {
    fn fmt<W: fmt::Write>(&self, f: &mut fmt::Formatter<W>) -> fmt::Result {
        let side = SideText(self.0.side);
        let terms = TermsText(self.0.terms);
        write!(f, "{side} {} {terms}", self.0.quantity)
    }
}

// An order's number, or the word for the asked one.
#[derive(Clone, Copy)]
struct Name(u16);

impl fmt::Display for Name {
    fn fmt<W: fmt::Write>(&self, f: &mut fmt::Formatter<W>) -> fmt::Result {
        match self.0 {
            0 => f.pad("asked"),
            number => number.fmt(f),
        }
    }
}

// A price in leva, of at most eleven characters, or the word for none.
#[derive(Clone, Copy)]
pub(crate) struct PriceText(pub(crate) Option<u32>);

impl fmt::Display for PriceText {
    fn fmt<W: fmt::Write>(&self, f: &mut fmt::Formatter<W>) -> fmt::Result {
        match self.0 {
            Some(price) => f.pad(InlineText::<11>::of(Leva(price)).as_str()),
            None => f.pad("none"),
        }
    }
}

// A number with its sign in a column of twelve; 0 has none.
#[derive(Clone, Copy)]
struct Signed(i64);

impl fmt::Display for Signed {
    fn fmt<W: fmt::Write>(&self, f: &mut fmt::Formatter<W>) -> fmt::Result {
        match self.0 {
            0 => write!(f, "{:>12}", 0),
            number => write!(f, "{number:>+12}"),
        }
    }
}

// An order as a line of a table.
#[derive(Clone, Copy)]
struct Line(Order);

impl fmt::Display for Line {
    fn fmt<W: fmt::Write>(&self, f: &mut fmt::Formatter<W>) -> fmt::Result {
        let name = Name(self.0.number);
        let side = SideText(self.0.side);
        let terms = TermsText(self.0.terms);
        writeln!(f, "{name:>7}  {side:<4}  {:>9}  {terms}", self.0.quantity)
    }
}

// Orders, one a line.
#[derive(Clone, Copy)]
pub(crate) struct Orders<'a>(pub(crate) &'a [Order]);

impl fmt::Display for Orders<'_> {
    fn fmt<W: fmt::Write>(&self, f: &mut fmt::Formatter<W>) -> fmt::Result {
        writeln!(f, " number  side   quantity  terms")?;
        for order in self.0 {
            write!(f, "{}", Line(*order))?;
        }
        Ok(())
    }
}

// What calls give, one a line under its label.
#[derive(Clone, Copy)]
pub(crate) struct Outcomes<'a>(pub(crate) &'a [(&'static str, Outcome)]);

impl fmt::Display for Outcomes<'_> {
    fn fmt<W: fmt::Write>(&self, f: &mut fmt::Formatter<W>) -> fmt::Result {
        writeln!(f, "                   price      volume     surplus")?;
        for (label, outcome) in self.0 {
            let price = PriceText(outcome.price);
            let surplus = Signed(outcome.surplus);
            writeln!(
                f,
                "  {label:<12}{price:>10}  {:>10}{surplus}",
                outcome.volume
            )?;
        }
        Ok(())
    }
}

// What a call gives, in words.
#[derive(Clone, Copy)]
pub(crate) struct Sentence(pub(crate) Outcome);

impl fmt::Display for Sentence {
    fn fmt<W: fmt::Write>(&self, f: &mut fmt::Formatter<W>) -> fmt::Result {
        let Some(price) = self.0.price else {
            return writeln!(f, "There is no price: nothing can trade.");
        };
        write!(f, "{} shares trade at {}; ", self.0.volume, Leva(price))?;
        let more = self.0.surplus.unsigned_abs();
        match self.0.surplus.cmp(&0) {
            Ordering::Greater => writeln!(f, "{more} more are wanted there than offered."),
            Ordering::Less => writeln!(f, "{more} more are offered there than wanted."),
            Ordering::Equal => writeln!(f, "as many are wanted there as offered."),
        }
    }
}

// The trades of a call, one a line.
#[derive(Clone, Copy)]
pub(crate) struct Trades<'a>(pub(crate) &'a [Trade]);

impl fmt::Display for Trades<'_> {
    fn fmt<W: fmt::Write>(&self, f: &mut fmt::Formatter<W>) -> fmt::Result {
        if self.0.is_empty() {
            return writeln!(f, "No trades.");
        }
        writeln!(f, "Trades\n  buyer  seller       price    quantity")?;
        for line in self.0 {
            let buyer = Name(line.buy);
            let seller = Name(line.sell);
            let price = PriceText(Some(line.price));
            writeln!(
                f,
                "{buyer:>7} {seller:>7}  {price:>10}  {:>10}",
                line.quantity
            )?;
        }
        Ok(())
    }
}

// What stays in the book after the trades.
#[derive(Clone, Copy)]
pub(crate) struct Rest<'a> {
    pub(crate) orders: &'a [Order],
    pub(crate) asked: Option<Order>,
    pub(crate) lines: &'a [Trade],
}

impl fmt::Display for Rest<'_> {
    fn fmt<W: fmt::Write>(&self, f: &mut fmt::Formatter<W>) -> fmt::Result {
        writeln!(f, "What stays in the book\n number  side       open  terms")?;
        for order in self.orders.iter().chain(&self.asked) {
            let left = left_of(order.side, *order, self.lines);
            if left.quantity > 0 {
                write!(f, "{}", Line(left))?;
            }
        }
        Ok(())
    }
}

// How many shares the asked order gets, and at what price.
#[derive(Clone, Copy)]
pub(crate) struct Shares {
    pub(crate) asked: Order,
    pub(crate) answer: Answer,
}

impl fmt::Display for Shares {
    fn fmt<W: fmt::Write>(&self, f: &mut fmt::Formatter<W>) -> fmt::Result {
        let shares = self.answer.shares;
        let quantity = self.asked.quantity;
        match self.answer.outcome.price {
            Some(price) if shares > 0 => {
                let price = Leva(price);
                writeln!(
                    f,
                    "The asked order gets {shares} of its {quantity} shares, at {price}."
                )
            }
            _ => writeln!(f, "The asked order gets none of its {quantity} shares."),
        }
    }
}
