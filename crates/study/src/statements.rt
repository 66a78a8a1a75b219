// One line of a study: blank, a reference, an order or a question.
ghost use Rattle.std.specs.Prelude.{◌≡◌};
ghost use Rattle.study.specs.Wording.{words_of};
ghost use Rattle.study.specs.Statements.{last_price, terms_of, order_from, order_of, statement_of, line_of};

use crate::bytes::{all_comment, all_plain, find};
use crate::faults::Reason;
use crate::numbers::{price, quantity};
use crate::wording::{check_end, kind, next_word, side};
use words::orders::Order;
use words::sides::Side;
use words::terms::{Condition, Kind, Terms};

#[derive(Clone, Copy, Debug, PartialEq, Eq)]
pub(crate) enum Line {
    Blank,
    Reference(u32),
    Entry(Order),
    Ask(Order),
}

// A price that ends the statement.
fn last_price(text: &[u8]) -> Result<u32, Reason>
    ensures { result ≡ last_price (words_of text.now) }
{
    let (word, rest) = next_word(text).ok_or(Reason::MissingWord)?;
    let price = price(word)?;
    check_end(rest)?;
    Ok(price)
}

fn terms(text: &[u8]) -> Result<Terms, Reason>
    ensures { result ≡ terms_of (words_of text.now) }
{
    let (word, rest) = next_word(text).ok_or(Reason::MissingWord)?;
    match kind(word)? {
        Kind::Limit => Ok(Terms::Limit(last_price(rest)?)),
        Kind::Market => {
            check_end(rest)?;
            Ok(Terms::Market)
        }
        Kind::MarketToLimit => {
            check_end(rest)?;
            Ok(Terms::MarketToLimit)
        }
    }
}

// The order of that side whose quantity and terms follow; it has no number yet.
fn order_on(side: Side, text: &[u8]) -> Result<Order, Reason>
    ensures { result ≡ order_from side (words_of text.now) }
{
    let (word, rest) = next_word(text).ok_or(Reason::MissingWord)?;
    let quantity = quantity(word)?;
    let terms = terms(rest)?;
    Ok(Order {
        number: 0,
        side,
        terms,
        condition: Condition::Unconditional,
        quantity,
    })
}

fn order(text: &[u8]) -> Result<Order, Reason>
    ensures { result ≡ order_of (words_of text.now) }
{
    let (word, rest) = next_word(text).ok_or(Reason::MissingWord)?;
    let side = side(word)?;
    order_on(side, rest)
}

fn statement(text: &[u8]) -> Result<Line, Reason>
    ensures { result ≡ statement_of (words_of text.now) }
{
    let Some((word, rest)) = next_word(text) else {
        return Ok(Line::Blank);
    };
    if word == b"reference".as_slice() {
        Ok(Line::Reference(last_price(rest)?))
    } else if word == b"ask".as_slice() {
        Ok(Line::Ask(order(rest)?))
    } else {
        Ok(Line::Entry(order(text)?))
    }
}

// What the line says, its comment left out.
pub(crate) fn read_line(line: &[u8]) -> Result<Line, Reason>
    ensures { result ≡ line_of line.now }
{
    let (text, comment) = line.split_at(find(b'#', line).unwrap_or(line.len()));
    if !all_plain(text) || !all_comment(comment) {
        return Err(Reason::NotText);
    }
    statement(text)
}
