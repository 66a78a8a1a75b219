// Quantities and prices, read from their words. A number may have any number of digits: what is too large is refused, never wrapped.
ghost use Rattle.std.specs.Prelude.{◌≡◌, ℕ, ◌+◌, ◌-◌, ◌*◌, ◌≤◌, min, Some, Ok};
ghost use Rattle.study.specs.Numbers.{value, is_number, quantity_of, ranged, ranged_price, decimal_price, price_of};
ghost use Rattle.study.specs.Written.{written, written_price};

use crate::bytes::{all_digits, find};
use crate::faults::Reason;
use std::fmt;

// The largest quantity, and the largest price in stotinki.
const MOST: u32 = 1_000_000;

// One past the largest: every number from here on is as much too large as this one.
const OVER: u32 = 1_000_001;

// The number that the digits write, or OVER where that is less.
fn number(digits: &[u8]) -> u32
    ensures { result ≡ min (value digits.now) 1000001 }
{
    digits.iter().fold(0u32, |sum, &digit| {
        let digit = u32::from(digit.saturating_sub(b'0'));
        sum.saturating_mul(10).saturating_add(digit).min(OVER)
    })
}

fn is_number_word(word: &[u8]) -> bool
    ensures { result ≡ is_number word.now }
{
    !word.is_empty() && all_digits(word)
}

// The number, from 1 to MOST, or else that reason.
fn in_range(number: u32, outside: Reason) -> Result<u32, Reason>
    ensures { result ≡ ranged number outside }
{
    if (1..=MOST).contains(&number) {
        Ok(number)
    } else {
        Err(outside)
    }
}

// The quantity that the word writes: digits, and from 1 to 1,000,000. Every quantity, written in decimal digits, reads as itself.
pub fn quantity(word: &[u8]) -> Result<u32, Reason>
    ensures value { result ≡ quantity_of word.now }
    ensures written { (n : ℕ) → 1 ≤ n → n ≤ 1000000 → word.now ≡ written n → result ≡ Ok n }
{
    if !is_number_word(word) {
        return Err(Reason::QuantityMalformed);
    }
    in_range(number(word), Reason::QuantityRange)
}

fn price_in_range(stotinki: u32) -> Result<u32, Reason>
    ensures { result ≡ ranged_price stotinki }
{
    in_range(stotinki, Reason::PriceRange)
}

// The price that leva, a point and decimals write.
fn with_decimals(leva: &[u8], decimals: &[u8]) -> Result<u32, Reason>
    ensures { result ≡ decimal_price leva.now decimals.now }
{
    if !is_number_word(leva) || !is_number_word(decimals) {
        return Err(Reason::PriceMalformed);
    }
    match decimals.len() {
        1 => price_in_range(100 * number(leva) + 10 * number(decimals)),
        2 => price_in_range(100 * number(leva) + number(decimals)),
        _ => Err(Reason::PriceDecimals),
    }
}

// The price that the word writes, in stotinki: leva, and after a point one or two decimals. Every price, written as leva, a
// point and two digits, reads as itself.
pub fn price(word: &[u8]) -> Result<u32, Reason>
    ensures value { result ≡ price_of word.now }
    ensures written { (p : ℕ) → 1 ≤ p → p ≤ 1000000 → word.now ≡ written_price p → result ≡ Ok p }
{
    match find(b'.', word) {
        Some(point) => with_decimals(&word[..point], &word[point + 1..]),
        None if is_number_word(word) => price_in_range(100 * number(word)),
        None => Err(Reason::PriceMalformed),
    }
}

// A price in stotinki, shown in leva with two decimals.
#[derive(Clone, Copy, Debug, PartialEq, Eq)]
pub struct Leva(pub u32);

impl fmt::Display for Leva {
    ghost output = { λ x. Some (written_price x.0) };

    fn fmt<W: fmt::Write>(&self, f: &mut fmt::Formatter<W>) -> fmt::Result {
        let leva = self.0 / 100;
        let stotinki = self.0 % 100;
        write!(f, "{leva}.{stotinki:02}")
    }
}
