// The table of a book: the standing orders of each side, in the order of their grants.
ghost use Rattle.std.specs.Prelude.{◌≡◌, ◌+◌, ◌<◌, ◌≤◌, [], length, IfOk, None, vec_len, vec_capacity, slice_index_or, slice_set};
ghost use Rattle.book.specs.Books.{standing_in, joined, standing_of, other, cap_of, Keeps};
ghost use Rattle.execution.specs.Laws.{standing};
ghost use Rattle.execution.specs.Settling.{after_trades};
ghost use Rattle.pricing.specs.Sides.{sides};
ghost use Rattle.words.specs.Orders.{no_order, lowered, resized};

use execution::settling::settle;
use std::alloc::{AllocError, Global};
use words::orders::Order;
use words::sides::Side;
use words::tape::Trade;

// A plain book. Who stands earlier in a side was granted earlier; a slot that a trade empties is open to the next order.
#[derive(Debug, Drop)]
pub struct Book {
    pub buys: Vec<Order>,
    pub sells: Vec<Order>,
    // the place of an order that is only asked about
    pub asked: Option<Order>,
}

impl Book {
    // An empty book with room for 128 orders a side.
    pub fn new(heap: Global) -> Result<Book, AllocError>
        ensures empty { IfOk result (λ b. (standing_of b ≡ sides [] []) × (b.asked ≡ None)) }
        ensures room { IfOk result (λ b. (vec_len b.buys ≡ 0) × (vec_len b.sells ≡ 0) × (128 ≤ vec_capacity b.buys) × (128 ≤ vec_capacity b.sells)) }
    {
        let buys = Vec::with_capacity(heap, 128)?;
        let sells = Vec::with_capacity(heap, 128)?;
        Ok(Book {
            buys,
            sells,
            asked: None,
        })
    }

    // The order stands on its side, last in time.
    pub fn enter(&mut self, order: Order)
        requires { length (standing_in order.side self.old) < cap_of order.side self.old }
        ensures standing { standing_of self.new ≡ joined (standing_of self.old) order }
        ensures rest { Keeps self.old self.new }
    {
        match order.side {
            Side::Buy => self.buys.push_reserved(order),
            Side::Sell => self.sells.push_reserved(order),
        }
    }

    // Takes a traded quantity from the order at a place, which is lent for that; no other order changes.
    pub fn reduce(&mut self, side: Side, place: usize, by: u32)
        requires { place < length (standing_in side self.old) }
        ensures changed { standing_in side self.new ≡ slice_set (standing_in side self.old) place (lowered (slice_index_or (standing_in side self.old) place no_order) by) }
        ensures others { standing_in (other side) self.new ≡ standing_in (other side) self.old }
        ensures rest { Keeps self.old self.new }
    {
        match side {
            Side::Buy => self.buys[place].reduce(by),
            Side::Sell => self.sells[place].reduce(by),
        }
    }

    // Gives the order at a place another open quantity; it keeps its time, and no other order changes.
    pub fn resize(&mut self, side: Side, place: usize, quantity: u32)
        requires { place < length (standing_in side self.old) }
        ensures changed { standing_in side self.new ≡ slice_set (standing_in side self.old) place (resized (slice_index_or (standing_in side self.old) place no_order) quantity) }
        ensures others { standing_in (other side) self.new ≡ standing_in (other side) self.old }
        ensures rest { Keeps self.old self.new }
    {
        match side {
            Side::Buy => self.buys[place].resize(quantity),
            Side::Sell => self.sells[place].resize(quantity),
        }
    }

    // Both sides after the lines: each order less what it traded, and those with nothing left taken out.
    pub fn settle_by(&mut self, lines: &[Trade])
        ensures standing { standing_of self.new ≡ after_trades lines.now (standing_of self.old) }
        ensures fewer { (x : Side) → length (standing_in x self.new) ≤ length (standing_in x self.old) }
        ensures rest { Keeps self.old self.new }
    {
        settle(Side::Buy, &mut self.buys, lines);
        settle(Side::Sell, &mut self.sells, lines);
    }
}
