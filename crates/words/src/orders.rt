// An order of the book.
ghost use Rattle.std.specs.Prelude.{◌≡◌, ◌≤◌};
ghost use Rattle.words.specs.Orders.{lowered, resized, ticket_of};

use crate::sides::Side;
use crate::terms::{Condition, Kind, Terms};

#[derive(Clone, Copy, Debug, PartialEq, Eq)]
pub struct Order {
    pub number: u16,
    pub side: Side,
    pub terms: Terms,
    pub condition: Condition,
    // what is still open of it
    pub quantity: u32,
}

impl Order {
    // Takes a traded quantity from what is open: nothing is left where more was traded.
    pub fn reduce(&mut self, by: u32)
        ensures { self.new ≡ lowered self.old by }
    {
        self.quantity = self.quantity.saturating_sub(by);
    }

    // Gives it another open quantity.
    pub fn resize(&mut self, quantity: u32)
        ensures { self.new ≡ resized self.old quantity }
    {
        self.quantity = quantity;
    }
}

// An order as it is brought, before it has a number: the price field is 0 where the kind has no limit.
#[derive(Clone, Copy, Debug, PartialEq, Eq)]
pub struct Ticket {
    pub side: Side,
    pub kind: Kind,
    pub price: u32,
    pub quantity: u32,
}

impl From<Order> for Ticket {
    ghost from_gives = { λ order ticket. ticket ≡ ticket_of order };

    fn from(order: Order) -> Ticket {
        Ticket {
            side: order.side,
            kind: order.terms.kind(),
            price: order.terms.limit().unwrap_or(0),
            quantity: order.quantity,
        }
    }
}
