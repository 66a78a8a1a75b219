// Demand and supply at a price.
ghost use Rattle.std.specs.Prelude.{◌≡◌, ◌≤◌, if◌then◌else◌};
ghost use Rattle.pricing.specs.Passes.{Few};
ghost use Rattle.pricing.specs.Sides.{can_trade, open_at};

use words::orders::Order;
use words::sides::Side;

// What the order would trade on that side at the price: all that is open, or nothing.
fn ready_at(side: Side, order: Order, price: u32) -> u32
    ensures { result ≡ (if can_trade side price order then order.quantity else 0) }
{
    if order.terms.may_trade(side, price) {
        order.quantity
    } else {
        0
    }
}

// The open quantity of those of a side that can trade at the price: demand of the buys, supply of the sells.
pub fn open_at(side: Side, orders: &[Order], price: u32) -> u32
    requires { Few orders.now }
    ensures value { result ≡ open_at side price orders.now }
    ensures bound { result ≤ 129000000 }
{
    let mut sum = 0;
    for order in orders {
        sum += ready_at(side, *order, price);
    }
    sum
}
