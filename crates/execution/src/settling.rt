// A side settled by the lines of the tape.
ghost use Rattle.std.specs.Prelude.{◌≡◌, ◌≤◌, map, length, take, if◌then◌else◌, vec_len, vec_capacity, filter, nat_eq};
ghost use Rattle.execution.specs.Settling.{named_by, left_by, stands, settled};

use words::orders::Order;
use words::sides::Side;
use words::tape::Trade;

// What a line gives the number on a side.
fn part_of(side: Side, number: u16, line: Trade) -> u32
    ensures { result ≡ (if nat_eq (named_by side line) number then line.quantity else 0) }
{
    let named = match side {
        Side::Buy => line.buy,
        Side::Sell => line.sell,
    };
    if named == number { line.quantity } else { 0 }
}

// The order less what the lines that name it add up to.
pub fn left_of(side: Side, order: Order, lines: &[Trade]) -> Order
    ensures { result ≡ left_by side lines.now order }
{
    let left = lines.iter().fold(order.quantity, |left, line| {
        left.saturating_sub(part_of(side, order.number, *line))
    });
    Order {
        quantity: left,
        ..order
    }
}

fn lower_all(side: Side, orders: &mut [Order], lines: &[Trade])
    ensures { orders.new ≡ map (left_by side lines.now) orders.old }
{
    for order in orders.iter_mut() {
        *order = left_of(side, *order, lines);
    }
}

// Each order less what it traded, and those with nothing left taken out.
pub fn settle(side: Side, orders: &mut Vec<Order>, lines: &[Trade])
    ensures items { orders.new.items ≡ settled side lines.now orders.old.items }
    ensures fewer { vec_len orders.new ≤ vec_len orders.old }
    ensures capacity { vec_capacity orders.new ≡ vec_capacity orders.old }
{
    lower_all(side, orders.as_mut_slice(), lines);
    orders.retain(|order| order.quantity > 0);
}
