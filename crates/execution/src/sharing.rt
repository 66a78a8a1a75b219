// What one order gets in an execution, without the lines: its share of the volume, taken down its side in rank.
ghost use Rattle.std.specs.Prelude.{◌≡◌, ◌^◌, ◌<◌, ◌≤◌, [], ◌∷◌, length, vec_capacity};
ghost use Rattle.execution.specs.Execution.{ready, executed};
ghost use Rattle.execution.specs.Settling.{traded};
ghost use Rattle.execution.specs.Shares.{open_of, share};
ghost use Rattle.pricing.specs.Passes.{Few};
ghost use Rattle.pricing.specs.Sides.{sides, open_at};
ghost use Rattle.ranking.specs.Lists.{total};

use crate::executing::rank_ready;
use crate::scratch::Scratch;
use pricing::standing::Standing;
use ranking::walks::walk;
use words::orders::Order;
use words::sides::Side;

fn part_under(number: u16, order: Order) -> u32
    ensures { result ≡ open_of number (order ∷ []) }
{
    if order.number == number {
        order.quantity
    } else {
        0
    }
}

// What is open under a number.
fn open_of(number: u16, orders: &[Order]) -> u32
    requires { total (λ o. o.quantity) orders.now < 2 ^ 32 }
    ensures { result ≡ open_of number orders.now }
{
    let mut sum = 0;
    for order in orders {
        sum += part_under(number, *order);
    }
    sum
}

// What a volume that is taken down a ranked slice takes from the number.
fn take_share(ranked: &mut [Order], volume: u32, number: u16) -> u32
    requires { total (λ o. o.quantity) ranked.old < 2 ^ 32 }
    ensures { result ≡ share number volume ranked.old }
{
    let had = open_of(number, ranked);
    let _ = walk(ranked, volume);
    had - open_of(number, ranked)
}

// The same of those of a side that can trade at the price.
fn share_on(
    side: Side,
    orders: &[Order],
    price: u32,
    volume: u32,
    number: u16,
    out: &mut Vec<Order>,
) -> u32
    requires { (length orders.now ≤ vec_capacity out.old) × (open_at side price orders.now < 2 ^ 32) }
    ensures value { result ≡ share number volume (ready side price orders.now) }
    ensures capacity { vec_capacity out.new ≡ vec_capacity out.old }
{
    rank_ready(side, orders, price, out);
    take_share(out.as_mut_slice(), volume, number)
}

// The shares that the order with that number gets when the book is executed at the price.
pub fn shares(standing: &Standing, side: Side, price: u32, number: u16, ranked: &mut Scratch) -> u32
    ensures { result ≡ traded side number (executed standing.now price) }
{
    let volume = standing.volume(price);
    let buys = standing.buys();
    let sells = standing.sells();
    match side {
        Side::Buy => share_on(side, buys, price, volume, number, &mut ranked.buys),
        Side::Sell => share_on(side, sells, price, volume, number, &mut ranked.sells),
    }
}
