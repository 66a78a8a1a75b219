// The guard of the what-if question: while it lives, the asked order is in its place; when it goes, on whatever way, the place is empty.
ghost use Rattle.std.specs.Prelude.{◌≡◌, ◌≤◌, length, vec_len, vec_capacity};
ghost use Rattle.book.specs.Books.{emptied, filled, with_asked};
ghost use Rattle.pricing.specs.Sides.{sides};

use crate::table::Book;
use execution::scratch::Scratch;
use words::orders::Order;
use words::sides::Side;

pub struct WhatIf<'a> {
    book: &'a mut Book,
}

impl Drop for WhatIf<'_> {
    fn drop(self)
        ensures { self.exit.0.now ≡ emptied self.entry.book.now }
    {
        self.book.asked = None;
        let WhatIf { book: _ } = self;
    }
}

impl<'a> WhatIf<'a> {
    pub fn new(book: &'a mut Book, order: Order) -> WhatIf<'a>
        ensures value { result.book.now ≡ filled book.old order }
        ensures named { result.book.ghost_name ≡ book.entry.ghost_name }
    {
        book.asked = Some(order);
        WhatIf { book }
    }

    // A copy of both sides with the asked order.
    pub(crate) fn gather(&self, into: &mut Scratch)
        requires buys { vec_len self.now.book.now.buys ≤ 128 }
        requires sells { vec_len self.now.book.now.sells ≤ 128 }
        ensures { sides into.new.buys.items into.new.sells.items ≡ with_asked self.now.book.now }
    {
        self.book.gather(into);
    }
}

// A copy of a side, in room that is reserved.
fn copy_side(orders: &[Order], out: &mut Vec<Order>)
    requires { length orders.now ≤ vec_capacity out.old }
    ensures items { out.new.items ≡ orders.now }
    ensures len { vec_len out.new ≡ length orders.now }
    ensures capacity { vec_capacity out.new ≡ vec_capacity out.old }
{
    out.clear();
    for order in orders {
        out.push_reserved(*order);
    }
}

impl Book {
    // A copy of both sides, an asked order last in time on its own.
    fn gather(&self, into: &mut Scratch)
        requires buys { vec_len self.now.buys ≤ 128 }
        requires sells { vec_len self.now.sells ≤ 128 }
        ensures { sides into.new.buys.items into.new.sells.items ≡ with_asked self.now }
    {
        copy_side(self.buys.as_slice(), &mut into.buys);
        copy_side(self.sells.as_slice(), &mut into.sells);
        if let Some(order) = self.asked {
            match order.side {
                Side::Buy => into.buys.push_reserved(order),
                Side::Sell => into.sells.push_reserved(order),
            }
        }
    }
}
