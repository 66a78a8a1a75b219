// A study under way: what the lines so far have said.
ghost use Rattle.std.specs.Prelude.{◌≡◌, vec_items};
ghost use Rattle.study.specs.Studies.{start, count_on, next_order, line_step, finished};
ghost use Rattle.study.specs.Sound.{SoundSoFar};

use crate::faults::{Fault, Reason, StudyError};
use crate::statements::{Line, read_line};
use crate::studies::Study;
use std::alloc::Global;
use words::orders::Order;
use words::sides::Side;

// The most orders that a side holds.
const ROOM: usize = 128;

#[derive(Debug, Drop)]
pub(crate) struct Draft {
    reference: Option<u32>,
    orders: Vec<Order>,
    asks: Vec<Order>,
    ghost sound: { SoundSoFar (record { reference = reference; orders = vec_items orders; asks = vec_items asks }) },
}

// How many of the orders are on the side.
fn count(side: Side, orders: &[Order]) -> usize
    ensures { result ≡ count_on side orders.now }
{
    let mut n = 0;
    for order in orders {
        if order.side == side {
            n += 1;
        }
    }
    n
}

impl Draft {
    ghost use Rattle.study.specs.Views.{view, content, Agrees};

    pub(crate) fn new(heap: Global) -> Draft
        ensures { view result ≡ start }
    {
        Draft {
            reference: None,
            orders: Vec::new(heap),
            asks: Vec::new(heap),
        }
    }

    // The order with the next number, if its side has room.
    fn numbered(&self, order: Order) -> Result<Order, Reason>
        ensures { result ≡ next_order (view self.now) order }
    {
        if count(order.side, &self.orders) >= ROOM {
            return Err(Reason::SideFull);
        }
        let number = (self.orders.len() + 1) as u16;
        Ok(Order { number, ..order })
    }

    // Takes over what the line of that number says. The reference is given once.
    pub(crate) fn take(&mut self, line: usize, text: &[u8]) -> Result<(), StudyError>
        ensures { Agrees result (λ _. view self.new) (line_step line (view self.old) text.now) }
    {
        let at = |reason| Fault { line, reason };
        match read_line(text).map_err(at)? {
            Line::Blank => {}
            Line::Reference(_) if self.reference.is_some() => {
                return Err(at(Reason::ReferenceTwice).into());
            }
            Line::Reference(price) => self.reference = Some(price),
            Line::Entry(order) => {
                let order = self.numbered(order).map_err(at)?;
                self.orders.push(order)?;
            }
            Line::Ask(order) => self.asks.push(order)?,
        }
        Ok(())
    }

    // The study, after the last of so many lines.
    pub(crate) fn finish(self, lines: usize) -> Result<Study, StudyError>
        ensures { Agrees result content (finished lines (view self)) }
    {
        let Draft {
            reference,
            orders,
            asks,
        } = self;
        let reason = if orders.is_empty() && asks.is_empty() {
            Reason::NothingThere
        } else {
            Reason::ReferenceMissing
        };
        let reference = reference.ok_or(Fault {
            line: lines,
            reason,
        })?;
        Ok(Study {
            reference,
            orders,
            asks,
        })
    }
}
