// The open set: no price is outside its ranges.
ghost use Rattle.ranges.specs.Open.{every_price};

mod making;

use crate::sets::RangeSet;

#[derive(Clone, Copy, Debug, Default, PartialEq, Eq)]
pub struct OpenSet;

impl RangeSet for OpenSet {
    ghost meaning = { λ _. every_price };

    fn inside_static(&self, _price: u32, _anchor: u32) -> bool {
        true
    }

    fn inside_dynamic(&self, _price: u32, _anchor: u32) -> bool {
        true
    }

    fn inside_extended_static(&self, _price: u32, _anchor: u32) -> bool {
        true
    }

    fn inside_extended_dynamic(&self, _price: u32, _anchor: u32) -> bool {
        true
    }
}
