// What a range set is: four sets of prices belong to each anchor, and it answers whether a price is in one of them.
ghost use Rattle.std.specs.Prelude.{◌≡◌};
ghost use Rattle.ranges.specs.Sets.{Ranges};

// An implementation names the four sets, shows that each question says yes of just the prices in its set, and owes nothing else.
// A question takes the price first, and then the anchor; the meaning takes the anchor first, since each anchor has its own sets.
pub trait RangeSet {
    ghost meaning: { Self → Ranges };

    fn inside_static(&self, price: u32, anchor: u32) -> bool
        ensures { result ≡ (meaning self.now).static anchor price };

    fn inside_dynamic(&self, price: u32, anchor: u32) -> bool
        ensures { result ≡ (meaning self.now).dynamic anchor price };

    fn inside_extended_static(&self, price: u32, anchor: u32) -> bool
        ensures { result ≡ (meaning self.now).extended_static anchor price };

    fn inside_extended_dynamic(&self, price: u32, anchor: u32) -> bool
        ensures { result ≡ (meaning self.now).extended_dynamic anchor price };
}
