// The walk down a ranked slice: quantities are taken from the entries in turn.
ghost use Rattle.std.specs.Prelude.{◌≡◌, ℕ, ◌+◌, ◌-◌, ◌<◌, length, if◌then◌else◌, nat_lt, slice_index_or, slice_set};
ghost use Rattle.ranking.specs.Lists.{total};
ghost use Rattle.ranking.specs.Walks.{walked};

// An entry of which a quantity is open.
pub trait Open {
    // what is open of it
    ghost left: { Self → ℕ };

    // the entry after a quantity was taken from it
    ghost lowered: { Self → ℕ → Self };

    fn left(&self) -> u32
        ensures { result ≡ left self.now };

    fn lower(&mut self, by: u32)
        ensures { self.new ≡ lowered self.old by };

    // nothing taken is nothing changed
    ghost by_nothing: { (x : Self) → lowered x 0 ≡ x };

    // and what is taken is open no more
    ghost by_some: { (x : Self) (q : ℕ) → left (lowered x q) ≡ left x - q };
}

// One step of a walk: takes a quantity from the entry at a place, and goes on to the next where nothing is left of it.
pub fn pass<T: Open>(entries: &mut [T], at: usize, quantity: u32) -> usize
    requires { at < length entries.old }
    ensures next { (d : T) → result ≡ (if nat_lt quantity (T.left (slice_index_or entries.old at d)) then at else at + 1) }
    ensures after { (d : T) → entries.new ≡ slice_set entries.old at (T.lowered (slice_index_or entries.old at d) quantity) }
{
    let had = entries[at].left();
    entries[at].lower(quantity);
    if quantity < had { at } else { at + 1 }
}

// Takes a volume down the slice, from each entry what it holds, and returns what they do not hold of it.
pub fn walk<T: Open>(entries: &mut [T], volume: u32) -> u32
    ensures after { entries.new ≡ walked T.left T.lowered volume entries.old }
    ensures value { result ≡ volume - total T.left entries.old }
{
    let mut rest = volume;
    for e in entries.iter_mut() {
        if rest == 0 {
            break;
        }
        let q = rest.min(e.left());
        e.lower(q);
        rest -= q;
    }
    rest
}
