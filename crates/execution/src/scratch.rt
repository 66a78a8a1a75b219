// Memory for a copy of both sides, reserved once: room for a full side and one asked order in each list.
ghost use Rattle.std.specs.Prelude.{◌≡◌, ◌≤◌, [], IfOk, vec_capacity};

use std::alloc::{AllocError, Global};
use words::orders::Order;

#[derive(Debug, Drop)]
pub struct Scratch {
    pub buys: Vec<Order>,
    pub sells: Vec<Order>,
    ghost buys_room: { 129 ≤ vec_capacity buys },
    ghost sells_room: { 129 ≤ vec_capacity sells },
}

impl Scratch {
    pub fn new(heap: Global) -> Result<Scratch, AllocError>
        ensures { IfOk result (λ s. (s.buys.items ≡ []) × (s.sells.items ≡ [])) }
    {
        let buys = Vec::with_capacity(heap, 129)?;
        let sells = Vec::with_capacity(heap, 129)?;
        Ok(Scratch { buys, sells })
    }
}
