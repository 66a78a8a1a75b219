// The laws of every execution.
ghost use Rattle.std.specs.Prelude.{ℕ};
ghost use Rattle.execution.specs.Laws.{LawOfExecution};
ghost use Rattle.pricing.specs.Sides.{Sides};

// Whatever the book and the price.
pub fn executions_are_lawful() -> u8
    ensures { (s : Sides) (p : ℕ) → LawOfExecution s p }
{
    0
}
