// The table of entry: what each kind of order meets with each condition, in a call and in continuous trading.
ghost use Rattle.std.specs.Prelude.{◌≡◌};
ghost use Rattle.entry.specs.Entry.{entry_of};

use words::phases::PhaseKind;
use words::refusals::Refusal;
use words::terms::{Condition, Kind};

// What a pair of kind and condition meets in a call and in continuous trading.
const ALWAYS: [Result<(), Refusal>; 2] = [Ok(()), Ok(())];

const CONTINUOUS: [Result<(), Refusal>; 2] = [Err(Refusal::PairNotOfPhase), Ok(())];

const NEVER: [Result<(), Refusal>; 2] = [Err(Refusal::PairNeverEnters); 2];

// A row for each kind, in the order of their codes from 1 on, and in it a place for each condition by its code: none,
// immediate-or-cancel, fill-or-kill, book-or-cancel.
const TABLE: [[[Result<(), Refusal>; 2]; 4]; 3] = [
    [ALWAYS, CONTINUOUS, CONTINUOUS, CONTINUOUS], // limit
    [ALWAYS, CONTINUOUS, CONTINUOUS, NEVER], // market
    [ALWAYS, NEVER, NEVER, NEVER], // market-to-limit
];

// Whether an order of that kind and condition enters in a phase of that kind, or what it is refused for.
pub fn entry_for(kind: Kind, condition: Condition, phase_kind: PhaseKind) -> Result<(), Refusal>
    ensures { result ≡ entry_of kind condition phase_kind }
{
    TABLE[kind as usize - 1][condition as usize][phase_kind as usize]
}
