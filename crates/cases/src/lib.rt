#![tactic(auto)]

// The worked cases of the whole project, on one contract over the definitions: each layer adds its lines.
ghost use Rattle.cases.specs.Cases.{WorkedCases};
ghost use Rattle.cases.specs.Numbers.{WorkedNumbers};
ghost use Rattle.cases.specs.Spans.{WorkedRanges};

// The definitions give each worked case its stated answer.
pub fn worked_cases() -> u8
    ensures books { WorkedCases }
    ensures ranges { WorkedRanges }
    ensures numbers { WorkedNumbers }
{
    0
}
