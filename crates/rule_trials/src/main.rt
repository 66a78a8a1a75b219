#![tactic(auto)]

// What the range sets, the table of entry and the numbered words answer, printed to be held against answers from elsewhere.
use entry::table::entry_for;
use ranges::open::OpenSet;
use ranges::percent::PercentSet;
use ranges::sets::RangeSet;
use words::phases::{Phase, PhaseKind, Stage, StrikeResult};
use words::refusals::Refusal;
use words::terms::{Condition, Kind};

const WIDTHS: [(u16, u16); 8] = [
    (1, 1000),
    (1000, 1),
    (50, 20),
    (100, 20),
    (7, 333),
    (333, 7),
    (999, 500),
    (2, 99),
];

const ANCHORS: [u32; 16] = [
    1, 2, 3, 10, 19, 20, 99, 199, 500, 999, 1000, 1001, 4500, 123456, 999999, 1000000,
];

const MAKINGS: [(u16, u16); 9] = [
    (1, 1),
    (1000, 1000),
    (0, 1),
    (1, 0),
    (0, 0),
    (1001, 1),
    (1, 1001),
    (65535, 500),
    (500, 65535),
];

const KINDS: [Kind; 3] = [Kind::Limit, Kind::Market, Kind::MarketToLimit];

const CONDITIONS: [Condition; 4] = [
    Condition::Unconditional,
    Condition::ImmediateOrCancel,
    Condition::FillOrKill,
    Condition::BookOrCancel,
];

const PHASES: [Phase; 5] = [
    Phase::OpeningCall,
    Phase::Continuous,
    Phase::InterruptionCall,
    Phase::ClosingCall,
    Phase::Ended,
];

const REFUSALS: [Refusal; 30] = [
    Refusal::PriceUnfit,
    Refusal::QuantityUnfit,
    Refusal::CodeUnknown,
    Refusal::PairNeverEnters,
    Refusal::MemberUnfit,
    Refusal::TimeUnfit,
    Refusal::TapeShort,
    Refusal::ReferenceUnfit,
    Refusal::VersionUnknown,
    Refusal::LetterUnknown,
    Refusal::LengthUnfit,
    Refusal::RecordCutShort,
    Refusal::MakingMisplaced,
    Refusal::ClientReferenceUnfit,
    Refusal::OfferUnfit,
    Refusal::BidPriceUnfit,
    Refusal::BidMoneyUnfit,
    Refusal::TimeRunsBack,
    Refusal::CallNotOfPhase,
    Refusal::PairNotOfPhase,
    Refusal::OrderNotStanding,
    Refusal::SideFull,
    Refusal::NoLimitOpposite,
    Refusal::WouldTrade,
    Refusal::NotFilledWhole,
    Refusal::AmendedPriceUnfit,
    Refusal::StrikeTooEarly,
    Refusal::NumbersUsedUp,
    Refusal::SaleFull,
    Refusal::BidNotOwn,
];

const RESULTS: [StrikeResult; 4] = [
    StrikeResult::Executed,
    StrikeResult::NoPrice,
    StrikeResult::Extended,
    StrikeResult::Held,
];

// 0, or the number of what is refused.
fn refused_with<T: Drop>(made: Result<T, Refusal>) -> u8 {
    made.err().map_or(0, Refusal::number)
}

// The last price inside on the way down from the anchor, and on the way up as far as four times the anchor.
fn ends<F: Fn(u32) -> bool>(anchor: u32, inside: F) -> (u32, u32)
    requires { F.IsAlwaysCallable inside }
{
    let down = (0..anchor).rev().take_while(|&price| inside(price));
    let up = (anchor..=anchor.saturating_mul(4)).take_while(|&price| inside(price));
    (down.last().unwrap_or(anchor), up.last().unwrap_or(anchor))
}

fn print_ends(rt: &impl Print, set: &impl RangeSet, anchor: u32) -> anyhow::Result<()> {
    print!(rt; "{anchor}:")?;
    for (lowest, highest) in [
        ends(anchor, |price| set.inside_static(price, anchor)),
        ends(anchor, |price| set.inside_dynamic(price, anchor)),
        ends(anchor, |price| set.inside_extended_static(price, anchor)),
        ends(anchor, |price| set.inside_extended_dynamic(price, anchor)),
    ] {
        print!(rt; " {lowest}-{highest}")?;
    }
    println!(rt)?;
    Ok(())
}

fn print_percent_sets(rt: &impl Print) -> anyhow::Result<()> {
    for (static_width, dynamic_width) in WIDTHS {
        println!(rt; "widths {static_width} {dynamic_width}")?;
        match PercentSet::new(static_width, dynamic_width) {
            Ok(set) => {
                for anchor in ANCHORS {
                    print_ends(rt, &set, anchor)?;
                }
            }
            Err(why) => println!(rt; "refused {}", why.number())?,
        }
    }
    Ok(())
}

// Whether a percent set is made of two widths.
fn print_makings(rt: &impl Print) -> anyhow::Result<()> {
    for (static_width, dynamic_width) in MAKINGS {
        let refused = refused_with(PercentSet::new(static_width, dynamic_width));
        println!(rt; "made of {static_width} {dynamic_width}: {refused}")?;
    }
    Ok(())
}

// Whether each pair of kind and condition enters, in a call and in continuous trading.
fn print_table(rt: &impl Print) -> anyhow::Result<()> {
    for kind in KINDS {
        for condition in CONDITIONS {
            print!(rt;
                "kind {} condition {}:",
                u8::from(kind),
                u8::from(condition)
            )?;
            for phase in [PhaseKind::Call, PhaseKind::Continuous] {
                print!(rt; " {}", refused_with(entry_for(kind, condition, phase)))?;
            }
            println!(rt)?;
        }
    }
    Ok(())
}

fn print_numbers(rt: &impl Print) -> anyhow::Result<()> {
    for phase in PHASES {
        let kind = match phase.kind() {
            Some(PhaseKind::Call) => "call",
            Some(PhaseKind::Continuous) => "continuous",
            None => "ended",
        };
        println!(rt; "phase {} {kind}", u8::from(phase))?;
    }
    for stage in [Stage::First, Stage::Extended, Stage::Held] {
        println!(rt; "stage {}", u8::from(stage))?;
    }
    for result in RESULTS {
        println!(rt; "result {}", u8::from(result))?;
    }
    for refusal in REFUSALS {
        println!(rt; "refusal {}", refusal.number())?;
    }
    Ok(())
}

fn run(rt: &impl Print) -> anyhow::Result<()> {
    print_percent_sets(rt)?;
    println!(rt; "open")?;
    print_ends(rt, &OpenSet::new(), 1000)?;
    print_makings(rt)?;
    print_table(rt)?;
    print_numbers(rt)
}

fn main(rt: HostRuntime) -> anyhow::Result<()> {
    run(&rt)
}
