#![tactic(auto)]

// Studies, answered one after the other: what is printed is held against answers from elsewhere.
// The studies of the input are parted by lines of three dashes. A study with a question is answered by it, another by its call.
use anyhow::anyhow;
use auction::held::Auction;
use inquiry::loading::load;
use pricing::outcomes::Outcome;
use report::reports::report;
use std::io::Read;
use std::{fmt, io};
use study::numbers::Leva;
use study::reading::{Study, read_study};
use words::orders::Ticket;

// The line between two studies.
const MARK: &[u8] = b"---\n";

// The numbers of an outcome: price, volume and surplus.
#[derive(Clone, Copy)]
struct Numbers(Outcome);

impl fmt::Display for Numbers {
    fn fmt<W: fmt::Write>(&self, f: &mut fmt::Formatter<W>) -> fmt::Result {
        match self.0.price {
            Some(price) => write!(f, "{}", Leva(price))?,
            None => write!(f, "none")?,
        }
        write!(f, " {} {}", self.0.volume, self.0.surplus)
    }
}

// The answer to the first question of a study, or what its call gives where it has none.
fn print_answer(rt: &impl Print, auction: &mut Auction, study: &Study) -> io::Result<()> {
    let Some(asked) = study.asks.first() else {
        return println!(rt; "{} -", Numbers(auction.outcome()));
    };
    match auction.ask(Ticket::from(*asked)) {
        Ok(answer) => println!(rt; "{} {}", Numbers(answer.outcome), answer.shares),
        Err(why) => println!(rt; "refused {}", why.number()),
    }
}

// The whole answer to one study, or its fault, as the program whatif prints them.
fn print_report(rt: &(impl AllocGlobal + Print), text: &[u8]) -> io::Result<()> {
    match report(rt.alloc(), text) {
        Ok(answer) => print!(rt; "{answer}"),
        Err(e) => println!(rt; "{e}"),
    }
}

// The numbers of the answer to one study, or its fault; the whole answer where the study's first line asks for it.
fn print_study(rt: &(impl AllocGlobal + Print), text: &[u8]) -> anyhow::Result<()> {
    if text.starts_with(b"# the whole answer\n") {
        return Ok(print_report(rt, text)?);
    }
    let Ok(study) = read_study(rt.alloc(), text) else {
        return Ok(print_report(rt, text)?);
    };
    let mut auction = load(rt.alloc(), &study).map_err(|_| anyhow!(
        "the auction could not be made"
    ))?;
    print_answer(rt, &mut auction, &study)?;
    Ok(())
}

fn main(rt: HostRuntime) -> anyhow::Result<()> {
    let mut input = Vec::new(rt.alloc());
    rt.stdin().read_to_end(&mut input)?;
    let mut rest = input.as_slice();
    while !rest.is_empty() {
        let end = rest
            .windows(MARK.len())
            .position(|here| here == MARK)
            .unwrap_or(rest.len());
        let (text, after) = rest.split_at(end);
        print_study(&rt, text)?;
        rest = after.strip_prefix(MARK).unwrap_or(&[]);
    }
    Ok(())
}
