#![tactic(auto)]

// whatif: what would a call auction give with one more order in it?
use report::reports::report;
use std::io::Read;
use std::process::ExitCode;
use std::rt::{Env, Files};
use std::{env, fmt, fs, io};
use study::faults::StudyError;

const HELP: &str = "whatif: the price of a call auction, and what one more order would get

usage: whatif [FILE]      reads the study in FILE, or from standard input
       whatif --help

A study is plain text, a statement a line; # begins a comment. Prices are in leva.

  reference PRICE                      the reference price, once
  buy|sell QUANTITY at PRICE           a limit order of the book
  buy|sell QUANTITY market             a market order
  buy|sell QUANTITY market-to-limit    a market-to-limit order
  ask buy|sell QUANTITY ...            a question: what would this order get?

Orders rank by kind and limit, then by their order in the text. A price is from
0.01 to 10000.00, a quantity from 1 to 1000000, and a side has at most 128 orders.
Each question is answered on the same book. Without a question the call itself is
struck. Bad input gets one line on standard error and exit status 1.

An example to paste into a shell, beside the script whatif:

./whatif <<'END'
# closing call
reference 4.40
buy  12000 at 4.55
buy   8000 market
sell 15000 at 4.48
sell  5000 market-to-limit
ask buy 40000 at 4.50
END
";

// Why there is no answer.
#[derive(Drop)]
enum Failure {
    TooManyWords,
    // the file that cannot be read, or none where it is standard input
    Input(Option<String>, io::Error),
    Study(StudyError),
}

impl fmt::Display for Failure {
    fn fmt<W: fmt::Write>(&self, f: &mut fmt::Formatter<W>) -> fmt::Result {
        match self {
            Failure::TooManyWords => write!(f, "one file at most; try whatif --help"),
            Failure::Input(Some(file), cause) => write!(f, "{file}: {cause}"),
            Failure::Input(None, cause) => write!(f, "standard input: {cause}"),
            Failure::Study(cause) => write!(f, "{cause}"),
        }
    }
}

// The study's text: from the file that is named, or from standard input.
fn read_input(
    rt: &(impl AllocGlobal + Files + Input),
    file: &Option<String>,
) -> io::Result<Vec<u8>> {
    if let Some(path) = file {
        return fs::read(rt, path.as_str());
    }
    let mut text = Vec::new(rt.alloc());
    rt.reader().read_to_end(&mut text)?;
    Ok(text)
}

fn answer(
    rt: &(impl AllocGlobal + Files + Input),
    file: Option<String>,
) -> Result<String, Failure> {
    let text = read_input(rt, &file).map_err(|cause| Failure::Input(file, cause))?;
    report(rt.alloc(), text.as_slice()).map_err(Failure::Study)
}

// Prints what the words of the command line ask for. What is wrong with them, with a study or with its file is told in one line.
fn run(rt: &(impl AllocGlobal + Env + Eprint + Files + Input + Print)) -> io::Result<ExitCode> {
    let mut words = env::args(rt)?.skip(1);
    let file = words.next();
    if file.as_ref().is_some_and(|word| word.as_str() == "--help") {
        print!(rt; "{HELP}")?;
        return Ok(ExitCode::SUCCESS);
    }
    let answer = match words.next() {
        None => answer(rt, file),
        Some(_) => Err(Failure::TooManyWords),
    };
    match answer {
        Ok(answer) => {
            print!(rt; "{answer}")?;
            Ok(ExitCode::SUCCESS)
        }
        Err(failure) => {
            eprintln!(rt; "whatif: {failure}")?;
            Ok(ExitCode::FAILURE)
        }
    }
}

fn main(rt: HostRuntime) -> ExitCode {
    run(&rt).unwrap_or(ExitCode::FAILURE)
}
