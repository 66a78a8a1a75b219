// What can be wrong in a study, and where.
ghost use Rattle.std.specs.Prelude.{◌≡◌, Some};
ghost use Rattle.study.specs.Phrases.{phrase, fault_text, error_text};
ghost use Rattle.study.specs.declared.faults.StudyError.TheVariants as errors;

use std::alloc::{AllocError, AllocFailed};
use std::error::Error;
use std::fmt;

#[derive(Clone, Copy, Debug, PartialEq, Eq)]
pub enum Reason {
    // a byte that is no text, or one above 127 outside a comment
    NotText,
    // a word that is none of those expected at its place
    UnknownWord,
    // the statement ends too early
    MissingWord,
    // the statement goes on after its end
    WordsAfter,
    // a price that is not digits, or digits, a point and digits
    PriceMalformed,
    // a price with more than two decimals
    PriceDecimals,
    // a price outside 0.01 to 10000.00
    PriceRange,
    // a quantity that is not digits
    QuantityMalformed,
    // a quantity outside 1 to 1,000,000
    QuantityRange,
    // the 129th order of a side
    SideFull,
    // a second reference
    ReferenceTwice,
    // no reference in the whole study
    ReferenceMissing,
    // no statement in the whole study
    NothingThere,
}

impl fmt::Display for Reason {
    ghost output = { λ x. Some (phrase x) };

    fn fmt<W: fmt::Write>(&self, f: &mut fmt::Formatter<W>) -> fmt::Result {
        f.write_str(match self {
            Reason::NotText => "a byte that is not text",
            Reason::UnknownWord => "a word that is not known here",
            Reason::MissingWord => "the statement ends too early",
            Reason::WordsAfter => "something follows the end of the statement",
            Reason::PriceMalformed => "a price is digits, or digits, a point and digits",
            Reason::PriceDecimals => "a price has at most two decimals",
            Reason::PriceRange => "a price is from 0.01 to 10000.00",
            Reason::QuantityMalformed => "a quantity is digits only",
            Reason::QuantityRange => "a quantity is from 1 to 1000000",
            Reason::SideFull => "a side has at most 128 orders",
            Reason::ReferenceTwice => "the reference is given twice",
            Reason::ReferenceMissing => "the study has no reference",
            Reason::NothingThere => "the study has no statement",
        })
    }
}

impl Error for Reason {}

// The first fault of a study: the number of its line, from 1, and what is wrong there. Where the fault is of the whole text, as
// a reference that is missing, it stands at the last line, which of an empty text is 0.
#[derive(Clone, Copy, Debug, PartialEq, Eq)]
pub struct Fault {
    pub line: usize,
    pub reason: Reason,
}

// Shown with line 1 for the last line of an empty text.
impl fmt::Display for Fault {
    ghost output = { λ x. Some (fault_text x) };

    fn fmt<W: fmt::Write>(&self, f: &mut fmt::Formatter<W>) -> fmt::Result {
        let line = self.line.max(1);
        let reason = self.reason;
        write!(f, "line {line}: {reason}")
    }
}

// Why no study was read. Want of memory may come at any line.
#[derive(Clone, Copy, Debug, PartialEq, Eq)]
pub enum StudyError {
    Fault(Fault),
    NoMemory,
}

impl fmt::Display for StudyError {
    ghost output = { λ x. Some (error_text x) };

    fn fmt<W: fmt::Write>(&self, f: &mut fmt::Formatter<W>) -> fmt::Result {
        match self {
            StudyError::Fault(fault) => write!(f, "{fault}"),
            StudyError::NoMemory => f.write_str("there is not enough memory"),
        }
    }
}

impl Error for StudyError {}

impl From<Fault> for StudyError {
    ghost from_gives = { λ fault r. r ≡ errors.Fault fault };

    fn from(fault: Fault) -> Self {
        Self::Fault(fault)
    }
}

impl From<AllocError> for StudyError {
    ghost from_gives = { λ _ r. r ≡ errors.NoMemory };

    fn from(_e: AllocError) -> Self {
        Self::NoMemory
    }
}

impl<T: Drop> From<AllocFailed<T>> for StudyError {
    ghost from_gives = { λ _ r. r ≡ errors.NoMemory };

    fn from(_e: AllocFailed<T>) -> Self {
        AllocError.into()
    }
}
