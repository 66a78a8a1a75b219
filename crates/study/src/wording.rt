// The words of a line, and which of them are known.
ghost use Rattle.std.specs.Prelude.{◌≡◌, ◌≤◌, length};
ghost use Rattle.std.specs.List.{position, prefix_len};
ghost use Rattle.study.specs.Bytes.{is_word};
ghost use Rattle.study.specs.Wording.{words_of, cut, ended, side_of, kind_of};

use crate::bytes::is_white;
use crate::faults::Reason;
use words::sides::Side;
use words::terms::Kind;

// The place where the first word begins.
fn word_start(line: &[u8]) -> Option<usize>
    ensures { result ≡ position is_word line.now }
{
    line.iter().position(|&byte| !is_white(byte))
}

// How many bytes stand before white space.
fn word_len(text: &[u8]) -> usize
    ensures value { result ≡ prefix_len is_word text.now }
    ensures bound { result ≤ length text.now }
{
    text.iter().take_while(|&&byte| !is_white(byte)).count()
}

// The first word, and what follows it; nothing where there is only white space.
pub(crate) fn next_word<'a>(line: &'a [u8]) -> Option<(&'a [u8], &'a [u8])>
    ensures { words_of line.now ≡ cut result }
{
    let text = &line[word_start(line)?..];
    Some(text.split_at(word_len(text)))
}

// That no word is left.
pub(crate) fn check_end(rest: &[u8]) -> Result<(), Reason>
    ensures { result ≡ ended (words_of rest.now) }
{
    match next_word(rest) {
        None => Ok(()),
        Some(_) => Err(Reason::WordsAfter),
    }
}

pub(crate) fn side(word: &[u8]) -> Result<Side, Reason>
    ensures { result ≡ side_of word.now }
{
    match word {
        b"buy" => Ok(Side::Buy),
        b"sell" => Ok(Side::Sell),
        _ => Err(Reason::UnknownWord),
    }
}

// The kind of order that a word of its terms begins.
pub(crate) fn kind(word: &[u8]) -> Result<Kind, Reason>
    ensures { result ≡ kind_of word.now }
{
    if word == b"at".as_slice() {
        Ok(Kind::Limit)
    } else if word == b"market".as_slice() {
        Ok(Kind::Market)
    } else if word == b"market-to-limit".as_slice() {
        Ok(Kind::MarketToLimit)
    } else {
        Err(Reason::UnknownWord)
    }
}
