// A whole study, read line by line.
ghost use Rattle.std.specs.Prelude.{◌≡◌, ℕ, List, length, IfOk, Ok};
ghost use Rattle.std.specs.Iterator.{YieldsFirstRef, item_count};
ghost use Rattle.study.specs.Studies.{Content, lines_of, lines_read, study_of};
ghost use Rattle.study.specs.Sound.{Sound};
ghost use Rattle.study.specs.Writer.{written_study};
ghost use Rattle.study.specs.Views.{view, content, cut_line, Agrees};

use crate::bytes::find;
use crate::drafts::Draft;
use crate::faults::StudyError;
pub use crate::studies::Study;
use std::alloc::Global;

// The first line, without its line feed, and what follows it.
fn next_line<'a>(text: &'a [u8]) -> Option<(&'a [u8], &'a [u8])>
    ensures { lines_of text.now ≡ cut_line result }
{
    if text.is_empty() {
        return None;
    }
    match find(b'\n', text) {
        Some(end) => Some((&text[..end], &text[end + 1..])),
        None => Some((text, &[])),
    }
}

// The lines of a text, each without its line feed.
#[derive(Drop)]
struct Lines<'a>(&'a [u8]);

impl<'a> Iterator for Lines<'a> {
    type Item = &'a [u8];

    ghost next_gives = { YieldsFirstRef (λ s. lines_of s.0.now) };

    ghost remaining = { item_count (λ s. lines_of s.0.now) };

    fn next(&mut self) -> Option<&'a [u8]> {
        let (line, rest) = next_line(self.0)?;
        self.0 = rest;
        Some(line)
    }
}

// Takes over every line, and says how many there are.
fn read_lines(draft: &mut Draft, text: &[u8]) -> Result<usize, StudyError>
    ensures read { Agrees result (λ _. view draft.new) (lines_read 0 (view draft.old) (lines_of text.now)) }
    ensures count { IfOk result (λ n. n ≡ length (lines_of text.now)) }
{
    let mut count = 0;
    for line in Lines(text) {
        count += 1;
        draft.take(count, line)?;
    }
    Ok(count)
}

fn read_all(heap: Global, text: &[u8]) -> Result<Study, StudyError>
    ensures { Agrees result content (study_of text.now) }
{
    let mut draft = Draft::new(heap);
    let lines = read_lines(&mut draft, text)?;
    draft.finish(lines)
}

// The study that the text writes, or its first fault. What is read is fit for a book, so is what any text says, and whatever is
// fit for a book can be written and reads as itself.
pub fn read_study(heap: Global, text: &[u8]) -> Result<Study, StudyError>
    ensures value { Agrees result content (study_of text.now) }
    ensures sound { IfOk result (λ s. Sound (content s)) }
    ensures law_of_reading { (t : List ℕ) → IfOk (study_of t) Sound }
    ensures written { (s : Content) → Sound s → text.now ≡ written_study s → Agrees result content (Ok s) }
{
    read_all(heap, text)
}
