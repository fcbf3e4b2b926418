// 25 and 26, of a well-formed book: they are judged over all stages, whichever is asked for.
ghost use Rattle.std.specs.Prelude.{◌≡◌};
ghost use Rattle.paper.specs.Refusals.{answered};
ghost use Rattle.book.specs.Image.{book_of};
ghost use Rattle.book.specs.WellRead.{Opened};
ghost use Rattle.texts.specs.Noted.{NamedIn};
ghost use Rattle.judge.specs.Checking.{rules_answer};

use book::Counts;
use clash_search::first_clash;
use loops::loop_place;
use paper::Refusal;
use texts::references::MARK_WORDS;
use unwritten::Scratch;

// The scratch is lent with any content. The search for clashes goes through its rounds in the bits for rules that are written.
pub fn judge_rules(
    book: &[u8],
    counts: Counts,
    named: &[u64; MARK_WORDS],
    scratch: &mut Scratch,
) -> Result<(), Refusal>
    requires { (Opened book.now counts) × (NamedIn book.now named.now) }
    ensures { answered result ≡ rules_answer (book_of book.now) }
{
    if let Some(m) = loop_place(book, counts, named, scratch) {
        return Err(Refusal::Loop(m as u32));
    }
    let rules = counts.rules as usize;
    let marks = counts.marks as usize;
    let pair = first_clash(book, rules, marks, &mut scratch.written);
    if pair.first < rules {
        return Err(Refusal::Clash(pair.first as u32, pair.second as u32));
    }
    Ok(())
}
