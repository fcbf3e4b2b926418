// The whole image, judged for 20 to 24: its head, and behind a head that passes its records and texts.
ghost use Rattle.std.specs.Prelude.{◌≡◌, IfOk, OnOk};
ghost use Rattle.paper.specs.Refusals.{answered};
ghost use Rattle.book.specs.Judging.{image_answer};
ghost use Rattle.texts.specs.Noted.{NamedIn};
ghost use Rattle.judge.specs.Head.{head_answer, told, Begun};

use book::Counts;
use book::header::{counts_at, counts_fit, layout_fits};
use book::rules::first_bad_rule;
use paper::{BOOK_HEADER, Refusal};
use texts::first_bad_condition;
use texts::references::MARK_WORDS;

// 20 to 22, or the counts that the head gives.
#[tactic(auto, unfolding(crate::specs::Head::head_answer))]
pub fn judge_head(image: &[u8]) -> Result<Counts, Refusal>
    ensures answer { told result ≡ head_answer image.now }
    ensures begun { IfOk result (λ counts. Begun image.now counts) }
{
    if image.len() < BOOK_HEADER {
        return Err(Refusal::BookShort);
    }
    let counts = counts_at(image);
    if !counts_fit(counts) {
        return Err(Refusal::BookCount);
    }
    if !layout_fits(image, counts) {
        return Err(Refusal::BookLength);
    }
    Ok(counts)
}

// 23 and 24, behind a head that passed. Where it refuses nothing the image is a book, and the set has the marks that its texts name.
pub fn judge_body(
    image: &[u8],
    counts: Counts,
    named: &mut [u64; MARK_WORDS],
) -> Result<(), Refusal>
    requires { Begun image.now counts }
    ensures answer { answered result ≡ image_answer image.now }
    ensures named { OnOk result (NamedIn image.now named.new) }
{
    let r = first_bad_rule(
        image,
        counts.rules,
        counts.stages,
        counts.marks,
        counts.conditions,
    );
    if r < counts.rules {
        return Err(Refusal::BadRule(r));
    }
    let c = first_bad_condition(
        image,
        counts.rules,
        counts.conditions,
        counts.words,
        counts.marks,
        named,
    );
    if c < counts.conditions {
        return Err(Refusal::BadCondition(c));
    }
    Ok(())
}
