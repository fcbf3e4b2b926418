// 20 to 26 of a book, judged in a scratch of its own.
ghost use Rattle.std.specs.Prelude.{◌≡◌, IfOk};
ghost use Rattle.judge.specs.Head.{told};
ghost use Rattle.judge.specs.Checking.{book_answer, PassesWith};

use book::Counts;
use judge::judge_book;
use paper::Refusal;
use unwritten::Scratch;

// 20 to 26, or the counts of a book that passes.
pub fn judge_whole(book: &[u8]) -> Result<Counts, Refusal>
    ensures answer { told result ≡ book_answer book.now }
    ensures passes { IfOk result (λ counts. PassesWith book.now counts) }
{
    let mut scratch = Scratch::empty();
    judge_book(book, &mut scratch)
}
