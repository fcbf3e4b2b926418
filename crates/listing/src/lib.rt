// The listing of a chart's rule book, as text in lent room.
#![tactic(auto)]

ghost use Rattle.std.specs.Prelude.{◌≡◌, ◌≤◌, length};
ghost use Rattle.flat_chart.specs.Numbers.{flat_of};
ghost use Rattle.book.specs.Image.{book_of};
ghost use Rattle.book.specs.WellFormed.{WellFormed};
ghost use Rattle.general.specs.Writing.{Wrote};
ghost use Rattle.writing.specs.Writers.{Space};
ghost use Rattle.listing.specs.Limits.{max_listing};
ghost use Rattle.listing.specs.Text.{book_text, chart_text, image_text};
ghost use Rattle.listing.specs.Listing.{listed_length, listed_room};

use flat_chart::FlatChart;
use paper::WORD_SIZE;

// How many bytes of a chart the listing reads; a longer one is cut, and its length then does not fit its counts.
pub const LISTING_INPUT: usize = 25097;

// Into how many bytes it derives; a larger book is refused.
pub const LISTING_BOOK: usize = 49152;

// How many bytes its text has at most.
pub const MAX_LISTING: usize = 159744;

// The whole book, from the start of the room.
fn book_text(room: &mut [u8], image: &[u8]) -> usize
    requires { WellFormed image.now × Space room.old 0 (book_text (book_of image.now)) }
    ensures { Wrote room.old 0 (book_text (book_of image.now)) result room.new }
{
    let h = book::header::counts_at(image);
    let a = single_lines::counts_line(room, 0, h);
    let b = rule_lines::rule_lines(room, a, image, h);
    condition_lines::condition_lines(room, b, image, h)
}

// The derived book's text, or the deriver's refusal.
fn chart_text(room: &mut [u8], chart: FlatChart) -> usize
    requires { max_listing ≤ length room.old }
    ensures { Wrote room.old 0 (chart_text (flat_of chart)) result room.new }
{
    let mut bytes = [0u8; LISTING_BOOK];
    let answer = deriver::derive(chart, &mut bytes);
    if answer.code != 0 {
        return single_lines::refusal_line(room, answer);
    }
    let h = book::header::counts_at(&bytes);
    let words = book::header::words_from(h.rules, h.conditions);
    let end = words + WORD_SIZE * h.words as usize;
    book_text(room, &bytes[..end])
}

// What the chart's image gives, or the reader's refusal.
fn image_text(room: &mut [u8], image: &[u8]) -> usize
    requires { max_listing ≤ length room.old }
    ensures { Wrote room.old 0 (image_text image.now) result room.new }
{
    let reading = chart::read(image);
    if reading.answer.code != 0 {
        return single_lines::refusal_line(room, reading.answer);
    }
    chart_text(room, reading.chart)
}

// The listing of a chart from the start of the room, and its length in bytes, which is never 0.
// A room of under `MAX_LISTING` bytes is left as it was, and the length is then 0.
// Stack: about 200 KiB, of which the derived book takes 48 and the chart, by value, 41 at each call.
pub fn list(input: &[u8], room: &mut [u8]) -> usize
    ensures { (result ≡ listed_length input.now room.old) × (room.new ≡ listed_room input.now room.old) }
{
    if room.len() < MAX_LISTING {
        return 0;
    }
    if input.len() <= LISTING_INPUT {
        return image_text(room, input);
    }
    image_text(room, &input[..LISTING_INPUT])
}
