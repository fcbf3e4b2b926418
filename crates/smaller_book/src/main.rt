// Reads a chart from standard input, derives its smaller rule book from the chart's own start marking, and writes the book's bytes to standard output.
#![tactic(auto)]

ghost use Rattle.std.specs.Prelude.{◌≤◌, ◌≡◌, length, take};
ghost use Rattle.paper.specs.Limits.{book_header};
ghost use Rattle.flat_chart.specs.Numbers.{flat_of};
ghost use Rattle.graph.specs.Numbers.{marks_of};
ghost use Rattle.book.specs.Image.{rules_in, conditions_in, words_in, word_place};
ghost use Rattle.smaller_deriver.specs.Calling.{deriving_smaller, smaller_image};

use book::header::{counts_at, words_from};
use flat_chart::FlatChart;
use graph::Marking;
use paper::{
    Answer, BOOK_HEADER, CHART_HEADER, CONDITION_SIZE, MAX_EVENTS, MAX_NODES, MAX_RELATIONS,
    MAX_RULES, MAX_WORDS, NODE_SIZE, RELATION_SIZE, RULE_SIZE, WORD_SIZE,
};

// The longest chart image, and one byte more, which shows a longer input for what it is.
const INPUT: usize = CHART_HEADER + NODE_SIZE * MAX_NODES + RELATION_SIZE * MAX_RELATIONS + 1;

// The longest derived book, a condition for each event: a smaller one is never longer.
const BOOK: usize = BOOK_HEADER
    + RULE_SIZE * MAX_RULES
    + CONDITION_SIZE * MAX_EVENTS
    + WORD_SIZE * MAX_WORDS;

// What deriving gives, and how many bytes of the room the book takes.
#[derive(Clone, Copy)]
struct Derived {
    answer: Answer,
    bytes: usize,
}

// How long the book is whose header the room begins with.
fn book_length(room: &[u8]) -> usize
    requires { book_header ≤ length room.now }
    ensures { result ≡ word_place (rules_in room.now) (conditions_in room.now) (words_in room.now) }
{
    let h = counts_at(room);
    words_from(h.rules, h.conditions) + WORD_SIZE * (h.words as usize)
}

// The bytes counted are exactly the smaller book.
fn derive(chart: FlatChart, start: Marking, room: &mut [u8]) -> Derived
    requires { book_header ≤ length room.old }
    ensures answer_value { result.answer ≡ (deriving_smaller (flat_of chart) (marks_of start) (length room.old)).answer }
    ensures room_after { result.answer.code ≡ 0 → take result.bytes room.new ≡ smaller_image (flat_of chart) (marks_of start) }
    ensures bytes_in_bounds { result.bytes ≤ length room.new }
{
    let smaller = smaller_deriver::derive_smaller(chart, start, room);
    let answer = smaller.answer;
    if answer.code != 0 {
        return Derived { answer, bytes: 0 };
    }
    let bytes = book_length(room);
    Derived { answer, bytes }
}

fn write_book(
    rt: &impl Print,
    chart: FlatChart,
    start: Marking,
    room: &mut [u8; BOOK],
) -> std::io::Result<()> {
    let derived = derive(chart, start, room);
    if derived.answer.code != 0 {
        return printing::refused(rt, derived.answer);
    }
    rt.write_all(&room[..derived.bytes])
}

// A read or a write that fails ends the program with its error.
fn main(rt: HostRuntime) -> std::io::Result<()> {
    let mut input = [0u8; INPUT];
    let n = printing::read_full(&mut rt.stdin(), &mut input)?;
    let reading = chart::read(&input[..n]);
    if reading.answer.code != 0 {
        return printing::refused(&rt, reading.answer);
    }
    let mut room = [0u8; BOOK];
    write_book(&rt, reading.chart, reading.marking, &mut room)
}
