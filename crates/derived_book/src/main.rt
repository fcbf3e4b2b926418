// Reads a chart from standard input, derives its rule book, and writes the book's bytes to standard output.
#![tactic(auto)]

ghost use Rattle.std.specs.Prelude.{◌≤◌, ◌≡◌, length, take};
ghost use Rattle.paper.specs.Limits.{book_header};
ghost use Rattle.flat_chart.specs.Numbers.{flat_of};
ghost use Rattle.book.specs.Image.{rules_in, conditions_in, words_in, word_place};
ghost use Rattle.deriver.specs.Deriving.{deriving_answer, derived_image};

use book::header::{counts_at, words_from};
use flat_chart::FlatChart;
use paper::{
    Answer, BOOK_HEADER, CHART_HEADER, CONDITION_SIZE, MAX_EVENTS, MAX_NODES, MAX_RELATIONS,
    MAX_RULES, MAX_WORDS, NODE_SIZE, RELATION_SIZE, RULE_SIZE, WORD_SIZE,
};

// The longest chart image, and one byte more, which shows a longer input for what it is.
const INPUT: usize = CHART_HEADER + NODE_SIZE * MAX_NODES + RELATION_SIZE * MAX_RELATIONS + 1;

// The longest derived book: a condition for each event.
const BOOK: usize = BOOK_HEADER
    + RULE_SIZE * MAX_RULES
    + CONDITION_SIZE * MAX_EVENTS
    + WORD_SIZE * MAX_WORDS;

// What deriving gives, and how many bytes of the room the book takes.
#[derive(Clone, Copy)]
struct Derived {
    answer: Answer,
    bytes: usize,
}

// How long the book is whose header the room begins with.
fn book_length(room: &[u8]) -> usize
    requires { book_header ≤ length room.now }
    ensures { result ≡ word_place (rules_in room.now) (conditions_in room.now) (words_in room.now) }
{
    let h = counts_at(room);
    words_from(h.rules, h.conditions) + WORD_SIZE * (h.words as usize)
}

// The bytes counted are exactly the derived book.
fn derive(chart: FlatChart, room: &mut [u8]) -> Derived
    requires { book_header ≤ length room.old }
    ensures answer_value { result.answer ≡ deriving_answer (flat_of chart) (length room.old) }
    ensures room_after { result.answer.code ≡ 0 → take result.bytes room.new ≡ derived_image (flat_of chart) }
    ensures bytes_in_bounds { result.bytes ≤ length room.new }
{
    let answer = deriver::derive(chart, room);
    if answer.code != 0 {
        return Derived { answer, bytes: 0 };
    }
    let bytes = book_length(room);
    Derived { answer, bytes }
}

fn write_book(rt: &impl Print, chart: FlatChart, room: &mut [u8; BOOK]) -> std::io::Result<()> {
    let derived = derive(chart, room);
    if derived.answer.code != 0 {
        return printing::refused(rt, derived.answer);
    }
    rt.write_all(&room[..derived.bytes])
}

// A read or a write that fails ends the program with its error.
fn main(rt: HostRuntime) -> std::io::Result<()> {
    let mut input = [0u8; INPUT];
    let n = printing::read_full(&mut rt.stdin(), &mut input)?;
    let reading = chart::read(&input[..n]);
    if reading.answer.code != 0 {
        return printing::refused(&rt, reading.answer);
    }
    let mut room = [0u8; BOOK];
    write_book(&rt, reading.chart, &mut room)
}
