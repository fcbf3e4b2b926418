// The paper's limits, formats and refusal numbers, each named once, and the answer that every call hands back.
#![tactic(auto)]

ghost use Rattle.std.specs.Prelude.{◌≡◌};
ghost use Rattle.paper.specs.Answers.{granted, answer, place_of};
ghost use Rattle.paper.specs.Refusals.{answer_of, answered};

// ---- limits
pub const MAX_NODES: usize = 512;

pub const MAX_RELATIONS: usize = 16384;

pub const MAX_EVENTS: usize = 256;

pub const MAX_MARKS: usize = 1024;

pub const MAX_RULES: usize = 131840;

pub const MAX_CONDITIONS: usize = 1024;

pub const MAX_WORDS: usize = 655616;

pub const MAX_STACK: usize = 16;

pub const MAX_ROLES: u32 = 8;

pub const MAX_LIST: usize = 4096;

// ---- the chart image: sizes in bytes, and what a parent number says of a node without one
pub const CHART_HEADER: usize = 8;

pub const NODE_SIZE: usize = 4;

pub const RELATION_SIZE: usize = 6;

pub const NO_PARENT: u16 = 65535;

pub const MAX_FLAGS: u16 = 7;

pub const KINDS: u16 = 5;

// A node's flags are two bytes: the lower one its state, the upper one its roles.
pub const FLAGS_BYTE: u16 = 256;

// ---- the book image: sizes in bytes, and the words that are operators
pub const BOOK_HEADER: usize = 32;

pub const RULE_SIZE: usize = 10;

pub const CONDITION_SIZE: usize = 8;

pub const WORD_SIZE: usize = 2;

pub const AND: u16 = 65533;

pub const OR: u16 = 65534;

pub const NOT: u16 = 65535;

// What the table of a smaller book says of a mark that is dropped or absent.
pub const NO_MARK: u16 = 65535;

// ---- the index image: sizes in bytes of S and R, of what it says of a stage, and of a rule in an order
pub const INDEX_HEADER: usize = 8;

pub const INDEX_STAGE: usize = 8;

pub const INDEX_RULE: usize = 4;

// ---- what mending writes: a change's size in bytes, and the five steps
pub const CHANGE_SIZE: usize = 10;

pub const MEND_PARENT: u16 = 1;

pub const MEND_FLAGS: u16 = 2;

pub const MEND_LOOP: u16 = 3;

pub const MEND_GROUP: u16 = 4;

pub const MEND_RELATION: u16 = 5;

// ---- refusals
pub const CHART_SHORT: u32 = 1;

pub const CHART_COUNT: u32 = 2;

pub const CHART_LENGTH: u32 = 3;

pub const BAD_NODE: u32 = 4;

pub const PARENTS_LOOP: u32 = 5;

pub const GROUP_FLAGS: u32 = 6;

pub const MANY_EVENTS: u32 = 7;

pub const BAD_RELATION: u32 = 8;

// Never given any more (request xii), and reserved.
pub const INCLUDE_EXCLUDE: u32 = 9;

pub const NO_SUCH_EVENT: u32 = 10;

pub const NOT_INCLUDED: u32 = 11;

pub const CONDITION_WANTING: u32 = 12;

pub const MILESTONE_WANTING: u32 = 13;

pub const UNFIT: u32 = 14;

pub const BOOK_ROOM: u32 = 15;

pub const BOOK_SHORT: u32 = 20;

pub const BOOK_COUNT: u32 = 21;

pub const BOOK_LENGTH: u32 = 22;

pub const BAD_RULE: u32 = 23;

pub const BAD_CONDITION: u32 = 24;

pub const LOOP: u32 = 25;

pub const CLASH: u32 = 26;

pub const ORDER_UNFIT: u32 = 27;

pub const MARK_ABOVE: u32 = 28;

pub const NO_SUCH_STAGE: u32 = 29;

pub const STAGE_CLOSED: u32 = 30;

pub const ORDER_ROOM: u32 = 31;

pub const NOT_PERMITTED: u32 = 32;

pub const NOT_DERIVED: u32 = 33;

pub const INDEX_UNFIT: u32 = 34;

pub const INDEX_ROOM: u32 = 35;

pub const NO_SUCH_POSITION: u32 = 36;

pub const MEND_ROOM: u32 = 37;

pub const LONG_LIST: u32 = 38;

#[repr(C)]
#[derive(Clone, Copy)]
pub struct Answer {
    pub code: u32,
    pub place: u32,
    pub other: u32,
}

pub fn granted() -> Answer
    ensures { result ≡ granted }
{
    refused(0, 0, 0)
}

pub fn refused(code: u32, place: u32, other: u32) -> Answer
    ensures { result ≡ answer code place other }
{
    Answer { code, place, other }
}

// What a call refuses, and what it names with it: the place, and for two of them another number.
#[derive(Clone, Copy, PartialEq, Eq)]
pub enum Refusal {
    ChartShort,
    ChartCount,
    ChartLength,
    // the node
    BadNode(u32),
    // the lowest node of the loops
    ParentsLoop(u32),
    // the group
    GroupFlags(u32),
    // how many there are
    ManyEvents(u32),
    // the relation
    BadRelation(u32),
    Unfit,
    // the bytes that the book takes
    BookRoom(u32),
    BookShort,
    BookCount,
    BookLength,
    // the rule
    BadRule(u32),
    // the condition
    BadCondition(u32),
    // the lowest mark targeted by a rule on a loop
    Loop(u32),
    // the lower rule, and the lowest that it clashes with
    Clash(u32, u32),
    OrderUnfit,
    MarkAbove,
    NoSuchStage,
    StageClosed,
    // how many rules count
    OrderRoom(u32),
    NotDerived,
    IndexUnfit,
    // the bytes that the index takes
    IndexRoom(u32),
    // the bytes that the chart takes, and those of the list
    MendRoom(u32, u32),
    // how long it is
    LongList(u32),
}

impl From<Refusal> for Answer {
    ghost from_gives = { λ refusal given. given ≡ answer_of refusal };

    fn from(refusal: Refusal) -> Answer {
        match refusal {
            Refusal::ChartShort => refused(CHART_SHORT, 0, 0),
            Refusal::ChartCount => refused(CHART_COUNT, 0, 0),
            Refusal::ChartLength => refused(CHART_LENGTH, 0, 0),
            Refusal::BadNode(place) => refused(BAD_NODE, place, 0),
            Refusal::ParentsLoop(place) => refused(PARENTS_LOOP, place, 0),
            Refusal::GroupFlags(place) => refused(GROUP_FLAGS, place, 0),
            Refusal::ManyEvents(place) => refused(MANY_EVENTS, place, 0),
            Refusal::BadRelation(place) => refused(BAD_RELATION, place, 0),
            Refusal::Unfit => refused(UNFIT, 0, 0),
            Refusal::BookRoom(place) => refused(BOOK_ROOM, place, 0),
            Refusal::BookShort => refused(BOOK_SHORT, 0, 0),
            Refusal::BookCount => refused(BOOK_COUNT, 0, 0),
            Refusal::BookLength => refused(BOOK_LENGTH, 0, 0),
            Refusal::BadRule(place) => refused(BAD_RULE, place, 0),
            Refusal::BadCondition(place) => refused(BAD_CONDITION, place, 0),
            Refusal::Loop(place) => refused(LOOP, place, 0),
            Refusal::Clash(place, other) => refused(CLASH, place, other),
            Refusal::OrderUnfit => refused(ORDER_UNFIT, 0, 0),
            Refusal::MarkAbove => refused(MARK_ABOVE, 0, 0),
            Refusal::NoSuchStage => refused(NO_SUCH_STAGE, 0, 0),
            Refusal::StageClosed => refused(STAGE_CLOSED, 0, 0),
            Refusal::OrderRoom(place) => refused(ORDER_ROOM, place, 0),
            Refusal::NotDerived => refused(NOT_DERIVED, 0, 0),
            Refusal::IndexUnfit => refused(INDEX_UNFIT, 0, 0),
            Refusal::IndexRoom(place) => refused(INDEX_ROOM, place, 0),
            Refusal::MendRoom(place, other) => refused(MEND_ROOM, place, other),
            Refusal::LongList(place) => refused(LONG_LIST, place, 0),
        }
    }
}

// The answer of what is granted or refused.
pub fn answered(judged: Result<(), Refusal>) -> Answer
    ensures { result ≡ answered judged }
{
    match judged {
        Ok(()) => granted(),
        Err(refusal) => Answer::from(refusal),
    }
}

const LAST_PLACE: usize = 4294967295;

// A place is a number of 32 bits: what lies past them is named by the highest.
pub fn place_of(position: usize) -> u32
    ensures { result ≡ place_of position }
{
    if position < LAST_PLACE {
        return position as u32;
    }
    4294967295
}
