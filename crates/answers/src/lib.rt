//! What a call answers, why it refuses, and the number of either.
#![tactic(auto)]

ghost use Rattle.std.specs.Prelude.{ℕ, ◌≡◌, ◌<◌};
ghost use Rattle.answers.specs.Answers.{number_of, said_as};
ghost use Rattle.answers.specs.Word.{word, word_with};

// A call that is not refused answers no more than done, says that no byte is next, says a line byte, gives a frame, or, on the bus of a
// mailbox, gives a cell or the lines.
// Kept: one type for the answers of both products, so that their numbers are proved once; Nothing is an answer with a number of its own.
#[derive(Clone, Copy)]
pub enum Answer {
    Done,
    Nothing,
    Byte(u8),
    Frame(u16),
    Cell(u16),
    Lines(u16),
}

// Why a call refuses; a refused call changes nothing.
#[derive(Clone, Copy, PartialEq, Eq)]
pub enum Refusal {
    Sizes,
    Misfit,
    LargeFrame,
    Busy,
    NotCarried,
    LargeValue,
    BitNotCarried,
    GoIsStop,
    Malformed,
    HeldLine,
    NotNext,
    LargeCommand,
}

// The state after a call, and its answer.
#[derive(Clone, Copy)]
pub struct Outcome<S> {
    pub state: S,
    pub answer: Answer,
}

// The number of a refusal, as C and the paper have it; 11 is none.
impl From<Refusal> for u8 {
    ghost from_gives = { λ r n. n ≡ number_of r };

    fn from(r: Refusal) -> u8 {
        match r {
            Refusal::Sizes => 1,
            Refusal::Misfit => 2,
            Refusal::LargeFrame => 3,
            Refusal::Busy => 4,
            Refusal::NotCarried => 5,
            Refusal::LargeValue => 6,
            Refusal::BitNotCarried => 7,
            Refusal::GoIsStop => 8,
            Refusal::Malformed => 9,
            Refusal::HeldLine => 10,
            Refusal::NotNext => 12,
            Refusal::LargeCommand => 13,
        }
    }
}

// What has the number of a refusal: a refusal of the paper's, or any number of a byte, for who holds a number and no `Refusal`.
pub trait Numbered {
    ghost refusal_number: { Self → ℕ };

    fn refusal_number(self) -> u8
        ensures { result ≡ refusal_number self };
}

impl Numbered for Refusal {
    ghost refusal_number = { number_of };

    fn refusal_number(self) -> u8 {
        u8::from(self)
    }
}

impl Numbered for u8 {
    ghost refusal_number = { λ n. n };

    fn refusal_number(self) -> u8 {
        self
    }
}

// The number that an answer or a refusal is: its kind above 16 bits of value. The kinds are C's, and a byte and a cell have the same one.
#[tactic(auto, unfolding(crate::specs::Answers::said, crate::specs::Word::word, crate::specs::Word::kind_of, crate::specs::Word::value_of),
// A frame is the number that its parts make.
using(crate::proofs::Word::whole_frame))]
fn number<R: Numbered>(a: Result<Answer, R>) -> u64
    ensures { (result ≡ word (said_as R.refusal_number a)) × (result < 16777216) }
{
    match a {
        Ok(Answer::Done) => 0,
        Ok(Answer::Nothing) => 65536,
        Ok(Answer::Byte(b)) => 131072 + u64::from(b),
        Ok(Answer::Frame(f)) => 196608 + u64::from(f),
        Err(r) => 262144 + u64::from(r.refusal_number()),
        Ok(Answer::Cell(c)) => 131072 + u64::from(c),
        Ok(Answer::Lines(n)) => 327680 + u64::from(n),
    }
}

// The number of an answer that tells no room.
pub fn word_of<R: Numbered>(a: Result<Answer, R>) -> u64
    ensures { result ≡ word (said_as R.refusal_number a) }
{
    number(a)
}

// The number of an answer that tells this room.
#[tactic(auto, unfolding(crate::specs::Word::word_with))]
pub fn word_with<R: Numbered>(a: Result<Answer, R>, room: u16) -> u64
    ensures { result ≡ word_with (said_as R.refusal_number a) room }
{
    4294967296 * u64::from(room) + number(a)
}
