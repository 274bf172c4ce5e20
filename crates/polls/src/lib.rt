//! Parallel polls: how a device is set to answer one, and its answer, on the loop and on the bus alike.
#![tactic(auto)]

ghost use Rattle.std.specs.Prelude.{◌≡◌, ◌<◌, ◌^◌};
ghost use Rattle.polls.specs.Polls.{no_response, loop_response, bus_response, answers, answer_bits, joined, fit_test};

// on: it answers at all. line: on which of the eight, 0 to 7. sense: it answers while service is requested, or while it is not.
// Kept: line and sense stand beside on, since a packed state keeps them while on is false, and a line above 7 is refused there too.
#[derive(Clone, Copy, Default)]
pub struct Response {
    pub on: bool,
    pub line: u8,
    pub sense: bool,
}

// No answer to any poll.
pub fn none() -> Response
    ensures { result ≡ no_response }
{
    Response::default()
}

// What the loop's enable message with the data byte d sets, d from 128 to 143.
// Kept beside of_bus: the two codes differ in where the sense is.
pub fn of_loop(d: u8) -> Response
    ensures { result ≡ loop_response d }
{
    Response {
        on: true,
        line: d % 8,
        sense: d / 8 % 2 == 1,
    }
}

// What the bus's secondary command c sets, c from 96 to 111.
pub fn of_bus(c: u8) -> Response
    ensures { result ≡ bus_response c }
{
    Response {
        on: true,
        line: c % 8,
        sense: true,
    }
}

// Whether the response is one of the eight lines.
pub fn response_fits(p: Response) -> bool
    ensures { result ≡ fit_test p }
{
    p.line < 8
}

// The weight of a line's bit.
// Kept: the line is asked to be below 8, here and by whoever answers a poll, since for any other line the promised bit is in no byte.
fn weight(line: u8) -> u8
    requires { line < 8 }
    ensures { result ≡ 2 ^ line }
{
    1 << line
}

// The bits that answer a poll while service is requested, or while it is not.
#[tactic(auto, unfolding(crate::specs::Polls::answer_bits))]
pub fn answer(p: Response, requested: bool) -> u8
    requires { p.line < 8 }
    ensures { result ≡ answer_bits p requested }
{
    if p.on & (p.sense == requested) {
        weight(p.line)
    } else {
        0
    }
}

// The data byte d of an identify frame with the answer joined to it.
#[tactic(auto, using(crate::proofs::Bits::joined_met))]
pub fn join(p: Response, requested: bool, d: u8) -> u8
    requires { p.line < 8 }
    ensures { result ≡ joined p requested d }
{
    d | answer(p, requested)
}
