//! Plays a script of calls over the proved bridge: each line of it is printed, and behind it what the call answers. The script is the
//! file stdin: the paper's examples that are run, and the slips that we have seen.
#![tactic(auto)]

ghost use Rattle.std.specs.Prelude.{◌≤◌, ◌<◌, length, IfOk};

use answers::{Answer, Refusal};
use state::{Outcome, State};
use std::io::Input;
use std::{fmt, io};

// A frame as the paper writes it: control,data.
#[derive(Clone, Copy)]
struct Frame(u16);

impl fmt::Display for Frame {
    fn fmt<W: fmt::Write>(&self, f: &mut fmt::Formatter<W>) -> fmt::Result {
        let control = frame::control(self.0);
        let data = frame::data_byte(self.0);
        write!(f, "{control},{data}")
    }
}

// What a call answered, or the refusal's number.
#[derive(Clone, Copy)]
struct Reply(Result<Answer, Refusal>);

impl fmt::Display for Reply {
    fn fmt<W: fmt::Write>(&self, f: &mut fmt::Formatter<W>) -> fmt::Result {
        match self.0 {
            Ok(Answer::Done) => write!(f, "done"),
            Ok(Answer::Nothing) => write!(f, "none"),
            Ok(Answer::Byte(b)) => write!(f, "byte {b}"),
            Ok(Answer::Frame(w)) => {
                let frame = Frame(w);
                write!(f, "frame {frame}")
            }
            Ok(Answer::Cell(c)) => write!(f, "cell {c}"),
            Ok(Answer::Lines(n)) => write!(f, "lines {n}"),
            Err(refusal) => {
                let n = u8::from(refusal);
                write!(f, "refused {n}")
            }
        }
    }
}

// The state, after a reply that is printed.
fn replied(rt: &impl Print, s: State, reply: Result<Answer, Refusal>) -> io::Result<State> {
    let reply = Reply(reply);
    print!(rt; ": {reply}")?;
    Ok(s)
}

// The state after a call whose answer is printed; a refusal leaves the one that is given here.
fn answered(rt: &impl Print, was: State, call: Result<Outcome, Refusal>) -> io::Result<State> {
    match call {
        Ok(o) => replied(rt, o.state, Ok(o.answer)),
        Err(refusal) => replied(rt, was, Err(refusal)),
    }
}

// The number that digits write, in 16 bits.
fn number(digits: &[u8]) -> u16 {
    let mut value = 0u16;
    for &digit in digits {
        value = value
            .wrapping_mul(10)
            .wrapping_add(u16::from(digit.wrapping_sub(b'0')));
    }
    value
}

// The k-th number of a line, from 0; 0 where there is none.
fn number_in(line: &[u8], k: usize) -> u16 {
    line.split(|b| !b.is_ascii_digit())
        .filter(|digits| !digits.is_empty())
        .nth(k)
        .map_or(0, |digits| number(digits))
}

// The first line of a script, and what stands behind its end.
fn first_line(script: &[u8]) -> (&[u8], &[u8])
    requires { 0 < length script.now }
    ensures { length result.1.now < length script.now }
{
    match script.iter().position(|&b| b == b'\n') {
        Some(end) => (&script[..end], &script[end + 1..]),
        None => (script, &script[..0]),
    }
}

// The state after the call of a line, by the first letter of the line: c, r, l, b, n, t, f, a; any other line is a title.
// Kept: a script names a call by its letter. Both stores are lent at every call.
fn called(
    rt: &impl Print,
    s: State,
    rx: &mut [u16],
    tx: &mut [u8],
    line: &[u8],
) -> io::Result<State> {
    let a = number_in(line, 0);
    let b = number_in(line, 1);
    let byte = (a % 256) as u8;
    let (first, second) = (u32::from(a), u32::from(b));
    match line.first() {
        Some(b'c') => {
            let margin = usize::from(a);
            let unmade = state::fitting::start(margin, rx.len(), tx.len());
            answered(rt, unmade, bridge::create(rx, tx, margin))
        }
        Some(b'r') => answered(rt, s, bridge::write_register(s, rx, tx, first, second)),
        Some(b'l') => answered(
            rt,
            s,
            bridge::line_byte(s, rx, tx, byte).map(|told| told.outcome),
        ),
        Some(b'b') => answered(rt, s, bridge::take_break(s, rx, tx)),
        Some(b'n') => replied(rt, s, bridge::ask_line_byte(s, rx, tx)),
        Some(b't') => answered(rt, s, bridge::take_line_byte(s, rx, tx, byte)),
        Some(b'f') => {
            let frame = first * 256 + second;
            answered(
                rt,
                s,
                bridge::loop_frame(s, rx, tx, frame).map(|told| told.outcome),
            )
        }
        Some(b'a') => answered(
            rt,
            s,
            bridge::loop_frame(s, rx, tx, first).map(|told| told.outcome),
        ),
        _ => Ok(s),
    }
}

// How many cells or bytes a store shows, by its name in the line: `show receive` or `show transmit`.
fn shown(s: State, rx: &[u16], tx: &[u8], line: &[u8]) -> usize {
    match line.get(5) {
        Some(b'r') => bridge::show_receive(s, rx, tx).len(),
        _ => bridge::show_transmit(s, rx, tx).len(),
    }
}

// A line of the script: its call, or how many cells or bytes a store shows.
fn played(
    rt: &impl Print,
    s: State,
    rx: &mut [u16],
    tx: &mut [u8],
    line: &[u8],
) -> io::Result<State> {
    rt.write_all(line)?;
    if line.starts_with(b"s") {
        let count = shown(s, rx, tx, line);
        println!(rt; ": {count}")?;
        return Ok(s);
    }
    let t = called(rt, s, rx, tx, line)?;
    println!(rt)?;
    Ok(t)
}

// Plays the lines of a script up to an empty line or its end, on these stores; gives what stands behind.
fn play<'a>(
    rt: &impl Print,
    script: &'a [u8],
    rx: &mut [u16],
    tx: &mut [u8],
) -> io::Result<&'a [u8]>
    ensures { IfOk result (λ behind. length behind.now ≤ length script.now) }
{
    let mut s = state::fitting::start(1, 4, 3);
    let mut rest = script;
    while !rest.is_empty() {
        let (line, behind) = first_line(rest);
        rest = behind;
        s = played(rt, s, rx, tx, line)?;
        if line.is_empty() {
            break;
        }
    }
    Ok(rest)
}

fn main(rt: HostRuntime) -> io::Result<()> {
    let mut input = [0u8; 8192];
    let n = streams::read_full(&mut rt.reader(), &mut input)?;
    let mut seven = [0u16; 7];
    let mut eight = [0u16; 8];
    let mut four = [0u16; 4];
    let mut tx = [0u8; 3];
    let second = play(&rt, &input[..n], &mut seven, &mut tx)?;
    let third = play(&rt, second, &mut eight, &mut tx)?;
    play(&rt, third, &mut four, &mut tx)?;
    Ok(())
}
