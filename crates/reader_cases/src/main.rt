// Runs the reader's cases of document 01, one a line of standard input:
//
//     L label sheet name             accept, then all readings in order, the number that ends them, and what next answers after that
//     G label sheet name sequence    check and next on a given sequence
//     R label sheet name m w         accept, first, next and check with m bytes of mapping and w of work area
//
// Sheets, names and sequences are in hexadecimal, `-` for an empty one. Before every call the buffers are filled with rubbish, and after it
// they are looked at; what is not as document 01 says is printed as `untidy`.
#![tactic(auto)]

ghost use Rattle.std.specs.Prelude.{◌≡◌, ◌/◌, ◌≤◌, ◌<◌, length, min};

use console::{
    Failure, all_are, for_each_line, front, read_full, say, say_field, say_reading, status,
};
use reader::NameFault;
use std::io;
use std::io::{Read, Write};
use std::process::ExitCode;

// What a buffer holds before a call.
const RUBBISH: u8 = 0xa5;

// Bytes for a sheet, a name or a mapping.
const ROOM: usize = 4096;

// Bytes for the input, or for a work area.
const LARGE_ROOM: usize = 65536;

// The longest list.
const MOST: usize = 1000;

fn tidy<W: Write>(out: &mut W, well: bool) -> io::Result<()> {
    if !well {
        say(out, b" untidy")?;
    }
    Ok(())
}

// What a call answers: accepted, found or yes; not so; or why it is refused.
type Answer = Result<bool, NameFault>;

// The calls of the reader.
#[derive(Clone, Copy, PartialEq, Eq, Debug)]
enum Call {
    Accept,
    First,
    Next,
    Check,
}

// A buffer, of which so many bytes are lent to a call.
#[derive(Drop)]
struct Buffer<const N: usize> {
    bytes: [u8; N],
    lent: usize,
    ghost inside: { lent ≤ N },
}

impl<const N: usize> Buffer<N> {
    fn new() -> Self {
        Buffer {
            bytes: [0; N],
            lent: N,
        }
    }

    // Lends so many bytes, or all where there are fewer.
    fn lend(&mut self, size: usize) {
        self.lent = size.min(N);
    }

    fn as_slice(&self) -> &[u8] {
        &self.bytes[..self.lent]
    }

    fn as_mut_slice(&mut self) -> &mut [u8] {
        let lent = self.lent;
        let bytes = &mut self.bytes;
        &mut bytes[..lent]
    }
}

// The buffers that all cases share, each in its turn.
#[derive(Drop)]
struct Buffers {
    sheet: [u8; ROOM],
    name: [u8; ROOM],
    mapping: Buffer<ROOM>,
    work: Buffer<LARGE_ROOM>,
}

impl Buffers {
    fn new() -> Self {
        Buffers {
            sheet: [0; ROOM],
            name: [0; ROOM],
            mapping: Buffer::new(),
            work: Buffer::new(),
        }
    }

    // The question of a line, with all of both buffers lent.
    fn question(&mut self, line: &[u8]) -> Question<'_> {
        let Buffers {
            sheet,
            name,
            mapping,
            work,
        } = self;
        mapping.lend(ROOM);
        work.lend(LARGE_ROOM);
        Question {
            sheet: unhex(field(line, 2), sheet),
            name: unhex(field(line, 3), name),
            mapping,
            work,
        }
    }
}

// A sheet, a name, and the buffers that are lent to a call.
#[derive(Drop)]
struct Question<'a> {
    sheet: &'a [u8],
    name: &'a [u8],
    mapping: &'a mut Buffer<ROOM>,
    work: &'a mut Buffer<LARGE_ROOM>,
}

impl<'a> Question<'a> {
    // A call's answer, over a work area full of rubbish.
    fn ask(&mut self, call: Call) -> Answer {
        let (sheet, name) = (self.sheet, self.name);
        let mapping = self.mapping.as_mut_slice();
        let work = self.work.as_mut_slice();
        work.fill(RUBBISH);
        match call {
            Call::Accept => reader::accept(sheet, name, work),
            Call::First => reader::first(sheet, name, mapping, work),
            Call::Next => reader::next(sheet, name, mapping, work),
            Call::Check => reader::check(sheet, name, mapping, work),
        }
    }

    // After an answer that a search gave: the rows are zero and the rest of the area is as it was.
    fn tidy_area<W: Write>(&self, out: &mut W) -> io::Result<()> {
        if self.name.len() <= rules::NAME_LIMIT {
            let rows = rules::ROW_SIZE * (self.name.len() + 1);
            tidy(out, all_are(front(self.work.as_slice(), rows), 0, 0))?;
            tidy(out, all_are(self.work.as_slice(), rows, RUBBISH))?;
        }
        Ok(())
    }

    // Whether nothing stands after the entries of the mapping.
    fn ends_with_entries(&self) -> bool {
        let n = self.name.len();
        n <= rules::NAME_LIMIT && all_are(self.mapping.as_slice(), mapping::room(n), 0)
    }

    // First or next: a reading, the rest of the mapping wiped; or a number, all of it wiped.
    fn say_answer<W: Write>(&mut self, out: &mut W, call: Call) -> io::Result<Answer> {
        let answer = self.ask(call);
        self.tidy_area(out)?;
        if answer == Ok(true) {
            say(out, b" ")?;
            say_reading(out, self.mapping.as_slice(), self.name.len())?;
            tidy(out, self.ends_with_entries())?;
        } else {
            say_field(out, reader::number(answer))?;
            tidy(out, all_are(self.mapping.as_slice(), 0, 0))?;
        }
        Ok(answer)
    }

    // Check on what the mapping holds.
    fn check<W: Write>(&mut self, out: &mut W) -> io::Result<Answer> {
        let answer = self.ask(Call::Check);
        self.tidy_area(out)?;
        Ok(answer)
    }

    // Accept, then all readings in order, each checked, with the number that ends the list, and what next answers after that.
    fn list<W: Write>(&mut self, out: &mut W) -> io::Result<()> {
        say_field(out, reader::number(self.ask(Call::Accept)))?;
        self.tidy_area(out)?;
        say(out, b":")?;
        self.mapping.as_mut_slice().fill(RUBBISH);
        let mut answer = self.say_answer(out, Call::First)?;
        for _ in 0..MOST {
            if answer != Ok(true) {
                break;
            }
            let checked = self.check(out)?;
            tidy(out, checked == Ok(true))?;
            answer = self.say_answer(out, Call::Next)?;
        }
        let _ = self.say_answer(out, Call::Next)?;
        Ok(())
    }

    // Check and next on a given sequence, with rubbish after it.
    fn given<W: Write>(&mut self, out: &mut W, sequence: &[u8]) -> io::Result<()> {
        self.mapping.as_mut_slice().fill(RUBBISH);
        for (entry, byte) in self.mapping.as_mut_slice().iter_mut().zip(sequence) {
            *entry = *byte;
        }
        let checked = self.check(out)?;
        say_field(out, reader::number(checked))?;
        tidy(
            out,
            all_are(self.mapping.as_slice(), sequence.len(), RUBBISH),
        )?;
        let _ = self.say_answer(out, Call::Next)?;
        Ok(())
    }

    // Accept: the area stays where it is refused.
    fn say_accept<W: Write>(&mut self, out: &mut W) -> io::Result<()> {
        let answer = self.ask(Call::Accept);
        say_field(out, reader::number(answer))?;
        match answer {
            Ok(_) => self.tidy_area(out),
            Err(_) => tidy(out, all_are(self.work.as_slice(), 0, RUBBISH)),
        }
    }

    // A call that may not search: the area stays, and the mapping is full of what it is said to be left with.
    fn say_refused<W: Write>(&mut self, out: &mut W, call: Call, left: u8) -> io::Result<()> {
        self.mapping.as_mut_slice().fill(RUBBISH);
        say_field(out, reader::number(self.ask(call)))?;
        tidy(out, all_are(self.mapping.as_slice(), 0, left))?;
        tidy(out, all_are(self.work.as_slice(), 0, RUBBISH))
    }

    // All four calls: first and next wipe the mapping, check leaves it.
    fn ask_all<W: Write>(&mut self, out: &mut W) -> io::Result<()> {
        self.say_accept(out)?;
        self.say_refused(out, Call::First, 0)?;
        self.say_refused(out, Call::Next, 0)?;
        self.say_refused(out, Call::Check, RUBBISH)
    }
}

// Field k of a line, from 0.
fn field(line: &[u8], k: usize) -> &[u8] {
    line.split(|b| *b == b' ').nth(k).unwrap_or(b"")
}

// The value of a digit.
fn digit(b: u8) -> u8
    ensures { result < 16 }
{
    match b {
        b'0'..=b'9' => b - b'0',
        b'a'..=b'f' => b - b'a' + 10,
        _ => 0,
    }
}

// The bytes that hexadecimal digits stand for, as many as there is room for.
fn unhex<'a>(text: &[u8], room: &'a mut [u8]) -> &'a [u8]
    ensures { length result.now ≡ min (length text.now / 2) (length room.old) }
{
    for (byte, pair) in room.iter_mut().zip(text.chunks_exact(2)) {
        *byte = digit(pair[0]) * 16 + digit(pair[1]);
    }
    front(room, text.len() / 2)
}

// A number in decimal digits.
fn value(text: &[u8]) -> usize {
    text.iter().fold(0usize, |n, b| {
        n.saturating_mul(10).saturating_add(usize::from(digit(*b)))
    })
}

// One case.
fn case<W: Write>(out: &mut W, line: &[u8], buffers: &mut Buffers) -> io::Result<()> {
    say(out, field(line, 1))?;
    let mut question = buffers.question(line);
    match line.first() {
        None => {}
        Some(b'L') => question.list(out)?,
        Some(b'G') => {
            let mut room = [0u8; 8];
            question.given(out, unhex(field(line, 4), &mut room))?;
        }
        Some(_) => {
            question.mapping.lend(value(field(line, 4)));
            question.work.lend(value(field(line, 5)));
            question.ask_all(out)?;
        }
    }
    say(out, b"\n")
}

// All cases, over the same buffers.
fn run_all<W: Write>(out: &mut W, input: &[u8]) -> io::Result<()> {
    let mut buffers = Buffers::new();
    for_each_line(input, |line| case(out, line, &mut buffers))
}

fn read_and_run<R: Read, W: Write>(input: &mut R, out: &mut W) -> Result<(), Failure> {
    let mut all = [0u8; LARGE_ROOM];
    let n = read_full(input, &mut all).map_err(|_| Failure::Input)?;
    run_all(out, &all[..n]).map_err(|_| Failure::Output)
}

fn main(rt: HostRuntime) -> ExitCode {
    let done = read_and_run(&mut rt.stdin(), &mut rt.stdout());
    status(&mut rt.stderr(), done)
}
