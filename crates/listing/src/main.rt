// The listing program of document 01: an expression and a name on two lines, every reading of the name in order.
// It stands on the calls that satchelram_c exports, and has no promise of its own but to be safe and to end.
#![tactic(auto)]

ghost use Rattle.std.specs.Prelude.{◌≡◌, ◌≤◌};
ghost use Rattle.satchelram.specs.Packing.{number_in, second_in};

use console::{Failure, Page, front, status};
use std::io;
use std::io::{Read, Write};
use std::process::ExitCode;

// One more byte than a text or a name may have, so that a longer line is still too long.
const TEXT_ROOM: usize = rules::TEXT_LIMIT + 1;

const NAME_ROOM: usize = rules::NAME_LIMIT + 1;

const WORK_ROOM: usize = rules::ROW_SIZE * (rules::NAME_LIMIT + 1);

// How many readings are listed.
const MOST: u64 = 1000;

// Bytes written at once.
const PAGE: usize = 8192;

// Bytes read at once.
const CHUNK: usize = 4096;

// Reads of the input at most, so that the program ends.
const TURNS: u64 = 1 << 50;

// A line of the input, or as much of it as there is room for.
#[derive(Drop)]
struct Line<const N: usize> {
    bytes: [u8; N],
    length: usize,
    ghost inside: { length ≤ N },
}

impl<const N: usize> Line<N> {
    fn new() -> Self {
        Line {
            bytes: [0; N],
            length: 0,
        }
    }

    // Keeps a byte where there is room.
    fn push(&mut self, byte: u8) {
        if self.length < N {
            self.bytes[self.length] = byte;
            self.length += 1;
        }
    }

    fn as_slice(&self) -> &[u8] {
        &self.bytes[..self.length]
    }
}

// Where the input stands: in its first line, in its second, or past both.
#[derive(Clone, Copy, PartialEq, Eq, Debug)]
enum Standing {
    First,
    Second,
    Over,
}

// Both lines, and where the input stands.
#[derive(Drop)]
struct Lines {
    text: Line<TEXT_ROOM>,
    name: Line<NAME_ROOM>,
    standing: Standing,
}

impl Lines {
    fn new() -> Self {
        Lines {
            text: Line::new(),
            name: Line::new(),
            standing: Standing::First,
        }
    }

    // One byte of input. A third line and what follows are ignored.
    fn take(&mut self, byte: u8) {
        match (self.standing, byte) {
            (Standing::First, b'\n') => self.standing = Standing::Second,
            (Standing::First, _) => self.text.push(byte),
            (Standing::Second, b'\n') => self.standing = Standing::Over,
            (Standing::Second, _) => self.name.push(byte),
            (Standing::Over, _) => {}
        }
    }

    // One read. At the end of the input both lines are over.
    fn read_some<R: Read>(&mut self, input: &mut R) -> io::Result<()> {
        let mut chunk = [0u8; CHUNK];
        let n = input.read(&mut chunk)?;
        if n == 0 {
            self.standing = Standing::Over;
        }
        for byte in &chunk[..n] {
            self.take(*byte);
        }
        Ok(())
    }

    fn read<R: Read>(&mut self, input: &mut R) -> io::Result<()> {
        for _ in 0..TURNS {
            self.read_some(input)?;
            if self.standing == Standing::Over {
                break;
            }
        }
        Ok(())
    }
}

// What a call answered, taken apart: a number, and a second one.
#[derive(Clone, Copy)]
struct Answer {
    number: u64,
    second: u64,
}

impl Answer {
    fn of(packed: u64) -> Self
        ensures { (result.number ≡ number_in packed) × (result.second ≡ second_in packed) }
    {
        Answer {
            number: packed % satchelram::NUMBER_ROOM,
            second: packed / satchelram::NUMBER_ROOM % satchelram::SECOND_ROOM,
        }
    }

    // Of the sheet call: the sheet's length, or the refusal's number and place.
    fn size(self) -> Result<usize, Answer> {
        match self.number {
            rules::DONE => Ok(self.second as usize),
            _ => Err(self),
        }
    }

    // Of a name call: whether there is a reading, or the refusal's number.
    fn found(self) -> Result<bool, u64> {
        match self.number {
            rules::DONE => Ok(true),
            rules::NO => Ok(false),
            number => Err(number),
        }
    }
}

// The readings of a name: a sheet, the name, and the buffers that the reader works in.
#[derive(Drop)]
struct Readings<'a> {
    sheet: &'a [u8],
    name: &'a [u8],
    mapping: [u8; mapping::MOST],
    work: [u8; WORK_ROOM],
}

impl<'a> Readings<'a> {
    fn new(sheet: &'a [u8], name: &'a [u8]) -> Self {
        Readings {
            sheet,
            name,
            mapping: [0; mapping::MOST],
            work: [0; WORK_ROOM],
        }
    }

    fn first(&mut self) -> Result<bool, u64> {
        let (mapping, work) = (&mut self.mapping, &mut self.work);
        let answer = satchelram::satchelram_first(self.sheet, self.name, mapping, work);
        Answer::of(answer).found()
    }

    fn next(&mut self) -> Result<bool, u64> {
        let (mapping, work) = (&mut self.mapping, &mut self.work);
        let answer = satchelram::satchelram_next(self.sheet, self.name, mapping, work);
        Answer::of(answer).found()
    }

    // The reading that the mapping holds, on a line of its own.
    fn put<W: Write>(&self, page: &mut Page<W, PAGE>) -> io::Result<()> {
        page.put_reading(&self.mapping, self.name.len())?;
        page.put(b"\n")
    }

    // The readings that follow the one that the mapping holds, and how the list ends.
    fn list_on<W: Write>(&mut self, page: &mut Page<W, PAGE>) -> io::Result<()> {
        for count in 1..MOST {
            match self.next() {
                Ok(true) => self.put(page)?,
                _ => return put_end(page, count),
            }
        }
        match self.next() {
            Ok(true) => page.put(b"more\n"),
            _ => put_end(page, MOST),
        }
    }

    fn list<W: Write>(&mut self, page: &mut Page<W, PAGE>) -> io::Result<()> {
        put_counts(page, self.sheet)?;
        match self.first() {
            Ok(true) => {
                self.put(page)?;
                self.list_on(page)
            }
            Ok(false) => put_end(page, 0),
            Err(number) => {
                put_refused(page, number)?;
                page.put(b"\n")
            }
        }
    }
}

fn put_counts<W: Write>(page: &mut Page<W, PAGE>, sheet: &[u8]) -> io::Result<()> {
    page.put(b"leaves ")?;
    page.put_number(sheet::leaf_count(sheet) as u64)?;
    page.put(b" nodes ")?;
    page.put_number(sheet::nodes(sheet).len() as u64)?;
    page.put(b"\n")
}

fn put_end<W: Write>(page: &mut Page<W, PAGE>, count: u64) -> io::Result<()> {
    page.put(b"end ")?;
    page.put_number(count)?;
    page.put(b"\n")
}

fn put_refused<W: Write>(page: &mut Page<W, PAGE>, number: u64) -> io::Result<()> {
    page.put(b"refused ")?;
    page.put_number(number)
}

fn list<W: Write>(page: &mut Page<W, PAGE>, text: &[u8], name: &[u8]) -> io::Result<()> {
    let mut sheet = [0u8; sheet::LONGEST];
    match Answer::of(satchelram::satchelram_sheet(text, &mut sheet)).size() {
        Ok(size) => Readings::new(front(&sheet, size), name).list(page),
        Err(refusal) => {
            put_refused(page, refusal.number)?;
            page.put(b" at ")?;
            page.put_number(refusal.second)?;
            page.put(b"\n")
        }
    }
}

// Lists onto a page, and writes it.
fn list_to<W: Write>(out: &mut W, text: &[u8], name: &[u8]) -> io::Result<()> {
    let mut page = Page::new(out);
    list(&mut page, text, name)?;
    page.close()
}

fn read_and_list<R: Read, W: Write>(input: &mut R, out: &mut W) -> Result<(), Failure> {
    let mut lines = Lines::new();
    lines.read(input).map_err(|_| Failure::Input)?;
    list_to(out, lines.text.as_slice(), lines.name.as_slice()).map_err(|_| Failure::Output)
}

fn main(rt: HostRuntime) -> ExitCode {
    let done = read_and_list(&mut rt.stdin(), &mut rt.stdout());
    status(&mut rt.stderr(), done)
}
