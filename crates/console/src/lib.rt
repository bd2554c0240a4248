// What the programs share: reading standard input, writing to standard output, and looking through bytes.
#![tactic(auto)]

ghost use Rattle.std.specs.Prelude.{◌≡◌, ◌∷◌, ◌↔◌, All, IsTrue, decimal, drop, take, OnOk};
ghost use Rattle.std.specs.Io.{ReadsAtMost};
ghost use Rattle.std.specs.Io.KnownBytes.{Appends};
ghost use Rattle.console.specs.Lines.{lines, DoneOn};
ghost use Rattle.console.specs.Reading.{first_entries, shown};

mod page;

pub use page::Page;
use std::io;
use std::io::{Read, Write};
use std::process::ExitCode;

// What a program could not do.
#[derive(Clone, Copy, PartialEq, Eq, Debug)]
pub enum Failure {
    Input,
    Output,
}

impl Failure {
    fn message(self) -> &'static [u8] {
        match self {
            Failure::Input => b"failed: standard input cannot be read\n",
            Failure::Output => b"failed: standard output cannot be written\n",
        }
    }
}

// The status that a program ends with. What it could not do it says on standard error first; if that fails too, there is nowhere left to say so.
pub fn status<E: Write>(errors: &mut E, done: Result<(), Failure>) -> ExitCode {
    match done {
        Ok(()) => ExitCode::SUCCESS,
        Err(failure) => {
            let _ = errors.write_all(failure.message());
            ExitCode::FAILURE
        }
    }
}

// Reads until the buffer is full or the input is over; gives how many bytes it put at the buffer's start.
pub fn read_full<R: Read>(input: &mut R, buffer: &mut [u8]) -> io::Result<usize>
    ensures { ReadsAtMost result buffer.new }
{
    let mut done = 0;
    while done < buffer.len() {
        let n = input.read(&mut buffer[done..])?;
        if n == 0 {
            break;
        }
        done += n;
    }
    Ok(done)
}

// Calls f on each line of an input, without its line feed, until one fails.
pub fn for_each_line<F: FnMut(&[u8]) -> io::Result<()>>(input: &[u8], f: F) -> io::Result<()>
    requires { F.IsAlwaysCallable f }
    ensures { OnOk result (DoneOn F.FnMut f (lines input.now)) }
{
    if input.is_empty() {
        return Ok(());
    }
    let lines = input.strip_suffix(b"\n").unwrap_or(input);
    lines.split(|b| *b == b'\n').try_for_each(f)
}

// Without a page: written at once.
pub fn say<W: Write>(out: &mut W, bytes: &[u8]) -> io::Result<()>
    ensures { OnOk result (Appends (W.contents out.old) (W.contents out.new) bytes.now) }
{
    out.write_all(bytes)
}

// A number as the next field of a line.
pub fn say_field<W: Write>(out: &mut W, n: u64) -> io::Result<()>
    ensures { OnOk result (Appends (W.contents out.old) (W.contents out.new) (32 ∷ decimal n)) }
{
    write!(out, " {n}")
}

// A reading of n entries, on a page of its own.
pub fn say_reading<W: Write>(out: &mut W, mapping: &[u8], n: usize) -> io::Result<()>
    ensures { OnOk result (Appends (W.contents out.old) (W.contents out.new) (shown (first_entries n mapping.now))) }
{
    let mut page = Page::<W, 1024>::new(out);
    page.put_reading(mapping, n)?;
    page.close()
}

// The first n of some bytes, or all of them where they are fewer.
pub fn front(bytes: &[u8], n: usize) -> &[u8]
    ensures { result.now ≡ take n bytes.now }
{
    bytes.get(..n).unwrap_or(bytes)
}

// Whether all bytes from a place on are the given one.
pub fn all_are(bytes: &[u8], from: usize, byte: u8) -> bool
    ensures { IsTrue result ↔ All (λ b. b ≡ byte) (drop from bytes.now) }
{
    let rest = bytes.get(from..).unwrap_or(b"");
    rest.iter().all(|b| *b == byte)
}
