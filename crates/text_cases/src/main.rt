// Runs the sheet call on each line of standard input, over buffers full of rubbish: every text case of document 01 and of the points decided.
// It prints the front of the text, the number and the second number; a short sheet's bytes; and `not wiped` where a byte after the sheet is left.
#![tactic(auto)]

ghost use Rattle.std.specs.Prelude.{◌≤◌};

use console::{Failure, all_are, for_each_line, front, read_full, say, say_field, status};
use std::io;
use std::io::{Read, Write};
use std::process::ExitCode;

const SHOWN: usize = 24;

// Bytes for a sheet of any case.
const ROOM: usize = 400;

fn dump<W: Write>(out: &mut W, bytes: &[u8]) -> io::Result<()> {
    for byte in bytes {
        write!(out, " {byte:02x}")?;
    }
    Ok(())
}

fn finish<W: Write>(out: &mut W, buffer: &[u8], from: usize) -> io::Result<()> {
    if !all_are(buffer, from, 0) {
        say(out, b" not wiped")?;
    }
    say(out, b"\n")
}

fn made<W: Write>(out: &mut W, sheet: &[u8], n: usize) -> io::Result<()> {
    say_field(out, 0)?;
    say_field(out, n as u64)?;
    if n <= SHOWN {
        say(out, b":")?;
        dump(out, front(sheet, n))?;
    }
    finish(out, sheet, n)
}

// A text, and a buffer of N bytes for its sheet.
fn case<W: Write, const N: usize>(out: &mut W, text: &[u8]) -> io::Result<()>
    requires { N ≤ ROOM }
{
    let mut sheet = [0xaau8; N];
    say(out, front(text, SHOWN))?;
    match sheet_call::make(text, &mut sheet) {
        Ok(n) => made(out, &sheet, n),
        Err(refusal) => {
            say_field(out, refusal.fault.number())?;
            say_field(out, refusal.place as u64)?;
            finish(out, &sheet, 0)
        }
    }
}

// 18 comes after all else.
fn buffers<W: Write>(out: &mut W) -> io::Result<()> {
    case::<W, 11>(out, b"(a|(ba))*")?;
    case::<W, 12>(out, b"(a|(ba))*")?;
    case::<W, 0>(out, b"a")?;
    case::<W, 0>(out, b"a{0,65}")
}

// All cases.
fn run_all<W: Write>(out: &mut W, input: &[u8]) -> io::Result<()> {
    for_each_line(input, |line| case::<W, ROOM>(out, line))?;
    buffers(out)
}

fn read_and_run<R: Read, W: Write>(input: &mut R, out: &mut W) -> Result<(), Failure> {
    let mut all = [0u8; 8192];
    let n = read_full(input, &mut all).map_err(|_| Failure::Input)?;
    run_all(out, &all[..n]).map_err(|_| Failure::Output)
}

fn main(rt: HostRuntime) -> ExitCode {
    let done = read_and_run(&mut rt.stdin(), &mut rt.stdout());
    status(&mut rt.stderr(), done)
}
