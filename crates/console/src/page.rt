// What is put goes onto a page. A full page is written and begun again, and a program ends with `close`, so that output goes out in pieces as long
// as the page. After a write that failed nothing more is written: whatever is put then fails as well.
ghost use Rattle.std.specs.Prelude.{◌≡◌, ◌∷◌, [], ◌<◌, ◌≤◌, length, decimal, IfOk, OnOk, OnErr, IsErr, IsNone, IfSome};
ghost use Rattle.std.specs.Io.KnownBytes.{Appends, Keeps};
ghost use Rattle.std.proofs.Props.{props};
ghost use Rattle.console.specs.Reading.{entry_or_none, first_entries, entry_shown, shown};

use itoa::Buffer;
use mapping::Place;
use std::io;
use std::io::Write;

// A writer, a page in front of it, and how much of the page is taken; `None` after a write that failed.
#[derive(Drop)]
pub struct Page<'a, W, const N: usize> {
    out: &'a mut W,
    bytes: [u8; N],
    taken: Option<usize>,
    ghost inside: { IfSome taken (λ n. n ≤ N) } by { Prim.hlevel props },
}

impl<'a, W: Write, const N: usize> Page<'a, W, N> {
    ghost use Rattle.console.specs.Page.{told, PutsOrLoses};

    pub fn new(out: &'a mut W) -> Self
        ensures same { result.out.ghost_name ≡ out.entry.ghost_name }
        ensures told { told W.contents result ≡ W.contents out.old }
    {
        Page {
            out,
            bytes: [0; N],
            taken: Some(0),
        }
    }

    // Writes what is taken of the page, which then is begun again.
    fn write(&mut self) -> io::Result<()>
        ensures same { self.new.out.ghost_name ≡ self.old.out.ghost_name }
        ensures again { OnOk result (self.new.taken ≡ Some 0) }
        ensures written { OnOk result (Keeps (told W.contents self.old) (W.contents self.new.out.now)) }
        ensures lost { OnErr result (IsNone self.new.taken) }
        ensures refused { IsNone self.old.taken → IsErr result × (self.new.out.now ≡ self.old.out.now) }
    {
        let Some(end) = self.taken.take() else {
            return Err(io::Error::other("a write before this one failed"));
        };
        self.out.write_all(&self.bytes[..end])?;
        self.taken = Some(0);
        Ok(())
    }

    // The place for the next byte, after a full page is written.
    fn place(&mut self) -> io::Result<usize>
        ensures place { IfOk result (λ n. (self.new.taken ≡ Some n) × (0 < N → n < N)) }
        ensures puts { PutsOrLoses W.contents self.old self.new result [] }
    {
        match self.taken {
            Some(n) if n < N => Ok(n),
            _ => {
                self.write()?;
                Ok(0)
            }
        }
    }

    fn put_byte(&mut self, byte: u8) -> io::Result<()>
        ensures { PutsOrLoses W.contents self.old self.new result (byte ∷ []) }
    {
        let place = self.place()?;
        if place < N {
            self.bytes[place] = byte;
            self.taken = Some(place + 1);
        }
        Ok(())
    }

    pub fn put(&mut self, bytes: &[u8]) -> io::Result<()>
        ensures { PutsOrLoses W.contents self.old self.new result bytes.now }
    {
        for byte in bytes {
            self.put_byte(*byte)?;
        }
        Ok(())
    }

    pub fn put_number(&mut self, n: u64) -> io::Result<()>
        ensures { PutsOrLoses W.contents self.old self.new result (decimal n) }
    {
        let mut digits = Buffer::new();
        self.put(digits.format(n).as_bytes())
    }

    // An entry, with a comma before it unless it is the first.
    fn put_entry(&mut self, mapping: &[u8], i: usize) -> io::Result<()>
        ensures { PutsOrLoses W.contents self.old self.new result (entry_shown i mapping.now) }
    {
        if 0 < i {
            self.put(b",")?;
        }
        self.put_number(entry_at(mapping, i))
    }

    // A reading of n entries, with commas between them; `-` for none.
    #[tactic(auto, using(crate::proofs::Reading::listed_more, crate::proofs::Reading::shown_some))]
    pub fn put_reading(&mut self, mapping: &[u8], n: usize) -> io::Result<()>
        ensures { PutsOrLoses W.contents self.old self.new result (shown (first_entries n mapping.now)) }
    {
        if n == 0 {
            return self.put(b"-");
        }
        for i in 0..n {
            self.put_entry(mapping, i)?;
        }
        Ok(())
    }

    // Writes what is left of the page: a program's last word.
    pub fn close(&mut self) -> io::Result<()>
        ensures same { self.new.out.ghost_name ≡ self.old.out.ghost_name }
        ensures written { OnOk result (Keeps (told W.contents self.old) (W.contents self.new.out.now)) }
        ensures refused { IsNone self.old.taken → IsErr result × (self.new.out.now ≡ self.old.out.now) }
    {
        self.write()?;
        self.out.flush()
    }
}

// The entry for a place of a name, or 0 where the mapping has none.
#[tactic(auto, using(mapping::proofs::Entries::not_held))]
fn entry_at(mapping: &[u8], i: usize) -> u64
    ensures { result ≡ entry_or_none mapping.now i }
{
    if i < rules::NAME_LIMIT && mapping::holds(mapping.len(), i + 1) {
        mapping::entry(mapping, Place(i)).0 as u64
    } else {
        0
    }
}
