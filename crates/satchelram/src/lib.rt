// The calls that answer with one packed number: packing, and nothing else. The crate satchelram_c exports them to C.
#![tactic(auto)]

ghost use Rattle.std.specs.Prelude.{◌≡◌, [], ◌<◌};
ghost use Rattle.text.specs.Outcome.{SheetCall};
ghost use Rattle.reader.specs.Answer.{number_of};
ghost use Rattle.reader.specs.Outcome.{AcceptCall, FirstCall, NextCall, CheckCall};
ghost use Rattle.satchelram.specs.Packing.{packed, number_room, second_room};
ghost use Rattle.satchelram.specs.Exported.{sheet_end_in, end_in, Exports};
ghost use Rattle.satchelram.specs.Version.{version};

use reader::NameFault;

// Room for the number, and for the second after it (docs/PACKING.md).
pub const NUMBER_ROOM: u64 = 256;

pub const SECOND_ROOM: u64 = 16777216;

fn pack(number: u64, second: u64) -> u64
    requires { (number < number_room) × (second < second_room) }
    ensures { result ≡ packed number second 0 }
{
    number + NUMBER_ROOM * second
}

// What a name call answers, packed; its second number is 0.
fn pack_answer(answer: Result<bool, NameFault>) -> u64
    ensures { result ≡ packed (number_of answer) 0 0 }
{
    pack(reader::number(answer), 0)
}

// Makes a sheet of an expression text: 0 with the sheet's length, or a refusal with its place.
pub fn satchelram_sheet(text: &[u8], sheet: &mut [u8]) -> u64
    ensures { Exports (SheetCall text.now sheet.old (sheet_end_in result sheet.new)) result }
{
    match sheet_call::make(text, sheet) {
        Ok(length) => pack(rules::DONE, length as u64),
        Err(f) => pack(f.fault.number(), f.place as u64),
    }
}

// Whether a name is in a sheet's language.
pub fn satchelram_accept(sheet: &[u8], name: &[u8], work: &mut [u8]) -> u64
    ensures { Exports (AcceptCall sheet.now name.now work.old (end_in result [] work.new)) result }
{
    pack_answer(reader::accept(sheet, name, work))
}

// The first reading of a name.
pub fn satchelram_first(sheet: &[u8], name: &[u8], mapping: &mut [u8], work: &mut [u8]) -> u64
    ensures { Exports (FirstCall sheet.now name.now mapping.old work.old (end_in result mapping.new work.new)) result }
{
    pack_answer(reader::first(sheet, name, mapping, work))
}

// The next reading after the one that the mapping holds.
pub fn satchelram_next(sheet: &[u8], name: &[u8], mapping: &mut [u8], work: &mut [u8]) -> u64
    ensures { Exports (NextCall sheet.now name.now mapping.old work.old (end_in result mapping.new work.new)) result }
{
    pack_answer(reader::next(sheet, name, mapping, work))
}

// Whether the sequence that the mapping holds is a reading.
pub fn satchelram_check(sheet: &[u8], name: &[u8], mapping: &[u8], work: &mut [u8]) -> u64
    ensures { Exports (CheckCall sheet.now name.now mapping.now work.old (end_in result mapping.now work.new)) result }
{
    pack_answer(reader::check(sheet, name, mapping, work))
}

// The version of this library, to be compared with the header's.
pub fn satchelram_version() -> u64
    ensures { result ≡ version }
{
    1000
}
