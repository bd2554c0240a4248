// The exports to C: each calls the function of its name in satchelram, and states its clauses again. include/satchelram.h declares them.
#![tactic(auto)]

ghost use Rattle.std.specs.Prelude.{◌≡◌, []};
ghost use Rattle.text.specs.Outcome.{SheetCall};
ghost use Rattle.reader.specs.Outcome.{AcceptCall, FirstCall, NextCall, CheckCall};
ghost use Rattle.satchelram.specs.Exported.{sheet_end_in, end_in, Exports};
ghost use Rattle.satchelram.specs.Version.{version};

#[unsafe(no_mangle)]
pub extern "C" fn satchelram_sheet(text: &[u8], sheet: &mut [u8]) -> u64
    ensures { Exports (SheetCall text.now sheet.old (sheet_end_in result sheet.new)) result }
{
    satchelram::satchelram_sheet(text, sheet)
}

#[unsafe(no_mangle)]
pub extern "C" fn satchelram_accept(sheet: &[u8], name: &[u8], work: &mut [u8]) -> u64
    ensures { Exports (AcceptCall sheet.now name.now work.old (end_in result [] work.new)) result }
{
    satchelram::satchelram_accept(sheet, name, work)
}

#[unsafe(no_mangle)]
pub extern "C" fn satchelram_first(
    sheet: &[u8],
    name: &[u8],
    mapping: &mut [u8],
    work: &mut [u8],
) -> u64
    ensures { Exports (FirstCall sheet.now name.now mapping.old work.old (end_in result mapping.new work.new)) result }
{
    satchelram::satchelram_first(sheet, name, mapping, work)
}

#[unsafe(no_mangle)]
pub extern "C" fn satchelram_next(
    sheet: &[u8],
    name: &[u8],
    mapping: &mut [u8],
    work: &mut [u8],
) -> u64
    ensures { Exports (NextCall sheet.now name.now mapping.old work.old (end_in result mapping.new work.new)) result }
{
    satchelram::satchelram_next(sheet, name, mapping, work)
}

#[unsafe(no_mangle)]
pub extern "C" fn satchelram_check(
    sheet: &[u8],
    name: &[u8],
    mapping: &[u8],
    work: &mut [u8],
) -> u64
    ensures { Exports (CheckCall sheet.now name.now mapping.now work.old (end_in result mapping.now work.new)) result }
{
    satchelram::satchelram_check(sheet, name, mapping, work)
}

#[unsafe(no_mangle)]
pub extern "C" fn satchelram_version() -> u64
    ensures { result ≡ version }
{
    satchelram::satchelram_version()
}
