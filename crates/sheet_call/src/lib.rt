// The sheet call: refusals in their order, or the sheet; zeros elsewhere.
#![tactic(auto)]

ghost use Rattle.std.specs.Prelude.{◌≡◌, MatchResult, Ok, Err};
ghost use Rattle.std.proofs.Math.Option.{some};
ghost use Rattle.rules.specs.Limits.{wiped};
ghost use Rattle.text.specs.Reads.{Whole};
ghost use Rattle.text.specs.Refusals.{text_refusal};
ghost use Rattle.text.specs.Outcome.{SheetCall};
ghost use Rattle.sheet_call.specs.Answer.{sheet_end, SheetTried};

use buffers::wipe_all;
use lexer::Text;
use rules::{LEAF_LIMIT, NODE_LIMIT, Refusal, TEXT_LIMIT, TextFault, refused_at};
use sheet::{length_for, write};
use text::{Draft, read_text};

// Reads a text. 11 and 19 anywhere come before 12 to 15 anywhere; a text that the readers take has neither, so their walk is needed after a refusal only.
fn read(text: Text) -> Result<Draft, Refusal>
    ensures { MatchResult result (Whole text.entry.bytes.now) (λ f. text_refusal text.entry.bytes.now ≡ some f) }
{
    let read = read_text(text);
    let Err(why) = read else {
        return read;
    };
    text.first_fault()?;
    Err(why)
}

// 16, 17, 18, or the sheet, of a text that has been read.
fn write_draft(text: Text, draft: &Draft, sheet: &mut [u8]) -> Result<usize, Refusal>
    requires { Whole text.bytes.now draft.now }
    ensures { SheetTried text.entry.bytes.now sheet.old sheet.new result }
{
    let many = LEAF_LIMIT < draft.literals.count;
    if many {
        return Err(refused_at(text.passing_place(), TextFault::LeavesMany));
    }
    if NODE_LIMIT < draft.nodes.count {
        return Err(refused_at(text.len(), TextFault::NodesMany));
    }
    let needed = length_for(draft.literals.count, draft.nodes.count);
    if sheet.len() < needed {
        return Err(refused_at(needed, TextFault::SheetShort));
    }
    write(sheet, draft.literals.kept(), draft.nodes.kept());
    Ok(needed)
}

// The sheet in the buffer, or why there is none.
#[tactic(auto, using(crate::proofs::Call::refusal_long, crate::proofs::Call::call_refused))]
fn try_make(text: &[u8], sheet: &mut [u8]) -> Result<usize, Refusal>
    ensures { SheetTried text.now sheet.old sheet.new result }
{
    let text = Text::new(text).ok_or(refused_at(TEXT_LIMIT, TextFault::TextLong))?;
    let draft = read(text)?;
    write_draft(text, &draft, sheet)
}

// Makes the sheet of an expression: the sheet and zeros to the buffer's end, or a refusal and zeros.
pub fn make(text: &[u8], sheet: &mut [u8]) -> Result<usize, Refusal>
    ensures { SheetCall text.now sheet.old (sheet_end result sheet.new) }
{
    let made = try_make(text, sheet);
    if made.is_err() {
        wipe_all(sheet);
    }
    made
}
