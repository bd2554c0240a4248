// Form 1 of a sheet: the form byte, a count, the literals, a count, the nodes. Only here does code know its offsets.
ghost use Rattle.std.specs.Prelude.{◌≡◌, false, ◌+◌, ◌<◌, ◌≤◌, length};
ghost use Rattle.rules.specs.Limits.{byte_values, leaf_limit, node_limit, outside, filled};
ghost use Rattle.rules.specs.Grounds.{first_of};
ghost use Rattle.sheet.specs.Form1.{literal_count, node_part, literal as Form1·literal, length_for, length_wrong, byte_wrong, literal_grounds, laid_out};
ghost use Rattle.sheet.specs.Answer.{refusal_of};

use crate::{Node, SheetFault};
use buffers::{copy_in, wipe_from};

pub const FORM: u8 = 1;

// The bytes that are neither a literal nor a node: the form byte and the two counts.
pub const COUNTS: usize = 3;

// The place of the first literal.
const LITERALS: usize = 2;

// How many literals; none where the count is absent.
pub fn literal_count(sheet: &[u8]) -> usize
    ensures { (result ≡ literal_count sheet.now) × (result < byte_values) }
{
    usize::from(sheet.get(1).copied().unwrap_or(0))
}

// All after the counts; nothing where a sheet is too short.
pub fn node_part(sheet: &[u8]) -> &[u8]
    ensures { result.now ≡ node_part sheet.now }
{
    sheet.get(COUNTS + literal_count(sheet)..).unwrap_or(&[])
}

// The literal at a position.
pub fn literal(sheet: &[u8], p: usize) -> u8
    requires { 1 + p < length sheet.now }
    ensures { result ≡ Form1·literal sheet.now p }
{
    sheet[1 + p]
}

fn is_outside(b: u8) -> bool
    ensures { result ≡ outside b }
{
    !(rules::LOWEST_BYTE..=rules::HIGHEST_BYTE).contains(&b)
}

// 21.
fn length_wrong(sheet: &[u8]) -> bool
    ensures { result ≡ length_wrong sheet.now }
{
    if sheet.len() < LITERALS {
        return true;
    }
    let literals = usize::from(sheet[1]);
    match sheet.get(LITERALS + literals) {
        Some(nodes) => sheet.len() != COUNTS + literals + usize::from(*nodes),
        None => true,
    }
}

// 23. Both searches go to the end whatever they find, so that the compiler compares many bytes at once.
fn byte_wrong(sheet: &[u8]) -> bool
    requires { length_wrong sheet.now ≡ false }
    ensures { result ≡ byte_wrong sheet.now }
{
    let literals = &sheet[LITERALS..LITERALS + literal_count(sheet)];
    let strange = literals
        .iter()
        .fold(false, |found, b| found | is_outside(*b));
    let unknown = node_part(sheet)
        .iter()
        .fold(false, |found, b| found | (Node::Star.byte() < *b));
    strange | unknown
}

// 21, 22 and 23.
pub fn test(sheet: &[u8]) -> Result<(), SheetFault>
    ensures { refusal_of result ≡ first_of (literal_grounds sheet.now) }
{
    if length_wrong(sheet) {
        return Err(SheetFault::SheetLength);
    }
    if rules::LEAF_LIMIT < literal_count(sheet) {
        return Err(SheetFault::SheetLeaves);
    }
    if byte_wrong(sheet) {
        return Err(SheetFault::SheetByte);
    }
    Ok(())
}

// The length of the sheet with so many leaves and nodes.
pub fn length_for(leaves: usize, nodes: usize) -> usize
    requires { (leaves ≤ leaf_limit) × (nodes ≤ node_limit) }
    ensures { result ≡ length_for leaves nodes }
{
    COUNTS + leaves + nodes
}

// Writes the sheet with these literals and nodes, and zeros to the buffer's end.
pub fn write(sheet: &mut [u8], literals: &[u8], nodes: &[u8])
    requires { (length literals.now ≤ leaf_limit) × (length nodes.now ≤ node_limit) × (length_for (length literals.now) (length nodes.now) ≤ length sheet.old) }
    ensures { sheet.new ≡ filled sheet.old (laid_out literals.now nodes.now) }
{
    let counted = LITERALS + literals.len();
    let end = length_for(literals.len(), nodes.len());
    sheet[0] = FORM;
    sheet[1] = literals.len() as u8;
    copy_in(sheet, LITERALS, literals, literals.len());
    sheet[counted] = nodes.len() as u8;
    copy_in(sheet, counted + 1, nodes, nodes.len());
    wipe_from(sheet, end);
}
