// The nodes of a literal with its repeat, stored one after the other.
#![tactic(auto)]

ghost use Rattle.std.specs.Prelude.{◌≡◌, ℕ, ◌+◌, ◌≤◌};
ghost use Rattle.rules.specs.Limits.{most_copies, nodes_a_byte, count_limit};
ghost use Rattle.buffers.specs.Wrote.{Wrote, Added};
ghost use Rattle.sheet.specs.Make.{postorder};
ghost use Rattle.repeats.specs.Copies.{copy, copies};

use buffers::{Tally, emit};
use sheet::Node;

// One copy of a literal: with the empty word and the union if it may be left out.
fn option(nodes: &mut [u8], n: usize, sure: bool) -> usize
    requires { n + 3 ≤ count_limit }
    ensures { (b : ℕ) → Wrote n nodes.old result nodes.new (postorder (copy b sure)) }
{
    emit(nodes, n, Node::Leaf.byte());
    if sure {
        return n + 1;
    }
    emit(nodes, n + 1, Node::Empty.byte());
    emit(nodes, n + 2, Node::Union.byte());
    n + 3
}

// The nodes of a literal with its repeat, whatever its byte: y copies, of which the first x must stand.
pub fn repeat_in(nodes: &mut [u8], n: usize, x: usize, y: usize) -> usize
    requires { (n + nodes_a_byte ≤ count_limit) × (x ≤ y) × (y ≤ most_copies) }
    ensures { (b : ℕ) → Wrote n nodes.old result nodes.new (postorder (copies b x y)) }
{
    if y == 0 {
        emit(nodes, n, Node::Empty.byte());
        return n + 1;
    }
    let mut m = option(nodes, n, 0 < x);
    for i in 1..y {
        m = option(nodes, m, i < x);
        emit(nodes, m, Node::Cat.byte());
        m += 1;
    }
    m
}

// The same in a tally.
pub fn repeat<const N: usize>(nodes: &mut Tally<N>, x: usize, y: usize)
    requires { (nodes.old.count + nodes_a_byte ≤ count_limit) × (x ≤ y) × (y ≤ most_copies) }
    ensures { (b : ℕ) → Added nodes.old nodes.new (postorder (copies b x y)) }
{
    nodes.count = repeat_in(&mut nodes.bytes, nodes.count, x, y);
}
