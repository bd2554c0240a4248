// The test of node bytes, whatever the form: the subtrees that wait while the nodes are read.
ghost use Rattle.std.specs.Prelude.{◌≡◌, true, map, ◌+◌, ◌*◌, ◌<◌, ◌≤◌, length};
ghost use Rattle.std.proofs.Math.Option.{none};
ghost use Rattle.rules.specs.Limits.{node_limit};
ghost use Rattle.rules.specs.Grounds.{first_of};
ghost use Rattle.sheet.specs.Nodes.{node_of, arity, is_leaf};
ghost use Rattle.sheet.specs.Kinds.{Gives};
ghost use Rattle.sheet.specs.Weights.{one_waiting, weight_of};
ghost use Rattle.sheet.specs.Refusals.{node_grounds};
ghost use Rattle.sheet.specs.Answer.{refusal_of};

use crate::{Node, SheetFault};

// The sum of the fast pass: specs/Weights.antt.
const ONE_WAITING: u64 = 65536;

const NONE_WAITING: u64 = ONE_WAITING * (rules::NODE_LIMIT as u64 + 1);

// How many waiting subtrees a node takes; it leaves one.
fn arity(node: Node) -> usize
    ensures { Gives arity node result }
{
    match node {
        Node::Leaf | Node::Empty => 0,
        Node::Cat | Node::Union => 2,
        Node::Star => 1,
    }
}

// 1 for a leaf, else 0.
fn leaf_of(node: Node) -> usize
    ensures { Gives is_leaf node result × (result < 2) }
{
    match node {
        Node::Leaf => 1,
        _ => 0,
    }
}

// 24 to 27 in their order, in one walk that counts the subtrees waiting.
#[tactic(auto, using(crate::proofs::Tests::turns))]
fn test_in_order(nodes: &[u8], promised: usize) -> Result<(), SheetFault>
    ensures { refusal_of result ≡ first_of (node_grounds promised (map node_of nodes.now)) }
{
    let mut waiting: usize = 0;
    let mut most: usize = 0;
    let mut leaves: usize = 0;
    for byte in nodes {
        let node = Node::from(*byte);
        let taken = arity(node);
        if waiting < taken {
            return Err(SheetFault::WaitingFew);
        }
        waiting = waiting - taken + 1;
        most = most.max(waiting);
        leaves += leaf_of(node);
    }
    if waiting != 1 {
        return Err(SheetFault::WaitingEnd);
    }
    if rules::WAITING_LIMIT < most {
        return Err(SheetFault::WaitingMany);
    }
    if leaves != promised {
        return Err(SheetFault::LeavesUnequal);
    }
    Ok(())
}

// What a node adds to the sum of the fast pass, by its byte: a look into a table takes fewer instructions than a test of each kind.
const WEIGHTS: [u64; 5] = [2 * ONE_WAITING + 1, 2 * ONE_WAITING, 0, 0, ONE_WAITING];

fn weight(node: Node) -> u64
    ensures { Gives weight_of node result × (result ≤ 2 * one_waiting + 1) }
{
    WEIGHTS[usize::from(node.byte())]
}

// 24 to 27 in one fast pass without an order: true only if none of them holds. 24 holds exactly if after some node none waits.
#[tactic(auto, using(crate::proofs::Weighed::passes))]
fn counts_right(nodes: &[u8], promised: usize) -> bool
    requires { (length nodes.now ≤ node_limit) × (promised ≤ node_limit) }
    ensures { result ≡ true → first_of (node_grounds promised (map node_of nodes.now)) ≡ none }
{
    let mut sum = NONE_WAITING;
    let mut least = NONE_WAITING + ONE_WAITING;
    for byte in nodes {
        sum = sum + weight(Node::from(*byte)) - ONE_WAITING;
        least = least.min(sum);
    }
    NONE_WAITING + ONE_WAITING <= least && sum == NONE_WAITING + ONE_WAITING + promised as u64
}

// 24 to 27: in their order only where the fast pass did not find all fine. It has no sum for more nodes than a sheet may have.
pub fn test_nodes(nodes: &[u8], promised: usize) -> Result<(), SheetFault>
    requires { promised ≤ node_limit }
    ensures { refusal_of result ≡ first_of (node_grounds promised (map node_of nodes.now)) }
{
    if nodes.len() <= rules::NODE_LIMIT && counts_right(nodes, promised) {
        return Ok(());
    }
    test_in_order(nodes, promised)
}
