// Groups of places, by groups that stand beside the ties. Nothing is united here: places are in one group if their nodes have one label.
ghost use Rattle.std.specs.Prelude.{◌≡◌, ℕ, ◌+◌, ◌<◌, ◌≤◌, length, get_or};
ghost use Rattle.constraints.specs.Nodes.{place_limit};
ghost use Rattle.constraints.specs.Groups.{label_in, GroupsOf};

use crate::numbering::{PLACE_LIMIT, number_nodes};
use cells::at;

// A group that is lent is a label behind all places.
const LABELS: u32 = PLACE_LIMIT as u32;

// Each of n places is its own label.
fn label_alone(n: usize, labels: &mut [u32])
    requires { (n ≤ place_limit) × (length labels.old ≡ place_limit) }
    ensures { (p : ℕ) → p < n → get_or labels.new p 0 ≡ p }
{
    for p in 0..n {
        labels[p] = p as u32;
    }
}

// Each node that a tie names has for label the group beside the first tie that does: the last is written first.
fn label_nodes(nodes: &[u16], ones: usize, tied: usize, beside: &[u16], labels: &mut [u32])
    requires { (ones + tied + tied ≤ place_limit) × (length nodes.now ≡ place_limit) × (length labels.old ≡ place_limit) × ((p : ℕ) → p < ones + tied + tied → get_or nodes.now p 0 ≤ p) × ((p : ℕ) → p < ones → get_or labels.old p 0 ≡ p) }
    ensures { (x : ℕ) → x < ones → get_or labels.new x 0 ≡ label_in nodes.now ones tied beside.now x }
{
    for i in (0..tied).rev() {
        let label = LABELS + u32::from(at(beside, i));
        let one = usize::from(nodes[ones + i]);
        let two = usize::from(nodes[ones + tied + i]);
        labels[one] = label;
        labels[two] = label;
    }
}

// The label of each of n places is that of its node.
fn label_places(nodes: &[u16], n: usize, labels: &mut [u32])
    requires { (n ≤ place_limit) × (length nodes.now ≡ place_limit) × (length labels.old ≡ place_limit) × ((p : ℕ) → p < n → get_or nodes.now p 0 ≤ p) × ((p : ℕ) → p < n → get_or nodes.now (get_or nodes.now p 0) 0 ≡ get_or nodes.now p 0) }
    ensures { (p : ℕ) → p < n → get_or labels.new p 0 ≡ get_or labels.old (get_or nodes.now p 0) 0 }
{
    for p in 0..n {
        let node = usize::from(nodes[p]);
        labels[p] = labels[node];
    }
}

// The groups of the places before the ties', by all nodes and the groups beside the ties. What the tables `labels` and `nexts` hold before and after is of
// no matter.
pub(crate) fn group_places(
    nodes: &[u16],
    ones: usize,
    tied: usize,
    beside: &[u16],
    labels: &mut [u32],
    groups: &mut [u16],
    nexts: &mut [u16],
)
    requires { (ones + tied + tied ≤ place_limit) × (length nodes.now ≡ place_limit) × (length labels.old ≡ place_limit) × (length groups.old ≡ place_limit) × (length nexts.old ≡ place_limit) × ((p : ℕ) → p < ones + tied + tied → get_or nodes.now p 0 ≤ p) × ((p : ℕ) → p < ones → get_or nodes.now (get_or nodes.now p 0) 0 ≡ get_or nodes.now p 0) }
    ensures { GroupsOf nodes.now ones tied beside.now groups.new }
{
    label_alone(ones, labels);
    label_nodes(nodes, ones, tied, beside, labels);
    label_places(nodes, ones, labels);
    number_nodes(labels, ones, groups, nexts);
}
