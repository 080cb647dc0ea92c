// Nodes as pages.
ghost use Rattle.std.specs.Prelude.{◌≡◌, Ok, IfOk, IfErr, IfSome, IfNone};
ghost use Rattle.hm_node.specs.Node.{node_in, IsNode, Spells};
ghost use Rattle.hm_node.specs.Shape.{HoldsNode};
ghost use Rattle.hm_node.specs.Damage.{IsDamage, IsFirstBroken};
ghost use Rattle.hm_node.specs.declared.node.Node.{Node};

use crate::head::{Head, INNER, LEAF, LEAF_LEVEL};
use crate::inner::Inner;
use crate::leaf::Leaf;
use crate::rule::Rule;
use hm_fields::Page;
use hm_types::{Fault, HOff};

/// A node of the tree.
#[derive(Debug, Drop, PartialEq, Eq)]
pub enum Node {
    Leaf(Leaf),
    Inner(Inner),
}

/// Reads the node that stands at `at`, and tells damage of that place: the number of the first rule
/// that the page breaks. No other fault comes, and no memory is taken.
pub fn decode(at: HOff, page: &Page) -> Result<Node, Fault>
    // What is read keeps each rule, and is spelled so.
    ensures ok { IfOk result (λ node. IsNode node × Spells page.now node) }
    // What keeps each rule and is spelled so is read.
    ensures only { (node : Node) → IsNode node → Spells page.now node → result ≡ Ok node }
    // Else the first broken rule is told.
    ensures err { IfErr result (λ fault. IsDamage at page.now fault) }
{
    match broken_rule(page) {
        None => Ok(node_of(page)),
        Some(rule) => Err(Fault::Damaged {
            at,
            kind: rule.kind(),
        }),
    }
}

/// The first rule that a page breaks by itself, and None where it spells the node in it. It builds no
/// node.
pub fn broken_rule(page: &Page) -> Option<Rule>
    ensures none { IfNone result (IsNode (node_in page.now) × Spells page.now (node_in page.now)) }
    ensures some { IfSome result (λ rule. IsFirstBroken page.now rule) }
{
    let head = Head::read(page);
    match head.kind {
        LEAF if head.level == LEAF_LEVEL => Leaf::broken_rule(page, &head),
        INNER => Inner::broken_rule(page, &head),
        _ => Some(Rule::Level),
    }
}

/// The node in a page that holds one. Nothing is checked.
pub fn node_of(page: &Page) -> Node
    requires { HoldsNode page.now }
    ensures { result ≡ node_in page.now }
{
    if Head::read(page).kind == LEAF {
        Node::Leaf(Leaf::of(page))
    } else {
        Node::Inner(Inner::of(page))
    }
}

/// Writes a node as the whole page. Takes no memory.
pub fn encode(node: &Node, page: &mut Page)
    ensures { Spells page.new node.now }
{
    match node {
        Node::Leaf(leaf) => leaf.write(page),
        Node::Inner(inner) => inner.write(page),
    }
}
