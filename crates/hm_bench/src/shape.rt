// The shape of a tree.
ghost use Rattle.std.specs.Prelude.{◌≤◌};
ghost use Rattle.hm_node.specs.Node.{IsNode};

use crate::tally::Mean;
use hm_fields::Pages;
use hm_node::Node;
use hm_search::{Subtree, read_node};
use hm_types::{Fault, HOff};

/// How many levels, nodes, leaves and elements a tree has.
#[derive(Clone, Copy, Debug, Default, PartialEq, Eq)]
pub struct Shape {
    pub levels: u64,
    pub nodes: u64,
    pub leaves: u64,
    pub elements: u64,
}

impl Shape {
    /// The shape of the tree from a root on.
    pub fn of<P: Pages>(pages: &mut P, root: HOff) -> Result<Shape, Fault> {
        let mut shape = Shape::default();
        let node = read_node(pages, &Subtree::root(root))?;
        shape.levels = match &node {
            Node::Leaf(_) => 1,
            Node::Inner(inner) => u64::from(inner.level),
        };
        shape.add(pages, &node)?;
        Ok(shape)
    }

    // Counts a node and all below it.
    fn add<P: Pages>(&mut self, pages: &mut P, node: &Node) -> Result<(), Fault>
        requires { IsNode node.now }
    {
        self.nodes = self.nodes.saturating_add(1);
        match node {
            Node::Leaf(leaf) => {
                self.leaves = self.leaves.saturating_add(1);
                self.elements = self.elements.saturating_add(leaf.places.len() as u64);
            }
            Node::Inner(inner) => {
                for i in 0..inner.places.len() {
                    let child = read_node(pages, &Subtree::child(inner, i))?;
                    self.add(pages, &child)?;
                }
            }
        }
        Ok(())
    }

    /// How many elements a leaf has, on average.
    pub fn fill(&self) -> Mean {
        Mean {
            sum: self.elements,
            count: self.leaves,
        }
    }
}
