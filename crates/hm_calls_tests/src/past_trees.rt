// The trees that the plain program of the model makes of a pseudo file system, call by call.
use hm_model::{Command, Reply, Tree, apply, look};
use hm_types::{GREATEST_ID, Id};
use std::alloc::Global;
use std::test::Fail;

/// The trees of a pseudo file system, each with the id from which on it is the one of now.
#[derive(Drop)]
pub(crate) struct PastTrees {
    list: Vec<(u64, Tree)>,
}

impl PastTrees {
    /// The root alone, from an id on.
    pub(crate) fn new(alloc: Global, since: u64) -> Result<PastTrees, Fail> {
        let mut list = Vec::new(alloc);
        list.push((since, Tree::root(alloc)?))?;
        Ok(PastTrees { list })
    }

    /// The reply that a call is due on the tree of now, which changes by it.
    pub(crate) fn call(
        &mut self,
        alloc: Global,
        command: &Command,
        id: u64,
    ) -> Result<Reply, Fail> {
        if id == 0 || id > GREATEST_ID {
            return Err("no id")?;
        }
        let Some((_, tree)) = self.list.last() else {
            return Err("no tree")?;
        };
        match command {
            Command::Ls { .. }
            | Command::Cat { .. }
            | Command::Stat { .. }
            | Command::Readlink { .. } => { Ok(look(alloc, tree, command)?) }
            _ => {
                let (reply, after) = apply(alloc, tree, command, Id(id))?;
                self.list.push((id, after))?;
                Ok(reply)
            }
        }
    }

    /// The reply of a call that looks, on the tree as of an id.
    pub(crate) fn look(&self, alloc: Global, command: &Command, id: u64) -> Result<Reply, Fail> {
        for (since, tree) in self.list.iter().rev() {
            if *since <= id {
                return Ok(look(alloc, tree, command)?);
            }
        }
        Err("no tree")?
    }
}
