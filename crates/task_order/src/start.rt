ghost use Rattle.std.specs.Prelude.{◌≡◌, [], ◌∷◌, ◌++◌, OnOk, OnErr};

use crate::Body;
use kdg_text::NoRoom;
use std::alloc::Global;
use std::marker::Model;

/// A first task before it has a key.
#[derive(Clone, Copy, Debug, PartialEq, Eq)]
pub struct Start {
    pub prio: u64,
    pub body: Body,
}

/// A list of first tasks.
#[derive(Drop)]
pub struct StartList {
    starts: Vec<Start>,
}

impl Model for StartList {
    ghost use Rattle.std.specs.Prelude.{List};
    ghost use Rattle.task_order.specs.declared.start.Start.{Start};

    ghost Value = { List Start };

    ghost view = { λ l. l.starts.items };
}

impl StartList {
    /// An empty list, which takes no memory.
    pub fn new(alloc: Global) -> StartList
        ensures { result ≡ [] }
    {
        StartList {
            starts: Vec::new(alloc),
        }
    }

    /// Adds a first task at the end. After `NoRoom` the list is as it was.
    pub fn push(&mut self, start: Start) -> Result<(), NoRoom>
        ensures ok { OnOk result (self.new ≡ self.old ++ start ∷ []) }
        ensures err { OnErr result (self.new ≡ self.old) }
    {
        self.starts.push(start)?;
        Ok(())
    }

    /// Takes all tasks away, and keeps the memory for new ones.
    pub fn clear(&mut self)
        ensures { self.new ≡ [] }
    {
        self.starts.clear();
    }

    /// The first tasks, in order.
    pub fn items(&self) -> &[Start]
        ensures { result.now ≡ self.now }
    {
        &self.starts
    }
}
