ghost use Rattle.std.specs.Prelude.{◌≡◌, [], ◌∷◌, ◌++◌, OnOk, OnErr};

use kdg_text::NoRoom;
use std::alloc::Global;
use std::marker::Model;

/// A point of the mesh: where it is at a time, and how fast it moves from then on.
#[derive(Clone, Copy, Debug, PartialEq, Eq)]
pub struct MeshNode {
    /// Where it is, in units of length from -2^40 to 2^40.
    pub x: i64,
    pub y: i64,
    /// How far it moves in one unit of time, from -2^40 to 2^40.
    pub vx: i64,
    pub vy: i64,
    /// When it is there, in units of time from 0 to 1,000,000,000.
    pub time: u64,
}

/// A list of nodes.
#[derive(Drop)]
pub struct MeshNodeList {
    nodes: Vec<MeshNode>,
}

impl Model for MeshNodeList {
    ghost use Rattle.std.specs.Prelude.{List};
    ghost use Rattle.spring_mesh.specs.declared.file.MeshNode.{MeshNode};

    ghost Value = { List MeshNode };

    ghost view = { λ l. l.nodes.items };
}

impl MeshNodeList {
    /// An empty list, which takes no memory.
    pub fn new(alloc: Global) -> MeshNodeList
        ensures { result ≡ [] }
    {
        MeshNodeList {
            nodes: Vec::new(alloc),
        }
    }

    /// Adds a node at the end. After `NoRoom` the list is as it was.
    pub fn push(&mut self, node: MeshNode) -> Result<(), NoRoom>
        ensures ok { OnOk result (self.new ≡ self.old ++ node ∷ []) }
        ensures err { OnErr result (self.new ≡ self.old) }
    {
        self.nodes.push(node)?;
        Ok(())
    }

    /// The nodes, in order.
    pub fn items(&self) -> &[MeshNode]
        ensures { result.now ≡ self.now }
    {
        &self.nodes
    }
}

/// A list of masses.
#[derive(Drop)]
pub struct MassList {
    masses: Vec<i64>,
}

impl Model for MassList {
    ghost use Rattle.std.specs.Prelude.{List, ℤ};

    ghost Value = { List ℤ };

    ghost view = { λ l. l.masses.items };
}

impl MassList {
    /// An empty list, which takes no memory.
    pub fn new(alloc: Global) -> MassList
        ensures { result ≡ [] }
    {
        MassList {
            masses: Vec::new(alloc),
        }
    }

    /// Adds a mass at the end. After `NoRoom` the list is as it was.
    pub fn push(&mut self, mass: i64) -> Result<(), NoRoom>
        ensures ok { OnOk result (self.new ≡ self.old ++ mass ∷ []) }
        ensures err { OnErr result (self.new ≡ self.old) }
    {
        self.masses.push(mass)?;
        Ok(())
    }

    /// The masses, in order.
    pub fn items(&self) -> &[i64]
        ensures { result.now ≡ self.now }
    {
        &self.masses
    }
}

/// A spring between two nodes.
#[derive(Clone, Copy, Debug, PartialEq, Eq)]
pub struct Spring {
    /// The numbers of its ends, counted from 0.
    pub a: u32,
    pub b: u32,
    /// How hard it pulls for each unit of length that it is off its rest, from 0 to 1,000,000.
    pub k: i64,
    /// At rest the second end is so far from the first, from -2^40 to 2^40.
    pub rx: i64,
    pub ry: i64,
    /// How many units of time lie between its steps, from 1 to 1,000,000,000.
    pub h: u64,
}

/// A list of springs.
#[derive(Drop)]
pub struct SpringList {
    springs: Vec<Spring>,
}

impl Model for SpringList {
    ghost use Rattle.std.specs.Prelude.{List};
    ghost use Rattle.spring_mesh.specs.declared.file.Spring.{Spring};

    ghost Value = { List Spring };

    ghost view = { λ l. l.springs.items };
}

impl SpringList {
    /// An empty list, which takes no memory.
    pub fn new(alloc: Global) -> SpringList
        ensures { result ≡ [] }
    {
        SpringList {
            springs: Vec::new(alloc),
        }
    }

    /// Adds a spring at the end. After `NoRoom` the list is as it was.
    pub fn push(&mut self, spring: Spring) -> Result<(), NoRoom>
        ensures ok { OnOk result (self.new ≡ self.old ++ spring ∷ []) }
        ensures err { OnErr result (self.new ≡ self.old) }
    {
        self.springs.push(spring)?;
        Ok(())
    }

    /// The springs, in order.
    pub fn items(&self) -> &[Spring]
        ensures { result.now ≡ self.now }
    {
        &self.springs
    }
}

/// A mesh as its file describes it.
#[derive(Drop)]
pub struct MeshFile {
    /// The nodes, numbered from 0 in the order of their lines, each as it is at time 0.
    pub nodes: MeshNodeList,
    /// The mass of each node, from 1 to 1,000,000.
    pub masses: MassList,
    /// The springs, in the order of their lines.
    pub springs: SpringList,
    /// When the motion ends, in units of time from 0 to 1,000,000,000.
    pub end: u64,
}
