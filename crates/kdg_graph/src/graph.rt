ghost use Rattle.std.specs.Prelude.{◌≡◌, ◌↔◌, [], Some, IfOk, IfErr, IfNone, IfSome, IsTrue, OnOk, OnErr, filter, length};
ghost use Rattle.std.specs.Option.{option_map};
ghost use Rattle.task_order.specs.TaskList.{IsNewKey};
ghost use Rattle.kdg_graph.specs.Node.{new_node};
ghost use Rattle.kdg_graph.specs.Nodes.{IsGraph, HasNode, least_of, node_at, node_with_key, put_node, running_at, set_at, started, task_at, tasks_of};
ghost use Rattle.kdg_graph.specs.Edges.{laters_of, sources_of, writers_of};
ghost use Rattle.kdg_graph.specs.Rewrite.{AreChangesOf, HaveNewKeys, IsRewritten};

use crate::entry::Entry;
use crate::node_list::NodeList;
use crate::{Fresh, Laters, NodeId, SetChange, Sources};
use rw_sets::RwSet;
use std::alloc::Global;
use std::marker::Model;
use task_order::{Key, PendingTasks, Task, key_order};

/// Pending tasks in the order of their keys. Each is a node, with an id, a recorded set, and a mark
/// where the task is running.
///
/// A node is found by its id at once. At each location the graph has those that name it in order, and
/// it keeps the unblocked nodes, of which the first is the earliest of all, and the sources are those
/// that are not running. So a start moves nothing; where a node goes or changes its set, only those
/// are tested again that it may have blocked alone, which at each location are the nodes behind it up
/// to the first that writes there; and one that comes blocks these without a test.
///
/// Nothing of that needs the order of all nodes. A graph that was made by `ordered` keeps it besides,
/// in which a node is found by its key, and `later_of` tells at once whether the next node of all is
/// the next one in conflict.
#[derive(Drop)]
pub struct Graph {
    nodes: NodeList,
}

impl Model for Graph {
    ghost use Rattle.std.specs.Prelude.{List};
    ghost use Rattle.kdg_graph.specs.Node.{Node};
    ghost use Rattle.kdg_graph.specs.Nodes.{IsGraph};

    ghost Value = { List Node };

    ghost view = { λ g. g.nodes.nodes };

    ghost invariant = { λ g. IsGraph g.nodes.nodes };
}

impl Graph {
    /// A graph without nodes, which takes no memory.
    pub fn new(alloc: Global) -> Graph
        ensures { result ≡ [] }
    {
        Graph {
            nodes: NodeList::new(alloc),
        }
    }

    /// A graph without nodes that keeps all that come in key order besides. It takes no memory.
    pub fn ordered(alloc: Global) -> Graph
        ensures { result ≡ [] }
    {
        Graph {
            nodes: NodeList::ordered(alloc),
        }
    }

    /// Puts in a node that is not running. Where memory or the ids run out, its task and its set come
    /// back and the graph is as it was.
    pub fn insert(&mut self, task: Task, set: RwSet) -> Result<NodeId, (Task, RwSet)>
        requires { IsNewKey task.key (tasks_of self.old) }
        ensures ok { IfOk result (λ id. self.new ≡ put_node (new_node id task set) self.old) }
        ensures there { IfOk result (λ id. HasNode self.new id) }
        ensures graph { IsGraph self.new }
        ensures returned { IfErr result (λ back. back ≡ (task, set)) }
        ensures unchanged { OnErr result (self.new ≡ self.old) }
    {
        if self.nodes.reserve(&set).is_err() {
            return Err((task, set));
        }
        Ok(self.nodes.put(task, set))
    }

    /// Takes the node of a task that has ended out and gives its task, replaces the sets that are named,
    /// and puts the fresh tasks in, each as a node that is not running. Nothing else changes. The list of
    /// fresh tasks has none then, and keeps its memory for others.
    ///
    /// All memory that it needs is taken first. Where it runs out, or the ids do, the changes come back,
    /// and the fresh tasks and the graph are as they were.
    pub fn rewrite(
        &mut self,
        ended: NodeId,
        changed: Vec<SetChange>,
        fresh: &mut Vec<Fresh>,
    ) -> Result<Task, Vec<SetChange>>
        requires there { HasNode self.old ended }
        requires changes { AreChangesOf self.old ended changed.items }
        requires new { HaveNewKeys (tasks_of self.old) fresh.old.items }
        ensures ok { OnOk result (IsRewritten self.old ended changed.items fresh.old.items self.new) }
        ensures task { IfOk result (λ task. task_at self.old ended ≡ Some task) }
        ensures none_left { OnOk result (fresh.new.items ≡ []) }
        ensures graph { IsGraph self.new }
        ensures returned { IfErr result (λ back. back ≡ changed) }
        ensures kept { OnErr result (fresh.new ≡ fresh.old) }
        ensures unchanged { OnErr result (self.new ≡ self.old) }
    {
        if self.nodes.reserve_all(&changed, fresh).is_err() {
            return Err(changed);
        }
        let task = self.nodes.remove(ended);
        self.nodes.set_sets(changed);
        self.nodes.put_all(fresh);
        Ok(task)
    }

    /// Marks a node as running.
    pub fn mark_running(&mut self, node: NodeId)
        requires { HasNode self.old node }
        ensures marked { self.new ≡ started node self.old }
        ensures graph { IsGraph self.new }
    {
        self.nodes.mark_running(node);
    }

    /// Puts the unblocked nodes that came to be so since the last time in order with the others, all at
    /// once. Nothing else changes: `least` and `sources` tell the same before, but then go over all that
    /// came, `sources` for each source again.
    pub fn settle(&mut self)
        ensures same { self.new ≡ self.old }
        ensures graph { IsGraph self.new }
    {
        self.nodes.settle();
    }

    /// The nodes that are not running and that no earlier node's recorded set conflicts with.
    pub fn sources(&self) -> Sources<'_>
        ensures sources { result ≡ sources_of self.now }
        ensures graph { IsGraph self.now }
    {
        self.nodes.sources()
    }

    /// The later nodes whose recorded sets conflict with that of a node.
    pub fn later_of(&self, node: NodeId) -> Laters<'_>
        requires { HasNode self.now node }
        ensures laters { IfSome (node_at self.now node) (λ of. result ≡ laters_of self.now of) }
        ensures graph { IsGraph self.now }
    {
        let nodes = &self.nodes;
        Laters::of(nodes.nodes(), nodes.order(), nodes.locations(), node)
    }

    /// The earliest node.
    pub fn least(&self) -> Option<NodeId>
        ensures least { result ≡ least_of self.now }
        ensures there { IfSome result (λ id. HasNode self.now id) }
        ensures empty { IfNone result (self.now ≡ []) }
        ensures graph { IsGraph self.now }
    {
        self.nodes.least()
    }

    /// The earliest node whose recorded set writes a location, which is the first of those that the
    /// location keeps in order. No other node is looked at.
    pub fn earliest_writing(&self, loc: u32) -> Option<NodeId>
        ensures earliest { result ≡ least_of (writers_of self.now loc) }
        ensures there { IfSome result (λ id. HasNode self.now id) }
        ensures graph { IsGraph self.now }
    {
        self.nodes.locations().first_writer(loc)
    }

    /// The node whose task has the key. This goes over all nodes, unless the graph keeps their order.
    pub fn find(&self, key: &Key) -> Option<NodeId>
        ensures found { result ≡ option_map (λ node. node.id) (node_with_key self.now key.now) }
        ensures there { IfSome result (λ id. HasNode self.now id) }
        ensures absent { IfNone result (IsNewKey key.now (tasks_of self.now)) }
        ensures graph { IsGraph self.now }
    {
        key_order();
        self.nodes.find(key)
    }

    /// The task of a node.
    pub fn task(&self, node: NodeId) -> &Task
        requires { HasNode self.now node }
        ensures { task_at self.now node ≡ Some result.now }
    {
        let entry = self.entry(node);
        &entry.task
    }

    /// The recorded set of a node.
    pub fn set(&self, node: NodeId) -> &RwSet
        requires { HasNode self.now node }
        ensures { set_at self.now node ≡ Some result.now }
    {
        let entry = self.entry(node);
        &entry.set
    }

    /// Whether a node is running.
    pub fn running(&self, node: NodeId) -> bool
        requires { HasNode self.now node }
        ensures { running_at self.now node ≡ Some result }
    {
        let entry = self.entry(node);
        entry.running
    }

    /// How many nodes there are.
    pub fn len(&self) -> usize
        ensures len { result ≡ length self.now }
        ensures graph { IsGraph self.now }
    {
        self.nodes.nodes().len()
    }

    /// Whether there is no node.
    pub fn is_empty(&self) -> bool
        ensures { IsTrue result ↔ (self.now ≡ []) }
    {
        self.len() == 0
    }

    /// How many nodes are running. This goes over all of them.
    pub fn running_len(&self) -> usize
        ensures { result ≡ length (filter (λ node. node.running) self.now) }
    {
        self.nodes.nodes().running_len()
    }

    /// A node as it is kept.
    fn entry(&self, node: NodeId) -> &Entry
        requires { HasNode self.now node }
        ensures { node_at self.now node ≡ Some result.now }
    {
        self.nodes.nodes().entry(node)
    }
}

impl PendingTasks for Graph {
    ghost tasks = { tasks_of };

    ghost writers = { λ nodes loc. tasks_of (writers_of nodes loc) };

    fn earliest(&self) -> Option<&Task> {
        let least = self.least()?;
        Some(self.task(least))
    }

    fn earliest_writing(&self, loc: u32) -> Option<&Task> {
        let writer = Graph::earliest_writing(self, loc)?;
        Some(self.task(writer))
    }
}
