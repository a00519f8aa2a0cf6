/// Names a node of a graph by a number of 32 bits until it is removed. Another node may get the same id
/// after that.
#[derive(Clone, Copy, Debug, PartialEq, Eq)]
pub struct NodeId {
    pub at: u32,
}
