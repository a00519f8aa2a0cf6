//! Springs between nodes of a plane, each of which moves its two ends at times of its own: a file
//! format, and meshes as ordered applications. All arithmetic is on whole numbers.
#![tactic(auto)]

mod draft;
mod faults;
mod file;
mod mesh;
mod motion;
mod pairs;
mod reader;
mod statement;

pub use file::{MassList, MeshFile, MeshNode, MeshNodeList, Spring, SpringList};
pub use mesh::Mesh;
pub use pairs::pair_mesh;
pub use reader::read_mesh;
