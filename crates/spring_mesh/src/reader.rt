ghost use Rattle.std.specs.Prelude.{◌≡◌, Ok, IfOk, IfErr};
ghost use Rattle.kdg_text.specs.Faults.{Answers};
ghost use Rattle.spring_mesh.specs.Files.{IsMesh};
ghost use Rattle.spring_mesh.specs.Grammar.{mesh_of, Refuses};

use crate::MeshFile;
use crate::draft::Draft;
use crate::statement::statement_of;
use kdg_text::{Lines, ReadFail};
use std::alloc::Global;

/// Reads a mesh. What begins with `#` is a comment. A line is `node X Y VX VY MASS`,
/// `spring A B K RX RY H`, whose ends are nodes of earlier lines, counted from 1, or, as the last
/// one, `end T`. The first fault is answered with its line.
pub fn read_mesh(alloc: Global, input: &[u8]) -> Result<MeshFile, ReadFail>
    ensures found { IfOk result (λ file. mesh_of input.now ≡ Ok file) }
    ensures mesh { IfOk result IsMesh }
    ensures refused { IfErr result (Refuses input.now) }
{
    file_in(alloc, input)
}

#[tactic(auto, unfolding(crate::specs::Grammar::mesh_of))]
fn file_in(alloc: Global, input: &[u8]) -> Result<MeshFile, ReadFail>
    ensures { Answers result (mesh_of input.now) }
{
    let mut draft = Draft::new(alloc);
    let mut lines = Lines::new(input);
    while let Some(line) = lines.next_line() {
        if let Some(form) = statement_of(line.bytes) {
            draft.add(line.number, form)?;
        }
    }
    draft.file(lines.number())
}
