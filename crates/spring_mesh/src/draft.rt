ghost use Rattle.std.specs.Prelude.{◌≡◌, ◌≤◌, [], None, Ok, length, IfErr, OnOk};
ghost use Rattle.kdg_text.specs.Faults.{Answers, StopsAt};
ghost use Rattle.spring_mesh.specs.Drafts.{draft_fault, draft_plus, draft_with, file_from};
ghost use Rattle.spring_mesh.specs.Files.{are_two_of, form_fault, is_one_of, spring_from, statement_fault};

use crate::faults::{NO_END, NO_NODE, SYNTAX, beyond};
use crate::statement::{SpringDraft, Statement};
use crate::{MassList, MeshFile, MeshNodeList, Spring, SpringList};
use kdg_text::{LineFault, NoRoom, ReadFail};
use std::alloc::Global;

const MOST_NODES: usize = 4096;

const MOST_SPRINGS: usize = 16384;

/// What the lines so far say. None of them has a fault.
#[derive(Drop)]
pub(crate) struct Draft {
    pub(crate) nodes: MeshNodeList,
    pub(crate) masses: MassList,
    pub(crate) springs: SpringList,
    pub(crate) end: Option<u64>,
}

impl Draft {
    /// Nothing yet.
    pub(crate) fn new(alloc: Global) -> Draft
        ensures { result ≡ record { nodes = []; masses = []; springs = []; end = None } }
    {
        Draft {
            nodes: MeshNodeList::new(alloc),
            masses: MassList::new(alloc),
            springs: SpringList::new(alloc),
            end: None,
        }
    }

    /// Adds what the line of that number says, unless that is wrong beside the lines before it.
    pub(crate) fn add(
        &mut self,
        number: u64,
        form: Result<Statement, LineFault>,
    ) -> Result<(), ReadFail>
        requires { length self.old.nodes ≤ 4096 }
        ensures fits { OnOk result (draft_fault self.old form ≡ None) }
        ensures added { OnOk result (self.new ≡ draft_plus self.old form) }
        ensures refused { IfErr result (StopsAt number (draft_fault self.old form)) }
    {
        if let Some(fault) = self.fault(&form) {
            return Err(ReadFail::Bad(fault.on_line(number)));
        }
        if let Ok(statement) = form {
            self.keep(statement)?;
        }
        Ok(())
    }

    /// What is wrong with a line beside those before it.
    fn fault(&self, form: &Result<Statement, LineFault>) -> Option<LineFault>
        ensures { result ≡ draft_fault self.now form.now }
    {
        if self.end.is_some() {
            return Some(SYNTAX);
        }
        match form {
            Ok(statement) => self.statement_fault(statement),
            Err(fault) => Some(*fault),
        }
    }

    /// What is wrong with a statement that is no end behind another one.
    fn statement_fault(&self, statement: &Statement) -> Option<LineFault>
        ensures { result ≡ statement_fault (length self.now.nodes) (length self.now.springs) statement.now }
    {
        match statement {
            Statement::Node(..) if MOST_NODES <= self.nodes.items().len() => {
                Some(beyond(MOST_NODES as u64))
            }
            Statement::Spring(spring) if !are_two_of(self.nodes.items().len(), spring) => {
                Some(NO_NODE)
            }
            Statement::Spring(_) if MOST_SPRINGS <= self.springs.items().len() => {
                Some(beyond(MOST_SPRINGS as u64))
            }
            _ => None,
        }
    }

    /// Adds a statement that fits.
    fn keep(&mut self, statement: Statement) -> Result<(), NoRoom>
        requires few { length self.old.nodes ≤ 4096 }
        requires fits { form_fault (length self.old.nodes) (length self.old.springs) (Ok statement) ≡ None }
        ensures { OnOk result (self.new ≡ draft_with self.old statement) }
    {
        match statement {
            Statement::Node(node, mass) => {
                self.nodes.push(node)?;
                self.masses.push(mass)?;
            }
            Statement::Spring(spring) => self.springs.push(spring_from(&spring))?,
            Statement::End(time) => self.end = Some(time),
        }
        Ok(())
    }

    /// The mesh, once each line has been added, where one of them had the end. `behind` is the
    /// number of the line behind the last.
    pub(crate) fn file(self, behind: u64) -> Result<MeshFile, ReadFail>
        ensures { Answers result (file_from self behind) }
    {
        match self.end {
            Some(end) => Ok(MeshFile {
                nodes: self.nodes,
                masses: self.masses,
                springs: self.springs,
                end,
            }),
            None => Err(ReadFail::Bad(NO_END.on_line(behind))),
        }
    }
}

/// Whether the ends of a spring are two of `nodes` nodes.
fn are_two_of(nodes: usize, spring: &SpringDraft) -> bool
    ensures { result ≡ are_two_of nodes spring.now }
{
    is_one_of(nodes, spring.a) && is_one_of(nodes, spring.b) && spring.a != spring.b
}

/// Whether a number, counted from 1, is one of `nodes` nodes.
fn is_one_of(nodes: usize, number: u64) -> bool
    ensures { result ≡ is_one_of nodes number }
{
    1 <= number && number <= nodes as u64
}

/// The spring with ends counted from 0.
fn spring_from(draft: &SpringDraft) -> Spring
    requires a { (1 ≤ draft.now.a) × (draft.now.a ≤ 4096) }
    requires b { (1 ≤ draft.now.b) × (draft.now.b ≤ 4096) }
    ensures { result ≡ spring_from draft.now }
{
    Spring {
        a: (draft.a - 1) as u32,
        b: (draft.b - 1) as u32,
        k: draft.k,
        rx: draft.rx,
        ry: draft.ry,
        h: draft.h,
    }
}
