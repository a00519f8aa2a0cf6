ghost use Rattle.outer_edge.specs.declared.whole_input.ReadAllFault.TheVariants as refusals;
ghost use Rattle.std.specs.Prelude.{◌≡◌, ◌+◌, ◌<◌, ◌≤◌, length};
ghost use Rattle.outer_edge.specs.Reading.{CountsFailedRead, ReadGives};
ghost use Rattle.outer_edge.specs.Transfers.{ReadsAll, transfer_of};

use crate::{Pull, Source};
use kdg_text::{NoRoom, Steps, Text};
use std::alloc::Global;
use std::marker::Brand;
use std::sync::ledger::{Blank, Ledger};

/// How many bytes one read asks for.
const BUFFER_LEN: usize = 8192;

/// Why an input wasn't read to its end.
#[derive(Clone, Copy, Debug, PartialEq, Eq)]
pub enum ReadAllFault {
    /// A read failed.
    ReadFault,
    /// More bytes came than the limit allows.
    TooLarge,
    /// No memory was to be had.
    NoRoom,
}

impl From<NoRoom> for ReadAllFault {
    ghost from_gives = { λ _ fault. fault ≡ refusals.NoRoom };

    fn from(_: NoRoom) -> ReadAllFault {
        ReadAllFault::NoRoom
    }
}

/// Reads a source to its end, if it has at most `limit` bytes left. The first read that fails, or
/// that goes beyond the limit, is the last.
pub fn read_all<S: Source>(alloc: Global, source: &mut S, limit: u64) -> Result<Text, ReadAllFault>
    ensures { ReadsAll limit (transfer_of S.remaining S.faults source.old source.new) result }
{
    read_from_blank::<S, Brand>(alloc, source, limit, Blank::new(1))
}

/// `read_all`, where each read is counted as a step. Every read that goes on takes a byte, so there
/// are at most `limit + 1` reads.
pub fn read_all_counted<S: Source, L: Ledger>(
    alloc: Global,
    source: &mut S,
    limit: u64,
    steps: &mut Steps<L>,
) -> Result<Text, ReadAllFault>
    ensures reads_all { ReadsAll limit (transfer_of S.remaining S.faults source.old source.new) result }
    ensures some_read { steps.old < steps.new }
    ensures few_reads { steps.new ≤ steps.old + limit + 1 }
{
    let mut text = Text::new(alloc);
    let mut buffer = [0; BUFFER_LEN];
    loop {
        match counted_read(source, &mut buffer, steps) {
            Pull::Got(count) if count as u64 > limit - text.len() as u64 => {
                return Err(ReadAllFault::TooLarge);
            }
            Pull::Got(count) => text.push_all(&buffer[..count])?,
            Pull::End => return Ok(text),
            Pull::Failed => return Err(ReadAllFault::ReadFault),
        }
    }
}

/// One read, which is one step.
fn counted_read<S: Source, L: Ledger>(
    source: &mut S,
    buffer: &mut [u8],
    steps: &mut Steps<L>,
) -> Pull
    requires { 0 < length buffer.old }
    ensures bytes { ReadGives (S.remaining source.old) (S.remaining source.new) buffer.new result }
    ensures counts { CountsFailedRead (S.faults source.old) (S.faults source.new) result }
    ensures never_falls { S.faults source.old ≤ S.faults source.new }
    ensures step { steps.new ≡ steps.old + 1 }
{
    steps.tick();
    source.read(buffer)
}

/// `read_all`, with a count that begins here and that nobody looks at.
fn read_from_blank<S: Source, L: Ledger>(
    alloc: Global,
    source: &mut S,
    limit: u64,
    blank: Blank,
) -> Result<Text, ReadAllFault>
    requires name { blank.name ≡ L.name }
    requires parts { blank.parts ≡ L.parts }
    requires some { 0 < blank.parts }
    ensures { ReadsAll limit (transfer_of S.remaining S.faults source.old source.new) result }
{
    let mut steps = Steps::<L>::new(blank);
    read_all_counted(alloc, source, limit, &mut steps)
}
