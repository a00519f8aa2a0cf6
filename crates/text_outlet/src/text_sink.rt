//! A sink that keeps what it takes as a text.

ghost use Rattle.std.specs.Prelude.{◌≡◌, ◌<◌, ◌≤◌, [], length, Some};
ghost use Rattle.outer_edge.specs.Writing.{CountsFailedWrite, WriteTakes};

use kdg_text::Text;
use outer_edge::{Push, Sink};
use std::alloc::Global;
use std::marker::Model;

/// A text that is written piece by piece. A write fails where no memory is to be had.
#[derive(Drop)]
pub struct TextSink {
    text: Text,
    faults: u64,
}

impl TextSink {
    /// Nothing is written yet.
    pub fn new(alloc: Global) -> TextSink
        ensures text { result.text ≡ [] }
    {
        TextSink {
            text: Text::new(alloc),
            faults: 0,
        }
    }

    /// What was written.
    pub fn into_text(self) -> Text
        ensures { result ≡ self.text }
    {
        self.text
    }
}

impl Sink for TextSink {
    ghost use Rattle.std.specs.Prelude.{Some};

    ghost contents = { λ s. Some s.text };

    ghost faults = { λ s. s.faults };

    fn write(&mut self, piece: &[u8]) -> Push
        requires { 0 < length piece.now }
        ensures bytes { WriteTakes (Some self.old.text) (Some self.new.text) piece.now result }
        ensures counts { CountsFailedWrite self.old.faults self.new.faults result }
        ensures never_falls { self.old.faults ≤ self.new.faults }
    {
        match self.text.push_all(piece) {
            Ok(()) => Push::Took(piece.len()),
            Err(_) => {
                self.faults = self.faults.saturating_add(1);
                Push::Failed
            }
        }
    }
}
