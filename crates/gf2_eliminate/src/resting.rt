ghost use Rattle.cell_store.specs.Values.{homes, values_of};

use crate::{Line2, LineCover, Matrix};
use cell_store::Store;
use kdg_text::NoRoom;
use resting_tasks::Resting;
use std::alloc::Global;
use task_order::Body;

impl Resting for Matrix {
    ghost use Rattle.gf2_eliminate.specs.Covers as spec;
    ghost use Rattle.gf2_eliminate.specs.RestLaws as laws;

    type Cover = LineCover;

    ghost covers = { spec.covers };

    fn no_cover(&self, alloc: Global) -> LineCover {
        LineCover::new(alloc)
    }

    fn clear(&self, cover: &mut LineCover) {
        cover.clear();
    }

    fn has(&self, cover: &LineCover, loc: u32) -> bool {
        cover.has(&self.pattern, loc)
    }

    fn put(&self, cover: &mut LineCover, loc: u32) -> Result<(), NoRoom> {
        cover.put(&self.pattern, loc)
    }

    fn core(&self, body: &Body) -> u32 {
        self.pattern.rows + body.at
    }

    fn cover(
        &self,
        body: &Body,
        store: &Store<Line2>,
        cover: &mut LineCover,
    ) -> Result<(), NoRoom> {
        cover.include_set(&self.pattern, body.at, store)
    }

    fn gather(
        &self,
        body: &Body,
        store: &Store<Line2>,
        cover: &mut LineCover,
    ) -> Result<(), NoRoom> {
        cover.gather_set(&self.pattern, body.at, store)
    }

    fn join(&self, cover: &mut LineCover, other: &LineCover) -> Result<(), NoRoom> {
        cover.join(&self.pattern, other)
    }

    fn shared(&self, one: &LineCover, other: &LineCover) -> Option<u32> {
        one.shared(&self.pattern, other)
    }

    fn common(&self, body: &Body, store: &Store<Line2>, cover: &LineCover) -> Option<u32> {
        cover.common(&self.pattern, body.at, store)
    }

    ghost rests = { λ pattern. laws.are_resting pattern.rows pattern.cols };
}
