//! What a point is judged in.
use place_ids::PointId;
use program_tables::Program;
use std::alloc::Global;
use world_tables::Tables;

/// A point of a world, and the program and the tables that its rules are asked in.
#[derive(Drop)]
pub(crate) struct Judging<'a> {
    pub(crate) alloc: Global,
    pub(crate) program: &'a Program,
    pub(crate) tables: &'a Tables,
    pub(crate) point: PointId,
}
