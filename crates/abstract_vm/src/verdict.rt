//! What is told of one point.
use sqlite_items::Items;
use world_rules::FaultText;

/// The faults that are found there, whether its line is unchecked by it, and whether one of its queries is heavy.
#[derive(Debug, Drop)]
pub struct Verdict {
    pub faults: Items<FaultText>,
    pub unchecked: bool,
    pub heavy: bool,
}
