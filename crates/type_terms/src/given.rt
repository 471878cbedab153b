//! A stub under the name of its module.
use crate::Stub;
use place_ids::Text;

#[derive(Debug, Drop)]
pub struct GivenStub {
    pub name: Text,
    pub stub: Stub,
}
