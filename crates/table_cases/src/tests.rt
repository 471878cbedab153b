//! What the calls answer where memory is ample.
mod queries;
mod tables;
