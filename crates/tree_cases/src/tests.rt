//! What the trees and the refusals of texts are.
mod assignments;
mod classes;
mod compounds;
mod definitions;
mod expressions;
mod forms;
mod imports;
mod modules;
mod nestings;
mod printer;
mod readings;
mod simples;
mod trees;
