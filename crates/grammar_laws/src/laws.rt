//! What holds of trees of the grammar.
ghost use Rattle.grammar_laws.specs.Laws.{TokensHaveOneTree, TreesAreWellFormed};

use py_descent::laws::descent_is_complete;
use py_tokens::laws::names_are_numbered;

/// A tree of the grammar that breaks no static rule is as runs and code take it.
pub fn trees_are_well_formed()
    ensures { TreesAreWellFormed }
{
    names_are_numbered();
}

/// The grammar gives a list of tokens one tree at most.
pub fn tokens_have_one_tree()
    ensures { TokensHaveOneTree }
{
    descent_is_complete();
}
