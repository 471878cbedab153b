//! What holds of the numbers in each tree of the grammar.
ghost use Rattle.std.specs.Prelude.{◌≡◌, ℕ, Some, slice_get};
ghost use Rattle.py_grammar.specs.Modules.{IsModuleOf};
ghost use Rattle.py_tokens.specs.TokenList.{TokenList};
ghost use Rattle.py_tree.specs.Tree.{ClassDef, Module};
ghost use Rattle.tree_code.specs.Numbers.{AreNumbered, class_id_of};
ghost use Rattle.tree_code.specs.Programs.{Defined, classes, functions, id_of};

/// In the tree of a module the function that stands at a place among the functions has that number, and so has the class among the classes.
pub fn places_are_numbers()
    ensures functions { (t : TokenList) (m : Module) (number : ℕ) (d : Defined) → IsModuleOf t m → slice_get (functions m.body) number ≡ Some d → id_of d.fun ≡ number }
    ensures classes { (t : TokenList) (m : Module) (number : ℕ) (c : ClassDef) → IsModuleOf t m → slice_get (classes m.body) number ≡ Some c → class_id_of c ≡ number }
{}

/// Functions and classes are numbered in the order of the text.
pub fn trees_are_numbered()
    ensures { (t : TokenList) (m : Module) → IsModuleOf t m → AreNumbered 0 0 m.body }
{}
