//! What holds of all stubs and their texts.
ghost use Rattle.std.specs.Prelude.{ℕ, List};
ghost use Rattle.type_terms.specs.Stubs.{Name, Fun};
ghost use Rattle.pyi_write.specs.SmallStub.{SmallStub};
ghost use Rattle.pyi_write.specs.Laws.{NormalStubsAreReadBack, OneMeaning, NamesAreSorted, TextsAreSorted};

use py_tokens::laws::one_answer;
use type_terms::laws::one_normal_form;

/// The text of a normal stub means that stub.
pub fn normal_stubs_are_read_back()
    ensures { NormalStubsAreReadBack }
{}

/// A text means one stub at most.
pub fn texts_mean_one_stub()
    ensures { OneMeaning }
{
    one_answer();
    one_normal_form();
}

/// The names of a body are written in order, and so are the texts of the imports.
pub fn lists_are_sorted()
    ensures names { (funs : List Fun) (names : List Name) → NamesAreSorted funs names }
    ensures texts { (texts : List (List ℕ)) → TextsAreSorted texts }
{}

/// A small stub is normal, and its text is computed.
pub fn a_small_stub_is_normal()
    ensures { SmallStub }
{}
