//! How types are hashed.
ghost use Rattle.std.specs.Prelude.{◌≡◌, ◌++◌, ◌∷◌, [], fold};
ghost use Rattle.std.specs.Hash as fed;
ghost use Rattle.type_terms.specs.View.{term_view, terms_view};
ghost use Rattle.abstract_shapes.specs.Marks.{all_marks, term_marks};

use place_ids::Text;
use std::hash::Hasher;
use type_terms::TypeTerm;

#[cycle(hash)]
pub(crate) fn hash_term<H: Hasher>(term: &TypeTerm, state: &mut H)
    ensures { state.new ≡ fold H.write state.old (term_marks (term_view term.now)) }
{
    match term {
        TypeTerm::Any => state.write_u8(0),
        TypeTerm::NoneTerm => state.write_u8(1),
        TypeTerm::Bool => state.write_u8(2),
        TypeTerm::Int => state.write_u8(3),
        TypeTerm::Float => state.write_u8(4),
        TypeTerm::Str => state.write_u8(5),
        TypeTerm::Bytes => state.write_u8(6),
        TypeTerm::List(item) => hash_part(7, item, state),
        TypeTerm::Dict(key, value) => {
            hash_part(8, key, state);
            hash_term(value, state);
        }
        TypeTerm::Tuple(places) => hash_terms(9, places, state),
        TypeTerm::TupleOf(item) => hash_part(10, item, state),
        TypeTerm::Class(name) => hash_name(11, name, state),
        TypeTerm::ClassOf(name) => hash_name(12, name, state),
        TypeTerm::Callable(answer) => hash_part(13, answer, state),
        TypeTerm::Union(members) => hash_terms(14, members, state),
    }
}

// A mark, and a type behind it.
#[cycle(hash)]
fn hash_part<H: Hasher>(mark: u8, term: &TypeTerm, state: &mut H)
    ensures { state.new ≡ fold H.write state.old (fed.u8 mark ++ term_marks (term_view term.now)) }
{
    state.write_u8(mark);
    hash_term(term, state);
}

// A mark, and types behind it.
#[cycle(hash)]
fn hash_terms<H: Hasher>(mark: u8, terms: &[TypeTerm], state: &mut H)
    ensures { state.new ≡ fold H.write state.old (fed.u8 mark ++ all_marks (terms_view terms.now)) }
{
    state.write_u8(mark);
    for term in terms {
        hash_term(term, state);
    }
}

fn hash_name<H: Hasher>(mark: u8, name: &Text, state: &mut H)
    ensures { state.new ≡ fold H.write state.old (fed.u8 mark ++ name.now ∷ []) }
{
    state.write_u8(mark);
    state.write(name.bytes());
}
