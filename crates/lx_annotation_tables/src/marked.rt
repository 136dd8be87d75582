//! The annotated functions of a module by number.
ghost use Rattle.std.specs.Prelude.{◌≡◌, MatchResult, None, find, nat_eq, option_copied, slice_get};
ghost use Rattle.std.specs.List.{list_any};
ghost use Rattle.lx_annotation_tables.specs.Entries.{IsRising};

use lx_slot_types::Marked;

/// The place of the annotated function with this number, or the one at which it would stand.
fn search(annotated: &[Marked], function: usize) -> Result<usize, usize>
    requires { IsRising annotated.now }
    ensures { MatchResult result (λ k. slice_get annotated.now k ≡ find (λ x. nat_eq x.function function) annotated.now) (λ _. None ≡ find (λ x. nat_eq x.function function) annotated.now) }
{
    annotated.binary_search_by_key(&function, |marked| marked.function as usize)
}

/// The annotated function with this number. They stand in the order of their numbers.
pub(crate) fn marked_in(annotated: &[Marked], function: usize) -> Option<&Marked>
    requires { IsRising annotated.now }
    ensures { option_copied result ≡ find (λ x. nat_eq x.function function) annotated.now }
{
    match search(annotated, function) {
        Ok(place) => annotated.get(place),
        Err(_) => None,
    }
}

/// Whether the function with this number is among the annotated ones.
pub(crate) fn is_annotated(annotated: &[Marked], function: usize) -> bool
    requires { IsRising annotated.now }
    ensures { result ≡ list_any (λ x. nat_eq x.function function) annotated.now }
{
    match marked_in(annotated, function) {
        Some(_) => true,
        None => false,
    }
}
