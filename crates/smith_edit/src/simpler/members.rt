//! What has a name and nothing inside: members of types, imports and exports.

ghost use Rattle.std.specs.Prelude.{◌≡◌, ℕ, List, length, map, refl, string_bytes, IfOk, IsSome, option_map};
ghost use Rattle.smith_syntax.specs.Signature.{named};
ghost use Rattle.smith_edit.specs.Names.{Knows};
ghost use Rattle.smith_read.specs.Search.{past, sought};
ghost use Rattle.smith_edit.specs.Simpler.{label_renamed, member_renamed, pair_renamed, renamed_at};

use crate::names::{Named, Names};
use crate::simpler::search::{Finder, Simplified};
use std::alloc::{AllocError, Global};

impl<T: Copy + Drop> Named for (String, T) {
    ghost Shown = { List ℕ × T };

    ghost shown = { named };

    ghost name = { λ p. p.0 };

    ghost rename = { pair_renamed };

    ghost is_renamed = { λ x text. refl };

    ghost is_same = { λ x. refl };

    fn label(&self) -> &str {
        self.0.as_str()
    }

    fn renamed(&self, label: String) -> (String, T) {
        (label, self.1)
    }
}

impl Named for String {
    ghost Shown = { List ℕ };

    ghost shown = { string_bytes };

    ghost name = { λ n. n };

    ghost rename = { label_renamed };

    ghost is_renamed = { λ x text. refl };

    ghost is_same = { λ x. refl };

    fn label(&self) -> &str {
        self.as_str()
    }

    fn renamed(&self, label: String) -> String {
        label
    }
}

/// Copies, each with the name that it has.
pub(crate) fn copy_named<T: Named>(alloc: Global, items: &[T]) -> Result<Vec<T>, AllocError>
    ensures { IfOk result (λ v. map T.shown v.items ≡ map T.shown items.now) }
{
    let mut copies = Vec::new(alloc);
    for item in items {
        let name = String::from_str(alloc, item.label())?;
        copies.push(item.renamed(name))?;
    }
    Ok(copies)
}

/// Copies, the one at that place with a new name; none if that is not shorter, or if there is no such place.
pub(crate) fn rename_at<T: Named>(
    alloc: Global,
    known: &Names,
    items: &[T],
    place: usize,
) -> Simplified<Vec<T>>
    ensures { (names : List (List ℕ)) → Knows known.now names → IfOk result (λ r.
        option_map (λ v. map T.shown v.items) r ≡ renamed_at T.name T.rename names place (map T.shown items.now)) }
{
    let mut copies = copy_named(alloc, items)?;
    if place >= items.len() {
        return Ok(None);
    }
    let item = &items[place];
    let Some(name) = known.shorter_name(alloc, item.label())? else {
        return Ok(None);
    };
    copies[place] = item.renamed(name);
    Ok(Some(copies))
}

/// The members of a type, the one that is sought with a new name; none if that is not shorter.
pub(crate) fn simplify_members<T: Named>(finder: &mut Finder, items: &[T]) -> Simplified<Vec<T>>
    ensures members { let all = map T.shown items.now in IfOk result (λ r. option_map (λ v. map T.shown v.items) r
        ≡ sought (length items.now) finder.old.search (λ k. member_renamed T.name T.rename k all) all) }
    ensures moved { IfOk result (λ r. IsSome r → finder.new.search ≡ past (length items.now) finder.old.search) }
{
    match finder.search.pass(items.len()) {
        None => Ok(Some(copy_named(finder.alloc, items)?)),
        Some(place) => {
            let mut known = Names::new(finder.alloc);
            known.add_all(finder.alloc, items)?;
            rename_at(finder.alloc, &known, items, place)
        }
    }
}
