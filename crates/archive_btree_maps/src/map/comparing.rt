//! Equality of maps: they have the same number of pairs, and the pairs are equal one by one.
ghost use Rattle.archive_shape_layout.specs.Value.{Value};
ghost use Rattle.archive_forms_laws.proofs.Forms.{equivalences};
ghost use Rattle.archive_btree_maps.specs.MapComparing.{map_equality, IsPairAt, HasPairs};
ghost use Rattle.archive_btree_maps.specs.Maps.{HasMap};
ghost use Rattle.archive_btree_maps.specs.Calls.Comparing.{EqualsMap, EqualsPair, EqualsPairs};

use crate::map::ArchivedBTreeMap;
use crate::walking::Iter;
use archive_forms_comparing::ArchivedEq;
use archive_shape::Ref;

/// Checks whether the keys of two entries are equal, and their values.
fn equal_pair<K: ArchivedEq, V: ArchivedEq>(
    this: &(Ref<'_, K>, Ref<'_, V>),
    other: &(Ref<'_, K>, Ref<'_, V>),
) -> bool
    requires this { (p : Value) × IsPairAt K.shape V.shape K.knows V.knows this.now p }
    requires other { (p : Value) × IsPairAt K.shape V.shape K.knows V.knows other.now p }
    ensures { EqualsPair K.Portable V.Portable K.equal V.equal this.now other.now result }
{
    K::eq(&this.0, &other.0) && V::eq(&this.1, &other.1)
}

/// Checks whether two iterators have the same number of entries, and the entries are equal one by one.
fn equal_entries<K: ArchivedEq, V: ArchivedEq>(
    these: Iter<'_, K, V>,
    others: Iter<'_, K, V>,
) -> bool
    requires these { HasPairs K.shape V.shape K.knows V.knows these }
    requires others { HasPairs K.shape V.shape K.knows V.knows others }
    ensures { EqualsPairs K.Portable V.Portable K.equal V.equal these.entry others.entry result }
{
    if these.len() != others.len() {
        return false;
    }
    for (this, other) in these.zip(others) {
        if !equal_pair(&this, &other) {
            return false;
        }
    }
    true
}

/// Checks whether two maps are equal: whether they have the same number of pairs, and the pairs are equal one by one.
/// The nodes of the two may differ in size.
pub fn eq_map<K: ArchivedEq, V: ArchivedEq, const E: usize, const F: usize>(
    this: &Ref<'_, ArchivedBTreeMap<K, V, E>>,
    other: &Ref<'_, ArchivedBTreeMap<K, V, F>>,
) -> bool
    requires this { HasMap E K.shape V.shape K.knows V.knows this.now }
    requires other { HasMap F K.shape V.shape K.knows V.knows other.now }
    ensures { EqualsMap K.Portable V.Portable E F K.equal V.equal this.now other.now result }
{
    equal_entries(
        ArchivedBTreeMap::iter(*this),
        ArchivedBTreeMap::iter(*other),
    )
}

impl<K: ArchivedEq, V: ArchivedEq, const E: usize> ArchivedEq for ArchivedBTreeMap<K, V, E> {
    ghost equal = { map_equality K.equal V.equal };

    ghost is_equivalence = { equivalences.vectors _ (equivalences.tuples _ (equivalences.more_fields K.equal _ K.is_equivalence (equivalences.more_fields V.equal _ V.is_equivalence equivalences.no_fields))) };

    fn eq(
        this: &Ref<'_, ArchivedBTreeMap<K, V, E>>,
        other: &Ref<'_, ArchivedBTreeMap<K, V, E>>,
    ) -> bool {
        eq_map(this, other)
    }
}
