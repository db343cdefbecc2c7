//! Printing maps as std's are printed: each key and its value, in the order of the keys.

use crate::map::ArchivedBTreeMap;
use archive_forms_comparing::ArchivedDebug;
use archive_shape::Ref;
use std::fmt;
use std::fmt::{Formatter, Write};

impl<K: ArchivedDebug, V: ArchivedDebug, const E: usize> ArchivedDebug
    for ArchivedBTreeMap<K, V, E> {
    fn fmt<W: Write>(
        this: &Ref<'_, ArchivedBTreeMap<K, V, E>>,
        f: &mut Formatter<W>,
    ) -> fmt::Result {
        f.write_str("{")?;
        let mut is_first = true;
        for (key, value) in ArchivedBTreeMap::iter(*this) {
            if !is_first {
                f.write_str(", ")?;
            }
            is_first = false;
            K::fmt(&key, f)?;
            f.write_str(": ")?;
            V::fmt(&value, f)?;
        }
        f.write_str("}")
    }
}
