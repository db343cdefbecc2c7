//! Prints archived index maps as std prints its maps: each key and its value, in the map's order.

use crate::map::ArchivedIndexMap;
use archive_forms_comparing::ArchivedDebug;
use archive_shape::Ref;
use std::fmt;
use std::fmt::{Formatter, Write};

impl<K: ArchivedDebug, V: ArchivedDebug, H> ArchivedDebug for ArchivedIndexMap<K, V, H> {
    fn fmt<W: Write>(
        this: &Ref<'_, ArchivedIndexMap<K, V, H>>,
        f: &mut Formatter<W>,
    ) -> fmt::Result {
        f.write_str("{")?;
        let mut is_first = true;
        for (key, value) in ArchivedIndexMap::iter(*this) {
            if !is_first {
                f.write_str(", ")?;
            }
            is_first = false;
            K::fmt(&key, f)?;
            f.write_str(": ")?;
            V::fmt(&value, f)?;
        }
        f.write_str("}")
    }
}
