//! Printing sets as sets of std are printed.
ghost use Rattle.std.specs.Prelude.{All};
ghost use Rattle.archive_forms_values.specs.Parts.{HasValue};

use crate::set::{ArchivedBTreeSet, Iter};
use archive_forms_comparing::ArchivedDebug;
use archive_shape::Ref;
use std::fmt;
use std::fmt::{Formatter, Write};

/// Writes keys between braces.
fn fmt_keys<K: ArchivedDebug, W: Write>(keys: Iter<'_, K>, f: &mut Formatter<W>) -> fmt::Result
    requires { All (λ r. HasValue K.shape K.knows r.bytes.now r.pos) keys }
{
    f.write_str("{")?;
    let mut first = true;
    for key in keys {
        if !first {
            f.write_str(", ")?;
        }
        first = false;
        K::fmt(&key, f)?;
    }
    f.write_str("}")
}

impl<K: ArchivedDebug, const E: usize> ArchivedDebug for ArchivedBTreeSet<K, E> {
    fn fmt<W: Write>(this: &Ref<'_, ArchivedBTreeSet<K, E>>, f: &mut Formatter<W>) -> fmt::Result {
        fmt_keys(ArchivedBTreeSet::iter(*this), f)
    }
}
