//! Prints archived hash sets as std prints its sets.
ghost use Rattle.std.specs.Prelude.{All};
ghost use Rattle.archive_forms_values.specs.Parts.{HasValue};

use crate::set::{ArchivedHashSet, Iter};
use archive_forms_comparing::ArchivedDebug;
use archive_shape::Ref;
use std::fmt;
use std::fmt::{Formatter, Write};

/// Writes keys between braces.
fn fmt_keys<K: ArchivedDebug, W: Write>(keys: Iter<'_, K>, f: &mut Formatter<W>) -> fmt::Result
    requires { All (λ r. HasValue K.shape K.knows r.bytes.now r.pos) keys }
{
    f.write_str("{")?;
    let mut first = true;
    for key in keys {
        if !first {
            f.write_str(", ")?;
        }
        first = false;
        K::fmt(&key, f)?;
    }
    f.write_str("}")
}

impl<K: ArchivedDebug, H> ArchivedDebug for ArchivedHashSet<K, H> {
    fn fmt<W: Write>(this: &Ref<'_, ArchivedHashSet<K, H>>, f: &mut Formatter<W>) -> fmt::Result {
        fmt_keys(ArchivedHashSet::iter(*this), f)
    }
}
