//! Prints archived index sets as std prints its sets: each key, in the set's order.
ghost use Rattle.std.specs.Prelude.{All};
ghost use Rattle.archive_forms_values.specs.Parts.{HasValue};

use crate::map::Keys;
use crate::set::ArchivedIndexSet;
use archive_forms_comparing::ArchivedDebug;
use archive_shape::Ref;
use std::fmt;
use std::fmt::{Formatter, Write};

/// Writes keys between braces.
fn fmt_keys<K: ArchivedDebug, W: Write>(keys: Keys<'_, K, ()>, f: &mut Formatter<W>) -> fmt::Result
    requires { All (λ r. HasValue K.shape K.knows r.bytes.now r.pos) keys }
{
    f.write_str("{")?;
    let mut is_first = true;
    for key in keys {
        if !is_first {
            f.write_str(", ")?;
        }
        is_first = false;
        K::fmt(&key, f)?;
    }
    f.write_str("}")
}

impl<K: ArchivedDebug, H> ArchivedDebug for ArchivedIndexSet<K, H> {
    fn fmt<W: Write>(this: &Ref<'_, ArchivedIndexSet<K, H>>, f: &mut Formatter<W>) -> fmt::Result {
        fmt_keys(ArchivedIndexSet::iter(*this), f)
    }
}
