//! Counted pointers of flavors that forbid cycles are printed as the values that they lead to, and weak pointers of
//! each flavor as `(Weak)`.

use crate::parts::{rc_elements, rc_text, rc_value};
use crate::{
    Acyclic, ArchivedRc, ArchivedRcSlice, ArchivedRcStr, ArchivedRcWeak, ArchivedRcWeakSlice,
    ArchivedRcWeakStr, Flavor,
};
use archive_forms_comparing::{ArchivedDebug, fmt_elements};
use archive_shape::{Portable, Ref};
use std::fmt;
use std::fmt::{Debug, Formatter, Write};

impl<T: ArchivedDebug, L: Acyclic> ArchivedDebug for ArchivedRc<T, L> {
    fn fmt<W: Write>(this: &Ref<'_, ArchivedRc<T, L>>, f: &mut Formatter<W>) -> fmt::Result {
        T::fmt(&rc_value(this), f)
    }
}

impl<T: ArchivedDebug, L: Acyclic> ArchivedDebug for ArchivedRcSlice<T, L> {
    fn fmt<W: Write>(this: &Ref<'_, ArchivedRcSlice<T, L>>, f: &mut Formatter<W>) -> fmt::Result {
        fmt_elements(&rc_elements(this), f)
    }
}

impl<L: Acyclic> ArchivedDebug for ArchivedRcStr<L> {
    fn fmt<W: Write>(this: &Ref<'_, ArchivedRcStr<L>>, f: &mut Formatter<W>) -> fmt::Result {
        Debug::fmt(&rc_text(this), f)
    }
}

impl<T: Portable, L: Flavor> ArchivedDebug for ArchivedRcWeak<T, L> {
    fn fmt<W: Write>(_this: &Ref<'_, ArchivedRcWeak<T, L>>, f: &mut Formatter<W>) -> fmt::Result {
        f.write_str("(Weak)")
    }
}

impl<T: Portable, L: Flavor> ArchivedDebug for ArchivedRcWeakSlice<T, L> {
    fn fmt<W: Write>(
        _this: &Ref<'_, ArchivedRcWeakSlice<T, L>>,
        f: &mut Formatter<W>,
    ) -> fmt::Result {
        f.write_str("(Weak)")
    }
}

impl<L: Flavor> ArchivedDebug for ArchivedRcWeakStr<L> {
    fn fmt<W: Write>(_this: &Ref<'_, ArchivedRcWeakStr<L>>, f: &mut Formatter<W>) -> fmt::Result {
        f.write_str("(Weak)")
    }
}
