//! The laws of forms that are read back as what was archived. Each is a function without a body, whose contract is the
//! law.
ghost use Rattle.archive_forms_laws.specs.Forms.{leaf_spelling};
ghost use Rattle.archive_forms.specs.Faithful.{IsFaithful, AreFaithful};

use crate::deserializing::ReadBack;
use archive_forms_rc::{
    ArchivedRc, ArchivedRcSlice, ArchivedRcStr, ArchivedRcWeak, ArchivedRcWeakSlice,
    ArchivedRcWeakStr, RcFlavor, Shared, SharedWeak,
};
use archive_forms_values::{
    ArchivedBox, ArchivedBoxedSlice, ArchivedBoxedStr, ArchivedOption, ArchivedResult,
    ArchivedString, ArchivedTuple1, ArchivedTuple2, ArchivedTuple3, ArchivedTuple4, ArchivedVec,
};
use archive_forms_writing::{Archive, Leaf};
use archive_shape::{ArchivedIsize, ArchivedUsize, LittleEndian, Native};
use std::boxed::{BoxedSlice, BoxedStr};
use std::marker::PhantomData;
use std::num::{NonZeroI8, NonZeroU8};
use std::rc::{Rc, RcSlice, RcStr};

/// A form whose parts are read back as they were archived is read back so too: the result is archived as the value that
/// it was read from. Only maps can be read back as different ones, because in untrusted bytes their keys may be equal
/// or in no order.
pub fn forms_are_faithful<T: Archive, U: Archive, A: ReadBack<T>, B: ReadBack<U>, const N: usize>()
    requires first { AreFaithful T.Archive A.ReadBack }
    requires second { AreFaithful U.Archive B.ReadBack }
    ensures options { AreFaithful ⟦<Option<T> as Archive>⟧
        ⟦<ArchivedOption<A> as ReadBack<Option<T>>>⟧ }
    ensures results { AreFaithful ⟦<Result<T, U> as Archive>⟧
        ⟦<ArchivedResult<A, B> as ReadBack<Result<T, U>>>⟧ }
    ensures boxes { AreFaithful ⟦<Box<T> as Archive>⟧ ⟦<ArchivedBox<A> as ReadBack<Box<T>>>⟧ }
    ensures vectors { AreFaithful ⟦<Vec<T> as Archive>⟧ ⟦<ArchivedVec<A> as ReadBack<Vec<T>>>⟧ }
    ensures boxed_slices { AreFaithful ⟦<BoxedSlice<T> as Archive>⟧
        ⟦<ArchivedBoxedSlice<A> as ReadBack<BoxedSlice<T>>>⟧ }
    ensures arrays { AreFaithful ⟦<[T; N] as Archive>⟧ ⟦<[A; N] as ReadBack<[T; N]>>⟧ }
    ensures counted { AreFaithful ⟦<Shared<Rc<T>> as Archive>⟧
        ⟦<ArchivedRc<A, RcFlavor> as ReadBack<Shared<Rc<T>>>>⟧ }
    ensures counted_slices { AreFaithful ⟦<Shared<RcSlice<T>> as Archive>⟧
        ⟦<ArchivedRcSlice<A, RcFlavor> as ReadBack<Shared<RcSlice<T>>>>⟧ }
    ensures weak { AreFaithful ⟦<SharedWeak<Rc<T>> as Archive>⟧
        ⟦<ArchivedRcWeak<A, RcFlavor> as ReadBack<SharedWeak<Rc<T>>>>⟧ }
    ensures weak_slices { AreFaithful ⟦<SharedWeak<RcSlice<T>> as Archive>⟧
        ⟦<ArchivedRcWeakSlice<A, RcFlavor> as ReadBack<SharedWeak<RcSlice<T>>>>⟧ }
{}

/// So is a tuple of fields that are.
pub fn tuples_are_faithful<
    T: Archive,
    U: Archive,
    V: Archive,
    W: Archive,
    A: ReadBack<T>,
    B: ReadBack<U>,
    C: ReadBack<V>,
    D: ReadBack<W>,
>()
    requires first { AreFaithful T.Archive A.ReadBack }
    requires second { AreFaithful U.Archive B.ReadBack }
    requires third { AreFaithful V.Archive C.ReadBack }
    requires fourth { AreFaithful W.Archive D.ReadBack }
    ensures of_one { AreFaithful ⟦<(T,) as Archive>⟧ ⟦<ArchivedTuple1<A> as ReadBack<(T,)>>⟧ }
    ensures of_two { AreFaithful ⟦<(T, U) as Archive>⟧ ⟦<ArchivedTuple2<A, B> as ReadBack<(T, U)>>⟧ }
    ensures of_three { AreFaithful ⟦<(T, U, V) as Archive>⟧
        ⟦<ArchivedTuple3<A, B, C> as ReadBack<(T, U, V)>>⟧ }
    ensures of_four { AreFaithful ⟦<(T, U, V, W) as Archive>⟧
        ⟦<ArchivedTuple4<A, B, C, D> as ReadBack<(T, U, V, W)>>⟧ }
{}

/// Numbers, truth values, chars and values without bytes are read back as what was archived.
pub fn leaves_are_faithful<N: Native + Leaf<Archived = LittleEndian<N>>, T>()
    ensures numbers { IsFaithful (leaf_spelling N.Native.shape N.Native.bytes_of N.Native.value_of)
        ⟦<LittleEndian<N> as ReadBack<N>>⟧.reads }
    ensures truths { AreFaithful ⟦<bool as Archive>⟧ ⟦<bool as ReadBack<bool>>⟧ }
    ensures unsigned { AreFaithful ⟦<u8 as Archive>⟧ ⟦<u8 as ReadBack<u8>>⟧ }
    ensures signed { AreFaithful ⟦<i8 as Archive>⟧ ⟦<i8 as ReadBack<i8>>⟧ }
    ensures unsigned_nonzero { AreFaithful ⟦<NonZeroU8 as Archive>⟧
        ⟦<NonZeroU8 as ReadBack<NonZeroU8>>⟧ }
    ensures signed_nonzero { AreFaithful ⟦<NonZeroI8 as Archive>⟧ ⟦<NonZeroI8 as ReadBack<NonZeroI8>>⟧ }
    ensures unsigned_sizes { AreFaithful ⟦<usize as Archive>⟧ ⟦<ArchivedUsize as ReadBack<usize>>⟧ }
    ensures signed_sizes { AreFaithful ⟦<isize as Archive>⟧ ⟦<ArchivedIsize as ReadBack<isize>>⟧ }
    ensures units { AreFaithful ⟦<() as Archive>⟧ ⟦<() as ReadBack<()>>⟧ }
    ensures phantoms { AreFaithful ⟦<PhantomData<T> as Archive>⟧
        ⟦<PhantomData<T> as ReadBack<PhantomData<T>>>⟧ }
{}

/// Texts are read back as what was archived, by value, in a box, shared and through weak pointers.
pub fn texts_are_faithful()
    ensures texts { AreFaithful ⟦<String as Archive>⟧ ⟦<ArchivedString as ReadBack<String>>⟧ }
    ensures boxed { AreFaithful ⟦<BoxedStr as Archive>⟧ ⟦<ArchivedBoxedStr as ReadBack<BoxedStr>>⟧ }
    ensures counted { AreFaithful ⟦<Shared<RcStr> as Archive>⟧
        ⟦<ArchivedRcStr<RcFlavor> as ReadBack<Shared<RcStr>>>⟧ }
    ensures weak { AreFaithful ⟦<SharedWeak<RcStr> as Archive>⟧
        ⟦<ArchivedRcWeakStr<RcFlavor> as ReadBack<SharedWeak<RcStr>>>⟧ }
{}
