//! Tests of values that are archived and read back: the results are equal to the values, or are the values.
ghost use Rattle.std.specs.Prelude.{◌≡◌, IsTrue, IfOk, MatchResult};
ghost use Rattle.archive_shape_layout.specs.declared.error.Error.TheVariants.{OutOfMemory};
ghost use Rattle.archive_forms.specs.Alike.{AlikeAreEqual, AlikeAreOne};
ghost use Rattle.archive_forms.specs.Faithful.{AreFaithful};
ghost use Rattle.archive_core.specs.Written.{MadeArchive};

use archive_core::laws::{
    alike_forms_are_equal, alike_forms_are_one, alike_leaves_are_one,
    alike_nonzero_numbers_are_one, alike_texts_are_equal, alike_tuples_are_equal, fault_refuses,
    forms_are_faithful, leaves_are_faithful, one_is_equal, read_back_is_equal, texts_are_faithful,
    tuples_are_faithful, unshared_is_accepted, unshared_is_read_back, unshared_suits,
};
use archive_core::{
    Archive, ArchivedChar, ArchivedNonZeroU16, ArchivedOption, ArchivedResult, ArchivedString,
    ArchivedTuple2, ArchivedU32, ArchivedVec, Error, Portable, ReadBack, access, deserialize,
    from_bytes, to_bytes,
};
use std::alloc::{AllocError, Global};
use std::num::NonZeroU16;
use std::test::Fail;

/// A number beside texts, if there are any.
type Listed = Option<(u32, Vec<String>)>;

type ArchivedListed = ArchivedOption<ArchivedTuple2<ArchivedU32, ArchivedVec<ArchivedString>>>;

/// A number that is not 0 beside two chars, or a truth value.
type Kept = Result<(NonZeroU16, [char; 2]), bool>;

type ArchivedKept = ArchivedResult<ArchivedTuple2<ArchivedNonZeroU16, [ArchivedChar; 2]>, bool>;

fn listed_are_faithful()
    ensures { AreFaithful ⟦<Listed as Archive>⟧ ⟦<ArchivedListed as ReadBack<Listed>>⟧ }
{
    leaves_are_faithful::<u32, ()>();
    texts_are_faithful();
    forms_are_faithful::<String, (), ArchivedString, (), 0>();
    tuples_are_faithful::<
        u32,
        Vec<String>,
        (),
        (),
        ArchivedU32,
        ArchivedVec<ArchivedString>,
        (),
        (),
    >();
    forms_are_faithful::<
        (u32, Vec<String>),
        (),
        ArchivedTuple2<ArchivedU32, ArchivedVec<ArchivedString>>,
        (),
        0,
    >();
}

fn alike_listed_are_equal()
    ensures { AlikeAreEqual ⟦<Listed as Archive>⟧.spelling ⟦<Listed as PartialEq>⟧.eq }
{
    alike_leaves_are_one::<()>();
    one_is_equal::<u32>();
    one_is_equal::<()>();
    alike_texts_are_equal();
    alike_forms_are_equal::<String, (), 0>();
    alike_tuples_are_equal::<u32, Vec<String>, (), ()>();
    alike_forms_are_equal::<(u32, Vec<String>), (), 0>();
}

/// Archives a number beside texts, and reads them back. The result is equal to what was archived.
fn archived_and_read(alloc: Global, listed: &Listed) -> Result<Listed, Error>
    ensures { IfOk result (λ read. IsTrue (⟦<Listed as PartialEq>⟧.eq listed.now read)) }
{
    listed_are_faithful();
    alike_listed_are_equal();
    read_back_is_equal::<Listed>();
    unshared_suits::<Listed>();
    let bytes = to_bytes(alloc, listed)?;
    let archive = bytes.as_slice();
    let read = from_bytes::<Listed>(alloc, archive)?;
    Ok(read)
}

fn kept_are_faithful()
    ensures { AreFaithful ⟦<Kept as Archive>⟧ ⟦<ArchivedKept as ReadBack<Kept>>⟧ }
{
    leaves_are_faithful::<NonZeroU16, ()>();
    leaves_are_faithful::<char, ()>();
    forms_are_faithful::<char, (), ArchivedChar, (), 2>();
    tuples_are_faithful::<
        NonZeroU16,
        [char; 2],
        (),
        (),
        ArchivedNonZeroU16,
        [ArchivedChar; 2],
        (),
        (),
    >();
    forms_are_faithful::<
        (NonZeroU16, [char; 2]),
        bool,
        ArchivedTuple2<ArchivedNonZeroU16, [ArchivedChar; 2]>,
        bool,
        0,
    >();
}

fn alike_kept_are_one()
    ensures { AlikeAreOne ⟦<Kept as Archive>⟧.spelling }
{
    alike_leaves_are_one::<()>();
    alike_nonzero_numbers_are_one();
    alike_forms_are_one::<char, (), (), (), 2>();
    alike_forms_are_one::<NonZeroU16, [char; 2], (), (), 0>();
    alike_forms_are_one::<(NonZeroU16, [char; 2]), bool, (), (), 0>();
}

/// Accesses what archiving a value made, and reads it back. The result is the value, except for `OutOfMemory`.
fn opened(alloc: Global, kept: &Kept, bytes: &[u8]) -> Result<Kept, Error>
    requires { MadeArchive ⟦<ArchivedKept as Portable>⟧.shape ⟦<ArchivedKept as Portable>⟧.knows
        ⟦<Kept as Archive>⟧.spelling kept.now bytes.now }
    ensures { MatchResult result (λ read. read ≡ kept.now) (λ e. e ≡ OutOfMemory) }
{
    kept_are_faithful();
    alike_kept_are_one();
    unshared_is_accepted::<Kept>();
    unshared_is_read_back::<Kept>();
    fault_refuses();
    let root = match access::<ArchivedKept>(alloc, bytes) {
        Ok(root) => root,
        Err(e) => return Err(e),
    };
    deserialize::<Kept, ArchivedKept>(alloc, &root)
}

/// Archives a value, and reads it back.
fn archived_and_opened(alloc: Global, kept: &Kept) -> Result<Kept, Error> {
    let bytes = to_bytes(alloc, kept)?;
    let archive = bytes.as_slice();
    opened(alloc, kept, archive)
}

fn two_texts(alloc: Global) -> Result<Listed, AllocError> {
    let mut texts = Vec::new(alloc);
    for text in ["a", "hello world"] {
        texts.push(String::from_str(alloc, text)?)?;
    }
    Ok(Some((7, texts)))
}

#[test]
fn what_is_read_back_of_texts_is_equal(rt: HostRuntime) -> Result<(), Fail> {
    let alloc = rt.alloc();
    let listed = two_texts(alloc)?;
    assert!(rt; archived_and_read(alloc, &listed)? == listed);
    assert!(rt; archived_and_read(alloc, &None)? == None);
    Ok(())
}

#[test]
fn what_is_read_back_of_leaves_is_the_value(rt: HostRuntime) -> Result<(), Fail> {
    for kept in [Ok((NonZeroU16::MAX, ['a', '\u{10ffff}'])), Err(true)] {
        assert!(rt; archived_and_opened(rt.alloc(), &kept)? == kept);
    }
    Ok(())
}
