//! The laws of archives and of all their parts. Each is a function without a body, whose contract is the law.
ghost use Rattle.archive_forms.specs.Alike.{AlikeAreEqual};
ghost use Rattle.archive_forms.specs.Faithful.{AreFaithful};
ghost use Rattle.archive_core.specs.Laws.{WrittenIsAccepted, ReadBackIsWritten, ReadBackIsEqual, UnsharedSuits, UnsharedIsAccepted, UnsharedIsReadBack, KeysStandApart};
ghost use Rattle.archive_core.specs.Roots.{RootIsReadable, RootIsWritten};
ghost use Rattle.archive_forms_writing.specs.Readable.{BoxedIsReadable, BoxedIsWritten, ElementsAreReadable, ElementsAreWritten, ErrIsReadable, ErrIsWritten, Fields2AreReadable, Fields2AreWritten, Fields3AreReadable, Fields3AreWritten, Fields4AreReadable, Fields4AreWritten, KeptIsReadable, KeptIsWritten, OkIsReadable, OkIsWritten, PartIsHeld, SeenIsReadable, SeenIsWritten, SomeIsReadable, SomeIsWritten};

pub use archive_core_validation::{nesting_is_bounded, unlimited_is_no_limit};
pub use archive_forms::laws::{
    alike_forms_are_equal, alike_forms_are_one, alike_leaves_are_one,
    alike_nonzero_numbers_are_one, alike_texts_are_equal, alike_tuples_are_equal,
    equal_values_are_hashed_alike, equalities_are_equivalences, forms_are_faithful, held_is_text,
    keyed_lists_are_written, leaf_spells, leaves_are_faithful, one_is_equal,
    one_present_is_written, one_text, optional_lists_are_written, orders_agree, orders_are_total,
    out_of_line_capacity, pairs_are_written, texts_are_faithful, texts_are_written,
    tuples_are_faithful, two_shared_is_written, written_once,
};
use archive_forms::{Archive, ReadBack};
pub use archive_shape::laws::{
    accepted_is_answered, alignments_are_small_powers, ascent_is_apart, ascent_splits,
    deep_child_is_refused, edit_of_leaf, edit_of_text, extent_is_claimed, fault_refuses, frame,
    held_leaf_is_read, illegal_is_refused, keys_of_one_value_are_alike, leaf_in_one_region,
    leaf_is_read, leaf_within, leaves_apart, legal_is_readable, named_is_known, one_fault,
    one_value, overwrite_spares, paths_join, root_is_found, root_regions, sealed_leaf, sealed_text,
    value_at_path, visits_stand,
};
pub use archive_shape_canonical::{
    avoiding_paths_join, canonical_edit_of_leaf, canonical_edit_of_text, canonical_frame,
    one_archive, tables_of_one_map, written_everywhere,
};

/// `access` accepts what `to_bytes` writes of a value, except for `OutOfMemory`: the buffer has the value at its root,
/// with regions that ascend and no limit of depth.
pub fn written_is_accepted<T: Archive>()
    ensures { WrittenIsAccepted T.Archived.shape T.Archived.knows T.spelling }
{}

/// What `from_bytes` reads back from what `to_bytes` wrote is what the value that was written is read back as. If forms
/// are faithful, this is a value that is archived as it, except for the positions of shared values.
pub fn read_back_is_written<T: Archive>()
where
    T::Archived: ReadBack<T>,
    ensures { ReadBackIsWritten T.Archived.shape T.Archived.knows T.spelling T.Archived.reads }
{}

/// Where no value of the archived type holds a shared pointer, each value suits the fit that binds nothing.
pub fn unshared_suits<T: Archive>()
    ensures { UnsharedSuits T.Archived.shape T.Archived.knows T.spelling }
{}

/// `access` accepts what `to_bytes` writes of such a value, except for `OutOfMemory`, with however many tables in it.
pub fn unshared_is_accepted<T: Archive>()
    ensures { UnsharedIsAccepted T.Archived.shape T.Archived.knows T.spelling }
{}

/// What `from_bytes` reads back from it is what the value that was written is read back as.
pub fn unshared_is_read_back<T: Archive>()
where
    T::Archived: ReadBack<T>,
    ensures { UnsharedIsReadBack T.Archived.shape T.Archived.knows T.spelling T.Archived.reads }
{}

/// What `from_bytes` reads back from what `to_bytes` wrote of a value is equal to the value, where its form is read back as
/// what was archived and values that are archived alike are equal.
pub fn read_back_is_equal<T: Archive + PartialEq>()
where
    T::Archived: ReadBack<T>,
    requires faithful { AreFaithful T.Archive T.Archived.ReadBack }
    requires alike { AlikeAreEqual T.spelling T.eq }
    ensures { ReadBackIsEqual T.Archived.shape T.Archived.knows T.spelling T.Archived.reads T.eq }
{}

/// Shared values with different keys have different positions, after the data of a value is written from a state in
/// which those written before it have.
pub fn keys_stand_apart<T: Archive>()
    ensures { KeysStandApart T.Archived.shape T.Archived.knows T.spelling }
{}

/// What `to_bytes` writes of a value is the value's data and, at the root, its own bytes.
pub fn root_is_written<T: Archive>()
    ensures written { RootIsWritten T.Archived.shape T.spelling }
    ensures readable { RootIsReadable T.Archived.shape T.spelling }
{}

/// Where a value is written that is archived as another, the other is written.
pub fn views_are_written<T: Archive, B, Q>()
    ensures seen { SeenIsWritten T.spelling B }
    ensures kept { KeptIsWritten T.spelling Q }
    ensures seen_readable { SeenIsReadable T.Archived.shape T.spelling B }
    ensures kept_readable { KeptIsReadable T.Archived.shape T.spelling Q }
{}

/// Where a tuple is written, each of its fields is, at its position.
pub fn fields_are_written<A: Archive, B: Archive, C: Archive, D: Archive>()
    ensures of_two { Fields2AreWritten A.Archived.shape A.spelling B.Archived.shape B.spelling }
    ensures of_three { Fields3AreWritten A.Archived.shape A.spelling B.Archived.shape B.spelling
        C.Archived.shape C.spelling }
    ensures of_four { Fields4AreWritten A.Archived.shape A.spelling B.Archived.shape B.spelling
        C.Archived.shape C.spelling D.Archived.shape D.spelling }
{}

/// Where a written tuple can be read, each of its fields can.
pub fn fields_are_readable<A: Archive, B: Archive, C: Archive, D: Archive>()
    ensures of_two { Fields2AreReadable A.Archived.shape A.spelling B.Archived.shape B.spelling
        A.Archived.knows B.Archived.knows }
    ensures of_three { Fields3AreReadable A.Archived.shape A.spelling B.Archived.shape B.spelling
        C.Archived.shape C.spelling A.Archived.knows B.Archived.knows C.Archived.knows }
    ensures of_four { Fields4AreReadable A.Archived.shape A.spelling B.Archived.shape B.spelling
        C.Archived.shape C.spelling D.Archived.shape D.spelling
        A.Archived.knows B.Archived.knows C.Archived.knows D.Archived.knows }
{}

/// Where a vector is written, each of its elements is, from where the vector leads on.
pub fn elements_are_written<T: Archive>()
    ensures written { ElementsAreWritten T.Archived.shape T.spelling }
    ensures readable { ElementsAreReadable T.Archived.shape T.spelling T.Archived.knows }
{}

/// Where an option is written that is some value, the value is.
pub fn some_is_written<T: Archive>()
    ensures written { SomeIsWritten T.Archived.shape T.spelling }
    ensures readable { SomeIsReadable T.Archived.shape T.spelling }
{}

/// Where a result is written, its value or its error is.
pub fn outcome_is_written<T: Archive, E: Archive>()
    ensures ok { OkIsWritten T.Archived.shape E.Archived.shape T.spelling E.spelling }
    ensures err { ErrIsWritten T.Archived.shape E.Archived.shape T.spelling E.spelling }
    ensures ok_readable { OkIsReadable T.Archived.shape E.Archived.shape T.spelling E.spelling }
    ensures err_readable { ErrIsReadable T.Archived.shape E.Archived.shape T.spelling E.spelling }
{}

/// Where a box is written, its value is, where the box leads.
pub fn boxed_is_written<T: Archive>()
    ensures written { BoxedIsWritten T.Archived.shape T.spelling }
    ensures readable { BoxedIsReadable T.Archived.shape T.spelling }
{}

/// Where a written value can be read, the layout has it.
pub fn part_is_held<T: Archive>()
    ensures { PartIsHeld T.Archived.shape T.Archived.knows T.spelling }
{}
