//! Tests of where the parts of written values lie.
ghost use Rattle.std.specs.Prelude.{◌≡◌, ◌+◌, length, IfOk};
ghost use Rattle.std.specs.Int.{w32, to_le_bytes};
ghost use Rattle.archive_shape_layout.specs.Content.{Names};
ghost use Rattle.archive_shape_layout.specs.Holds.{root_position};
ghost use Rattle.archive_shape.specs.Bytes.{HasBytes};
ghost use Rattle.archive_forms_laws.specs.State.{Keys};
ghost use Rattle.archive_forms_laws.specs.WrittenAt.{IsReadableAt};
ghost use Rattle.archive_forms_values.specs.Parts.{HasValue};
ghost use Rattle.archive_core_tests.specs.Forms.{boxed_shape, KnowsBoxed, pair_shape};

use archive_core::laws::{
    boxed_is_written, fields_are_written, outcome_is_written, part_is_held, root_is_written,
    some_is_written,
};
use archive_core::{
    Archive, ArchivedBox, ArchivedOption, ArchivedResult, ArchivedU64, Error, Ref, access,
    native_of, to_bytes,
};
use std::alloc::Global;
use std::test::Fail;

/// A number in a box, if there is one, or a fault.
type Boxed = Result<Option<Box<u64>>, u8>;

type ArchivedBoxed = ArchivedResult<ArchivedOption<ArchivedBox<ArchivedU64>>, u8>;

/// Returns the number in the box, if there is one: the one that was written.
fn number_in(root: Ref<'_, ArchivedBoxed>) -> Option<u64>
    requires { HasValue boxed_shape KnowsBoxed root.bytes.now root.pos }
    ensures { (names : Names) (keys : Keys) (boxed : _)
        → IsReadableAt names keys boxed_shape ⟦<Boxed as Archive>⟧.spelling
        root.entry.bytes.now root.entry.pos (Ok (Some boxed))
        → result ≡ Some boxed.value }
{
    outcome_is_written::<Option<Box<u64>>, u8>();
    some_is_written::<Box<u64>>();
    boxed_is_written::<u64>();
    part_is_held::<Boxed>();
    part_is_held::<u64>();
    match ArchivedResult::as_ref(root) {
        Ok(option) => match ArchivedOption::as_ref(option) {
            Some(boxed) => Some(native_of(ArchivedBox::get(boxed))),
            None => None,
        },
        Err(_) => None,
    }
}

/// Archives a number in a box in an option in a result, and returns what is read where it lies.
fn archived_and_found(alloc: Global, number: u64) -> Result<Option<u64>, Error>
    ensures { IfOk result (λ found. found ≡ Some number) }
{
    let inner = Box::new(alloc, number)?;
    let boxed: Boxed = Ok(Some(inner));
    root_is_written::<Boxed>();
    let bytes = to_bytes(alloc, &boxed)?;
    let archive = bytes.as_slice();
    let root = access::<ArchivedBoxed>(alloc, archive)?;
    Ok(number_in(root))
}

/// Archives a pair. The bytes of the second number lie at its position in the root.
fn archived_pair(alloc: Global, pair: &(u16, u32)) -> Result<Vec<u8>, Error>
    ensures { IfOk result (λ bytes. HasBytes bytes.items (root_position (length bytes.items) pair_shape + 4)
        (to_le_bytes w32 pair.now.1)) }
{
    root_is_written::<(u16, u32)>();
    fields_are_written::<u16, u32, (), ()>();
    to_bytes(alloc, pair)
}

#[test]
fn a_number_is_found_in_a_box_in_an_option_in_a_result(rt: HostRuntime) {
    assert!(rt; archived_and_found(rt.alloc(), 7) == Ok(Some(7)));
}

#[test]
fn the_second_number_of_a_pair_lies_behind_the_first(rt: HostRuntime) -> Result<(), Fail> {
    let bytes = archived_pair(rt.alloc(), &(1, 0x0d0c_0b0a))?;
    assert!(rt; bytes.as_slice() == b"\x01\0\0\0\x0a\x0b\x0c\x0d".as_slice());
    Ok(())
}
