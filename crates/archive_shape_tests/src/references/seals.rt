//! Tests of what seals write.
ghost use Rattle.std.specs.Prelude.{◌≡◌, ◌+◌, ◌≤◌, length};
ghost use Rattle.std.specs.Int.{w64, to_le_bytes, cast_unsigned};
ghost use Rattle.archive_shape.specs.Bytes.{overwrite};

use archive_shape::{ArchivedI64, Seal};

// A caller that seals a number in a buffer knows the whole buffer afterwards.
fn set_number(bytes: &mut [u8], pos: usize, value: i64)
    requires { pos + 8 ≤ length bytes.old }
    ensures { bytes.new ≡ overwrite bytes.old pos (to_le_bytes w64 (cast_unsigned w64 value)) }
{
    Seal::<ArchivedI64>::new(bytes, pos).write(value);
}

#[test]
fn numbers_put_through_reborrowed_seals_stand_low_byte_first(rt: HostRuntime) {
    let mut bytes = [0u8; 12];
    set_number(&mut bytes, 2, 300);
    assert!(rt; bytes == [0, 0, 0x2c, 1, 0, 0, 0, 0, 0, 0, 0, 0]);
    let mut seal = Seal::<ArchivedI64>::new(&mut bytes, 2);
    let mut lent = seal.reborrow();
    let pos = lent.pos();
    lent.reborrow().put(-180);
    let whole = seal.as_ref();
    assert!(rt; pos == 2 && whole.pos() == 2);
    assert!(rt; whole.bytes().len() == 12 && whole.to_native() == -180);
    assert!(rt; bytes == [0, 0, 0x4c, 0xff, 0xff, 0xff, 0xff, 0xff, 0xff, 0xff, 0, 0]);
}
