//! Tests of the places that values are written to.
ghost use Rattle.std.specs.Prelude.{◌≡◌, ◌+◌, ◌<◌, ◌≤◌, ◌^◌, [], ◌∷◌, length};
ghost use Rattle.std.specs.Int.{w64, to_le_bytes, cast_unsigned};
ghost use Rattle.archive_shape.specs.Bytes.{overwrite};

use archive_shape::{ArchivedI64, ArchivedU16, Place};

// A caller that writes a field knows the whole struct afterwards.
fn write_field(out: &mut [u8], pos: usize, number: i64)
    requires room { 16 ≤ length out.old }
    requires fits { pos + 8 < 2 ^ 64 }
    ensures { out.new ≡ overwrite out.old 8 (to_le_bytes w64 (cast_unsigned w64 number)) }
{
    Place::<ArchivedI64>::within(out, 8, pos + 8).write(number);
}

// So does one that writes two fields.
fn write_two_bytes(out: &mut [u8], pos: usize, first: u8, second: u8)
    requires room { 2 ≤ length out.old }
    requires fits { pos + 1 < 2 ^ 64 }
    ensures { out.new ≡ overwrite (overwrite out.old 0 (first ∷ [])) 1 (second ∷ []) }
{
    Place::<u8>::new(&mut *out, pos).write(first);
    Place::<u8>::within(out, 1, pos + 1).write(second);
}

#[test]
fn fields_are_written_in_place(rt: HostRuntime) {
    let mut bytes = [0u8; 16];
    write_two_bytes(&mut bytes, 32, 7, 0);
    write_field(&mut bytes, 32, -2);
    let want = *b"\x07\0\0\0\0\0\0\0\xfe\xff\xff\xff\xff\xff\xff\xff";
    assert!(rt; bytes == want);
    Place::<(u8, ArchivedI64)>::new(&mut bytes, 32)
        .field::<u8>(0)
        .write(5);
    let number = bytes[0];
    Place::<bool>::within(&mut bytes, 0, 0).write(false);
    assert!(rt; number == 5 && bytes[0] == 0);
}

#[test]
fn elements_are_written_up_to_both_ends(rt: HostRuntime) {
    let mut bytes = [0u8; 6];
    let last = Place::<[ArchivedU16; 3]>::new(&mut bytes, 32).index(2);
    let end = last.pos();
    last.write(0x0605);
    let first = Place::<[ArchivedU16; 3]>::new(&mut bytes, 32).index(0);
    let start = first.pos();
    first.write(0x0201);
    assert!(rt; (start, end) == (32, 36) && bytes == [1, 2, 0, 0, 5, 6]);
}
