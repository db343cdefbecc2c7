//! Tests of what seals of a value's own bytes write.
ghost use Rattle.std.specs.Prelude.{◌≡◌, length};
ghost use Rattle.std.specs.Int.{w64, to_le_bytes, cast_unsigned};

use archive_shape::{ArchivedI64, ArchivedU16, OwnSeal, Str};

// A caller that seals a number's own bytes knows them afterwards.
fn set_own_number(own: &mut [u8], pos: usize, value: i64)
    requires { length own.old ≡ 8 }
    ensures { own.new ≡ to_le_bytes w64 (cast_unsigned w64 value) }
{
    OwnSeal::<ArchivedI64>::new(own, pos).write(value);
}

#[test]
fn own_numbers_are_written_and_put(rt: HostRuntime) {
    let mut bytes = [9u8; 8];
    set_own_number(&mut bytes, 33, 300);
    assert!(rt; bytes == [0x2c, 1, 0, 0, 0, 0, 0, 0]);
    let mut number = OwnSeal::<ArchivedI64>::new(&mut bytes, 33);
    number.put(-180);
    assert!(rt; number.pos() == 33 && number.as_ref().pos() == 0);
}

#[test]
fn own_texts_are_put_and_written(rt: HostRuntime) {
    let mut bytes = [9u8; 3];
    let mut text = OwnSeal::<Str>::new(&mut bytes, 33);
    text.put_text("abc");
    let mut again = text.reborrow();
    let mut third = again.reborrow();
    third.put_text("pqr");
    let positions = (third.pos(), again.pos(), text.pos());
    assert!(rt; positions == (33, 33, 33) && bytes == *b"pqr");
    let mut empty = [9u8; 0];
    OwnSeal::<Str>::new(&mut empty, 33).put_text("");
    let mut own = [9u8; 2];
    OwnSeal::<Str>::new(&mut own, 32).write_text("ab");
    assert!(rt; own == *b"ab");
}

#[test]
fn what_is_put_through_a_reborrowed_seal_is_read_through_the_lending_one(rt: HostRuntime) {
    let mut own = [9u8; 2];
    let mut number = OwnSeal::<ArchivedU16>::new(&mut own, 34);
    let mut lent = number.reborrow();
    lent.put(0x0807);
    let pos = number.pos();
    let own_bytes = number.as_ref();
    assert!(rt; own_bytes.bytes().len() == 2 && own_bytes.to_native() == 0x0807);
    assert!(rt; pos == 34 && own == [7, 8]);
}
