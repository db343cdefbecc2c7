//! Weak pointers to texts are read back.
ghost use Rattle.std.specs.Prelude.{false, IfOk, ⊤};
ghost use Rattle.std.specs.Rc.{rc_str_bytes};
ghost use Rattle.archive_shape_layout.specs.Shape.Shape.{weak};
ghost use Rattle.archive_shape_layout.specs.Shape.Pointee.{str};
ghost use Rattle.archive_forms_rc.specs.Counted.{shared_str_rc_spelling};
ghost use Rattle.archive_forms_values.specs.Parts.{HasValue};
ghost use Rattle.archive_forms.specs.Reading.{reads_as};
ghost use Rattle.archive_forms.specs.Weak.{reads_weak};
ghost use Rattle.archive_forms.specs.Calls.Pointers.{DeserializesRcWeakStr, HasRcWeakStrKey};
ghost use Rattle.archive_forms.specs.Calls.Pools.{text_pool_of, StaysOf, IsPooled, IfLed, Reuses};

use crate::deserializing::{Deserialize, Keeps, ReadBack, SharedPool, deserialize_rc_str};
use archive_forms_rc::{ArchivedRcStr, ArchivedRcWeakStr, RcFlavor, SharedWeak};
use archive_shape::{Error, Ref, Str};
use std::alloc::Global;
use std::rc::RcStr;

/// Reads a weak pointer to a text back. The key is the position of the text, as that of counted pointers to the text
/// is. A text that the deserializer keeps is not read again.
pub fn deserialize_rc_weak_str<D: Keeps<RcStr, Str>>(
    this: Ref<'_, ArchivedRcWeakStr<RcFlavor>>,
    alloc: Global,
    deserializer: &mut D,
) -> Result<SharedWeak<RcStr>, Error>
    requires there { HasValue (weak false str) (λ _. ⊤) this.bytes.now this.pos }
    requires kept { D.is_of deserializer.old this.bytes.now }
    ensures value { DeserializesRcWeakStr this.entry result }
    ensures key { IfOk result (HasRcWeakStrKey this.entry) }
    ensures keeps { IfOk result (λ _. D.is_of deserializer.new this.entry.bytes.now) }
    ensures pooled { IfOk result (IfLed (IsPooled rc_str_bytes (D.kept deserializer.new))) }
    ensures unread { IfOk result (IfLed (Reuses rc_str_bytes D.kept deserializer.old deserializer.new)) }
{
    let Some(_) = ArchivedRcWeakStr::upgrade(this) else {
        return Ok(SharedWeak { shared: None });
    };
    let pointer = Ref::<ArchivedRcStr<RcFlavor>>::new(this.bytes, this.pos + 4);
    let shared = deserialize_rc_str(pointer, alloc, deserializer)?;
    Ok(SharedWeak {
        shared: Some(shared),
    })
}

impl ReadBack<SharedWeak<RcStr>> for ArchivedRcWeakStr<RcFlavor> {
    ghost reads = { reads_weak (reads_as shared_str_rc_spelling) };
}

impl Deserialize<SharedWeak<RcStr>> for ArchivedRcWeakStr<RcFlavor> {
    type Pool = SharedPool<RcStr, Str, ()>;

    fn deserialize(
        this: &Ref<'_, ArchivedRcWeakStr<RcFlavor>>,
        alloc: Global,
        deserializer: &mut SharedPool<RcStr, Str, ()>,
    ) -> Result<SharedWeak<RcStr>, Error>
        requires there { HasValue (weak false str) (λ _. ⊤) this.now.bytes.now this.now.pos }
        requires kept { text_pool_of deserializer.old this.now.bytes.now }
        ensures value { DeserializesRcWeakStr this.now result }
        ensures key { IfOk result (HasRcWeakStrKey this.now) }
        ensures keeps { StaysOf text_pool_of deserializer.new this.now result }
    {
        deserialize_rc_weak_str(*this, alloc, deserializer)
    }
}
