//! Counted pointers to texts are read back.
ghost use Rattle.std.specs.Prelude.{false, IfOk, ⊤};
ghost use Rattle.std.specs.Rc.{rc_str_bytes};
ghost use Rattle.archive_shape_layout.specs.Shape.Shape.{shared};
ghost use Rattle.archive_shape_layout.specs.Shape.Pointee.{str};
ghost use Rattle.archive_forms_values.specs.Parts.{HasValue};
ghost use Rattle.archive_forms_rc.specs.Counted.{shared_str_rc_spelling};
ghost use Rattle.archive_forms.specs.Reading.{reads_as};
ghost use Rattle.archive_forms.specs.Calls.Pointers.{DeserializesRcStr, HasRcStrKey};
ghost use Rattle.archive_forms.specs.Calls.Pools.{text_pool_of, StaysOf, IsPooled, Reuses};

use crate::deserializing::keeping::keep_clone;
use crate::deserializing::{Deserialize, Keeps, ReadBack, SharedPool};
use archive_forms_rc::{ArchivedRcStr, RcFlavor, Shared};
use archive_forms_values::target_of;
use archive_shape::{Error, Ref, Str};
use std::alloc::Global;
use std::rc::RcStr;

/// Reads a counted pointer to a text back. Its key is the position of the text. A text that the deserializer keeps is
/// not read again.
pub fn deserialize_rc_str<D: Keeps<RcStr, Str>>(
    this: Ref<'_, ArchivedRcStr<RcFlavor>>,
    alloc: Global,
    deserializer: &mut D,
) -> Result<Shared<RcStr>, Error>
    requires there { HasValue (shared false str) (λ _. ⊤) this.bytes.now this.pos }
    requires kept { D.is_of deserializer.old this.bytes.now }
    ensures value { DeserializesRcStr this.entry result }
    ensures key { IfOk result (HasRcStrKey this.entry) }
    ensures keeps { IfOk result (λ _. D.is_of deserializer.new this.entry.bytes.now) }
    ensures pooled { IfOk result (IsPooled rc_str_bytes (D.kept deserializer.new)) }
    ensures unread { IfOk result (Reuses rc_str_bytes D.kept deserializer.old deserializer.new) }
{
    let key = target_of(this.bytes, this.pos);
    let text = ArchivedRcStr::get(this);
    if let Some(value) = deserializer.clone_kept(key)? {
        if value.len() == text.len() {
            return Ok(Shared { key, value });
        }
    }
    let value = match RcStr::from_str(alloc, text) {
        Ok(value) => value,
        Err(_) => return Err(Error::OutOfMemory),
    };
    let value = keep_clone::<RcStr, Str, D>(deserializer, key, value)?;
    Ok(Shared { key, value })
}

impl ReadBack<Shared<RcStr>> for ArchivedRcStr<RcFlavor> {
    ghost reads = { reads_as shared_str_rc_spelling };
}

impl Deserialize<Shared<RcStr>> for ArchivedRcStr<RcFlavor> {
    type Pool = SharedPool<RcStr, Str, ()>;

    fn deserialize(
        this: &Ref<'_, ArchivedRcStr<RcFlavor>>,
        alloc: Global,
        deserializer: &mut SharedPool<RcStr, Str, ()>,
    ) -> Result<Shared<RcStr>, Error>
        requires there { HasValue (shared false str) (λ _. ⊤) this.now.bytes.now this.now.pos }
        requires kept { text_pool_of deserializer.old this.now.bytes.now }
        ensures value { DeserializesRcStr this.now result }
        ensures key { IfOk result (HasRcStrKey this.now) }
        ensures keeps { StaysOf text_pool_of deserializer.new this.now result }
    {
        deserialize_rc_str(*this, alloc, deserializer)
    }
}
