//! The texts of an archive that is loaded, and those that are shared.
ghost use Rattle.std.specs.Prelude.{◌≡◌, ◌≢◌, ℕ, false, List, [], IfOk, OnErr, string_bytes, ⊤};
ghost use Rattle.std.specs.Rc.{rc_str_bytes};
ghost use Rattle.archive_shape_layout.specs.Bytes.{window};
ghost use Rattle.archive_shape_layout.specs.Shape.Shape.{shared};
ghost use Rattle.archive_shape_layout.specs.Shape.Pointee.{str};
ghost use Rattle.archive_forms_rc.specs.Pointers.{HasCounted, IsRcStrAt};
ghost use Rattle.cabinet_archives.specs.Loading.{AreReadOf};

use archive_forms_rc::{ArchivedRcStr, RcFlavor};
use archive_forms_values::target_of;
use archive_shape::Ref;
use cabinet_text_nodes::SharedTexts;
use std::alloc::{AllocError, Global};
use std::collections::BTreeMap;
use std::rc::RcStr;

/// Returns a copy of a text. It takes no memory for one without bytes.
pub(crate) fn copy_of(alloc: Global, text: &str) -> Result<String, AllocError>
    ensures copy { IfOk result (λ copy. string_bytes copy ≡ text.now) }
    ensures memory { OnErr result (text.now ≢ []) }
{
    if text.is_empty() {
        return Ok(String::new(alloc));
    }
    String::from_str(alloc, text)
}

/// The shared texts that were read, by the position and the length of their bytes. So a text to which many pointers lead
/// is read once, and equal texts at different positions become one.
#[derive(Drop)]
pub(crate) struct LoadedTexts {
    read: BTreeMap<(usize, usize), RcStr>,
    texts: SharedTexts,
}

impl LoadedTexts {
    /// Creates a table without texts. It does not allocate.
    pub(crate) fn new(alloc: Global) -> Self
        ensures { (bytes : List ℕ) → AreReadOf bytes result }
    {
        LoadedTexts {
            read: BTreeMap::new(alloc),
            texts: SharedTexts::new(alloc),
        }
    }

    /// Keeps a text that was read at a place. Without memory it is not kept, and read again at the next pointer to it.
    fn keep(&mut self, place: (usize, usize), text: RcStr)
        ensures { (bytes : List ℕ) → AreReadOf bytes self.old
            → rc_str_bytes text ≡ window bytes place.0 place.1 → AreReadOf bytes self.new }
    {
        let _kept = self.read.insert(place, text);
    }

    /// Returns the text that a pointer leads to.
    pub(crate) fn read(
        &mut self,
        alloc: Global,
        pointer: Ref<'_, ArchivedRcStr<RcFlavor>>,
    ) -> Result<RcStr, AllocError>
        requires there { HasCounted false str (λ _. ⊤) pointer.bytes.now pointer.pos }
        requires kept { AreReadOf pointer.bytes.now self.old }
        ensures text { IfOk result (λ text. (to len : ℕ)
            × IsRcStrAt false pointer.entry.bytes.now pointer.entry.pos to len
            × (rc_str_bytes text ≡ window pointer.entry.bytes.now to len)) }
        ensures keeps { IfOk result (λ _. AreReadOf pointer.entry.bytes.now self.new) }
    {
        let text = ArchivedRcStr::get(pointer);
        let place = (target_of(pointer.bytes, pointer.pos), text.len());
        if let Some(shared) = self.read.get(&place) {
            return shared.clone();
        }
        let shared = self.texts.share(alloc, text)?;
        if let Ok(kept) = shared.clone() {
            self.keep(place, kept);
        }
        Ok(shared)
    }
}
