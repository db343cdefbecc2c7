//! The native values of numbers, truth values and chars.
ghost use Rattle.archive_forms_values.specs.Parts.{HasValue};
ghost use Rattle.archive_forms_values.specs.Calls.Reading.{ReadsValue};

use archive_shape::{ArchivedLeaf, Ref};

/// Returns the native value of the leaf that `this` refers to.
pub fn native_of<L: ArchivedLeaf>(this: Ref<'_, L>) -> L::Native
    requires { HasValue L.shape L.knows this.bytes.now this.pos }
    ensures { ReadsValue L.shape L.knows this.entry (L.value_of result) }
{
    this.to_native()
}
