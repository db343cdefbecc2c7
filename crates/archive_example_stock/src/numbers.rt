//! The numbers that look-ups in archived maps found.
ghost use Rattle.std.specs.Prelude.{IfSome};
ghost use Rattle.archive_forms_values.specs.Parts.{HasValue};
ghost use Rattle.archive_example_stock.specs.Stock.{number_shape, any};
ghost use Rattle.archive_example_stock.specs.Answers.{ReturnsNumber};

use archive_core::laws::part_is_held;
use archive_core::{ArchivedU32, Ref, native_of};

/// Returns the number that a look-up found, if it found one: that of the first entry with the key.
pub fn number_found<K>(found: Option<Ref<'_, ArchivedU32>>) -> Option<u32>
    requires { IfSome found (λ number. HasValue number_shape any number.bytes.now number.pos) }
    ensures { ReturnsNumber K found.entry result }
{
    part_is_held::<u32>();
    match found {
        Some(number) => Some(native_of(number)),
        None => None,
    }
}
