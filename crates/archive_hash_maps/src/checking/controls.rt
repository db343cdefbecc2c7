//! The checks of a table's controls.
ghost use Rattle.std.specs.Prelude.{◌≡◌, ◌+◌, ◌^◌, ◌<◌, ◌≤◌, nat_lt, length, count_by};
ghost use Rattle.archive_shape_layout.specs.Bytes.{window};
ghost use Rattle.archive_shape_layout.specs.Content.{control_count};
ghost use Rattle.archive_shape.specs.Questions.{questions_of_controls};
ghost use Rattle.archive_hash_maps.specs.Buckets.{questions_of_tags};
ghost use Rattle.archive_hash_maps.specs.Calls.Checks.{is_required, Asks};

use crate::checking::sizes::control_count;
use archive_shape::Error;

/// Returns the controls of a table of `capacity` places, the first of which lies at `target`.
pub fn controls_at(bytes: &[u8], target: usize, capacity: usize) -> &[u8]
    requires small { capacity < 2 ^ 32 }
    requires fits { target + control_count capacity ≤ length bytes.now }
    ensures bytes { result.now ≡ window bytes.now target (control_count capacity) }
    ensures count { length result.now ≡ control_count capacity }
{
    &bytes[target..target + control_count(capacity)]
}

/// Returns `true` if a control from the capacity on is as required: it repeats the one `capacity` before it, and from
/// twice the capacity on it is empty.
fn is_wrapped(controls: &[u8], capacity: usize, index: usize) -> bool
    requires beyond { capacity ≤ index }
    requires within { index < length controls.now }
    ensures { result ≡ is_required controls.now capacity index }
{
    if index < 2 * capacity {
        controls[index] == controls[index - capacity]
    } else {
        controls[index] >= 128
    }
}

/// Checks the controls from the capacity on. Returns `UnwrappedControlByte` for the first that is not as required.
fn check_controls(controls: &[u8], capacity: usize) -> Result<(), Error>
    requires { capacity ≤ length controls.now }
    ensures { Asks (questions_of_controls capacity controls.now 0 controls.now) result }
{
    for index in capacity..controls.len() {
        if !is_wrapped(controls, capacity, index) {
            return Err(Error::UnwrappedControlByte { index });
        }
    }
    Ok(())
}

/// Returns the number of controls that are tags.
fn count_tags(controls: &[u8]) -> usize
    ensures { result ≡ count_by (λ c. nat_lt c 128) controls.now }
{
    controls.iter().filter(|control| **control < 128).count()
}

/// Checks the controls of a table of `len` items: first as `check_controls` does, and then the number of tags below the
/// capacity. Returns `WrongNumberOfElements` if it is not `len`.
pub(crate) fn check_tags(controls: &[u8], capacity: usize, len: usize) -> Result<(), Error>
    requires { capacity ≤ length controls.now }
    ensures { Asks (questions_of_tags len capacity controls.now) result }
{
    check_controls(controls, capacity)?;
    let actual = count_tags(&controls[..capacity]);
    if actual != len {
        return Err(Error::WrongNumberOfElements {
            expected: len,
            actual,
        });
    }
    Ok(())
}
