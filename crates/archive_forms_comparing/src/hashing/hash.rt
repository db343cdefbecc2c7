//! `ArchivedHash`, the hashing of archived values.
ghost use Rattle.std.specs.Hash.{Alike};
ghost use Rattle.archive_forms_laws.specs.Orders.{Hashed};
ghost use Rattle.archive_forms_values.specs.Parts.{HasValue};
ghost use Rattle.archive_forms_comparing.specs.Calls.Comparing.{Hashes};

use crate::ArchivedEq;
use archive_shape::Ref;
use std::hash::Hasher;

/// A type of archived values that can be hashed. What is fed to the hasher depends only on the value, not on its
/// position.
pub trait ArchivedHash: ArchivedEq {
    /// What is fed to the hasher for a value, in order.
    ghost hashed: { Hashed };

    /// Feeds the value to the hasher.
    fn hash<H: Hasher>(this: &Ref<'_, Self>, state: &mut H)
        requires { HasValue Self.shape Self.knows this.now.bytes.now this.now.pos }
        ensures { Hashes Self.shape Self.knows this.now H.write hashed state.old state.new };

    /// Equal values feed the same to the hasher.
    ghost alike: { Alike Self.equal hashed };
}
