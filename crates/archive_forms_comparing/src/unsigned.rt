//! Unsigned numbers and chars are compared in their own order.
ghost use Rattle.std.specs.Prelude.{refl};
ghost use Rattle.std.specs.Hash as fed;
ghost use Rattle.archive_forms_laws.specs.Views.{natural_of};
ghost use Rattle.archive_forms_laws.specs.Orders.{by_natural};
ghost use Rattle.archive_forms_laws.proofs.Forms.{naturals_lawful, alike};

use crate::ComparedNative;
use std::num::{NonZeroU16, NonZeroU32, NonZeroU64, NonZeroU128};

impl ComparedNative for u16 {
    ghost comparison = { by_natural };

    ghost hashed = { λ v. fed.u16 (natural_of v) };

    ghost equal_by_value = { λ a b. refl };

    ghost order_by_value = { λ a b. refl };

    ghost hashed_by_value = { λ a. refl };

    ghost is_lawful = { naturals_lawful };

    ghost alike = { alike.naturals fed.u16 };
}

impl ComparedNative for u32 {
    ghost comparison = { by_natural };

    ghost hashed = { λ v. fed.u32 (natural_of v) };

    ghost equal_by_value = { λ a b. refl };

    ghost order_by_value = { λ a b. refl };

    ghost hashed_by_value = { λ a. refl };

    ghost is_lawful = { naturals_lawful };

    ghost alike = { alike.naturals fed.u32 };
}

impl ComparedNative for u64 {
    ghost comparison = { by_natural };

    ghost hashed = { λ v. fed.u64 (natural_of v) };

    ghost equal_by_value = { λ a b. refl };

    ghost order_by_value = { λ a b. refl };

    ghost hashed_by_value = { λ a. refl };

    ghost is_lawful = { naturals_lawful };

    ghost alike = { alike.naturals fed.u64 };
}

impl ComparedNative for u128 {
    ghost comparison = { by_natural };

    ghost hashed = { λ v. fed.u128 (natural_of v) };

    ghost equal_by_value = { λ a b. refl };

    ghost order_by_value = { λ a b. refl };

    ghost hashed_by_value = { λ a. refl };

    ghost is_lawful = { naturals_lawful };

    ghost alike = { alike.naturals fed.u128 };
}

impl ComparedNative for char {
    ghost comparison = { by_natural };

    ghost hashed = { λ v. fed.char (natural_of v) };

    ghost equal_by_value = { λ a b. refl };

    ghost order_by_value = { λ a b. refl };

    ghost hashed_by_value = { λ a. refl };

    ghost is_lawful = { naturals_lawful };

    ghost alike = { alike.naturals fed.char };
}

impl ComparedNative for NonZeroU16 {
    ghost comparison = { by_natural };

    ghost hashed = { λ v. fed.u16 (natural_of v) };

    ghost equal_by_value = { λ a b. refl };

    ghost order_by_value = { λ a b. refl };

    ghost hashed_by_value = { λ a. refl };

    ghost is_lawful = { naturals_lawful };

    ghost alike = { alike.naturals fed.u16 };
}

impl ComparedNative for NonZeroU32 {
    ghost comparison = { by_natural };

    ghost hashed = { λ v. fed.u32 (natural_of v) };

    ghost equal_by_value = { λ a b. refl };

    ghost order_by_value = { λ a b. refl };

    ghost hashed_by_value = { λ a. refl };

    ghost is_lawful = { naturals_lawful };

    ghost alike = { alike.naturals fed.u32 };
}

impl ComparedNative for NonZeroU64 {
    ghost comparison = { by_natural };

    ghost hashed = { λ v. fed.u64 (natural_of v) };

    ghost equal_by_value = { λ a b. refl };

    ghost order_by_value = { λ a b. refl };

    ghost hashed_by_value = { λ a. refl };

    ghost is_lawful = { naturals_lawful };

    ghost alike = { alike.naturals fed.u64 };
}

impl ComparedNative for NonZeroU128 {
    ghost comparison = { by_natural };

    ghost hashed = { λ v. fed.u128 (natural_of v) };

    ghost equal_by_value = { λ a b. refl };

    ghost order_by_value = { λ a b. refl };

    ghost hashed_by_value = { λ a. refl };

    ghost is_lawful = { naturals_lawful };

    ghost alike = { alike.naturals fed.u128 };
}
