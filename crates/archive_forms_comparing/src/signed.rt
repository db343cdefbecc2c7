//! Signed numbers are compared in their own order.
ghost use Rattle.std.specs.Prelude.{refl};
ghost use Rattle.std.specs.Hash as fed;
ghost use Rattle.archive_forms_laws.specs.Views.{integer_of};
ghost use Rattle.archive_forms_laws.specs.Orders.{by_integer};
ghost use Rattle.archive_forms_laws.proofs.Forms.{integers_lawful, alike};

use crate::ComparedNative;
use std::num::{NonZeroI16, NonZeroI32, NonZeroI64, NonZeroI128};

impl ComparedNative for i16 {
    ghost comparison = { by_integer };

    ghost hashed = { λ v. fed.i16 (integer_of v) };

    ghost equal_by_value = { λ a b. refl };

    ghost order_by_value = { λ a b. refl };

    ghost hashed_by_value = { λ a. refl };

    ghost is_lawful = { integers_lawful };

    ghost alike = { alike.integers fed.i16 };
}

impl ComparedNative for i32 {
    ghost comparison = { by_integer };

    ghost hashed = { λ v. fed.i32 (integer_of v) };

    ghost equal_by_value = { λ a b. refl };

    ghost order_by_value = { λ a b. refl };

    ghost hashed_by_value = { λ a. refl };

    ghost is_lawful = { integers_lawful };

    ghost alike = { alike.integers fed.i32 };
}

impl ComparedNative for i64 {
    ghost comparison = { by_integer };

    ghost hashed = { λ v. fed.i64 (integer_of v) };

    ghost equal_by_value = { λ a b. refl };

    ghost order_by_value = { λ a b. refl };

    ghost hashed_by_value = { λ a. refl };

    ghost is_lawful = { integers_lawful };

    ghost alike = { alike.integers fed.i64 };
}

impl ComparedNative for i128 {
    ghost comparison = { by_integer };

    ghost hashed = { λ v. fed.i128 (integer_of v) };

    ghost equal_by_value = { λ a b. refl };

    ghost order_by_value = { λ a b. refl };

    ghost hashed_by_value = { λ a. refl };

    ghost is_lawful = { integers_lawful };

    ghost alike = { alike.integers fed.i128 };
}

impl ComparedNative for NonZeroI16 {
    ghost comparison = { by_integer };

    ghost hashed = { λ v. fed.i16 (integer_of v) };

    ghost equal_by_value = { λ a b. refl };

    ghost order_by_value = { λ a b. refl };

    ghost hashed_by_value = { λ a. refl };

    ghost is_lawful = { integers_lawful };

    ghost alike = { alike.integers fed.i16 };
}

impl ComparedNative for NonZeroI32 {
    ghost comparison = { by_integer };

    ghost hashed = { λ v. fed.i32 (integer_of v) };

    ghost equal_by_value = { λ a b. refl };

    ghost order_by_value = { λ a b. refl };

    ghost hashed_by_value = { λ a. refl };

    ghost is_lawful = { integers_lawful };

    ghost alike = { alike.integers fed.i32 };
}

impl ComparedNative for NonZeroI64 {
    ghost comparison = { by_integer };

    ghost hashed = { λ v. fed.i64 (integer_of v) };

    ghost equal_by_value = { λ a b. refl };

    ghost order_by_value = { λ a b. refl };

    ghost hashed_by_value = { λ a. refl };

    ghost is_lawful = { integers_lawful };

    ghost alike = { alike.integers fed.i64 };
}

impl ComparedNative for NonZeroI128 {
    ghost comparison = { by_integer };

    ghost hashed = { λ v. fed.i128 (integer_of v) };

    ghost equal_by_value = { λ a b. refl };

    ghost order_by_value = { λ a b. refl };

    ghost hashed_by_value = { λ a. refl };

    ghost is_lawful = { integers_lawful };

    ghost alike = { alike.integers fed.i128 };
}
