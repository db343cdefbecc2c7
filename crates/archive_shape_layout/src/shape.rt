//! Layouts at run time, and the test whether two are the same.
ghost use Rattle.std.specs.Prelude.{◌≡◌, ◌↔◌, IsTrue};
ghost use Rattle.archive_shape_layout.specs.RuntimeShape.{layout_of, pointee_of, shapes_of};

/// The number of bits of a number.
#[derive(Clone, Copy, Debug, PartialEq, Eq)]
pub enum Width {
    Bits8,
    Bits16,
    Bits32,
    Bits64,
    Bits128,
}

/// The alignment of a type in bytes: its positions are multiples of it.
#[derive(Clone, Copy, Debug, PartialEq, Eq)]
pub enum Alignment {
    One,
    Two,
    Four,
    Eight,
    Sixteen,
    ThirtyTwo,
}

/// The layout of an archived type.
#[cycle(shape)]
#[derive(Debug, Drop)]
pub enum Shape {
    Number {
        width: Width,
        signed: bool,
    },
    /// A number that is not 0, as `NonZero`.
    NonZero {
        width: Width,
        signed: bool,
    },
    Truth,
    Character,
    Text,
    Tuple(Shapes),
    Array {
        length: u64,
        element: Box<Shape>,
    },
    Option(Box<Shape>),
    /// A value of one of two shapes: the first one is that of `Ok`.
    Result(Box<Shape>, Box<Shape>),
    /// An enum: the payloads of its variants, by tag.
    Choice(Shapes),
    Boxed(Pointee),
    Vector(Box<Shape>),
    /// A counted pointer, which may lead to what it lies inside where cycles are allowed.
    Shared {
        cyclic: bool,
        pointee: Pointee,
    },
    /// A weak counted pointer, which may lead to nothing.
    Weak {
        cyclic: bool,
        pointee: Pointee,
    },
    /// A search tree with at most `entries` entries per node.
    Tree {
        entries: u64,
        key: Box<Shape>,
        value: Box<Shape>,
    },
    /// A hash table of items.
    Table(Box<Shape>),
    /// A map that keeps the order of its entries.
    IndexMap {
        key: Box<Shape>,
        value: Box<Shape>,
    },
    /// A type that holds itself. One name denotes one type.
    Named {
        name: u32,
        size: usize,
        align: Alignment,
    },
}

/// A list of layouts, as of the fields of a tuple or the payloads of an enum.
#[cycle(shape)]
#[derive(Debug, Drop)]
pub enum Shapes {
    Empty,
    Another(Box<Shape>, Box<Shapes>),
}

/// What a pointer leads to: one value, a slice, or the bytes of a text.
#[cycle(shape)]
#[derive(Debug, Drop)]
pub enum Pointee {
    Sized(Box<Shape>),
    Slice(Box<Shape>),
    Text,
}

/// Returns whether two shapes are the same layout.
#[cycle(same)]
pub fn same_shape(first: &Shape, second: &Shape) -> bool
    ensures { IsTrue result ↔ (layout_of first.now ≡ layout_of second.now) }
{
    match (first, second) {
        (
            Shape::Number {
                width: a,
                signed: b,
            },
            Shape::Number {
                width: c,
                signed: d,
            },
        ) => a == c && b == d,
        (
            Shape::NonZero {
                width: n,
                signed: a,
            },
            Shape::NonZero {
                width: m,
                signed: b,
            },
        ) => n == m && a == b,
        (Shape::Truth, Shape::Truth) => true,
        (Shape::Character, Shape::Character) => true,
        (Shape::Text, Shape::Text) => true,
        (Shape::Tuple(a), Shape::Tuple(b)) => same_shapes(a, b),
        (
            Shape::Array {
                length: n,
                element: a,
            },
            Shape::Array {
                length: m,
                element: b,
            },
        ) => n == m && same_shape(a, b),
        (Shape::Option(a), Shape::Option(b)) => same_shape(a, b),
        (Shape::Result(a, b), Shape::Result(c, d)) => same_shape(a, c) && same_shape(b, d),
        (Shape::Choice(a), Shape::Choice(b)) => same_shapes(a, b),
        (Shape::Boxed(a), Shape::Boxed(b)) => same_pointee(a, b),
        (Shape::Vector(a), Shape::Vector(b)) => same_shape(a, b),
        (
            Shape::Shared {
                cyclic: n,
                pointee: a,
            },
            Shape::Shared {
                cyclic: m,
                pointee: b,
            },
        ) => n == m && same_pointee(a, b),
        (
            Shape::Weak {
                cyclic: c,
                pointee: a,
            },
            Shape::Weak {
                cyclic: d,
                pointee: b,
            },
        ) => c == d && same_pointee(a, b),
        (
            Shape::Tree {
                entries: n,
                key: a,
                value: b,
            },
            Shape::Tree {
                entries: m,
                key: c,
                value: d,
            },
        ) => n == m && same_shape(a, c) && same_shape(b, d),
        (Shape::Table(a), Shape::Table(b)) => same_shape(a, b),
        (Shape::IndexMap { key: a, value: b }, Shape::IndexMap { key: c, value: d }) => same_shape(
            a, c,
        ) && same_shape(b, d),
        (
            Shape::Named {
                name: n,
                size: a,
                align: b,
            },
            Shape::Named {
                name: m,
                size: c,
                align: d,
            },
        ) => n == m && a == c && b == d,
        _ => false,
    }
}

#[cycle(same)]
fn same_shapes(first: &Shapes, second: &Shapes) -> bool
    ensures { IsTrue result ↔ (shapes_of first.now ≡ shapes_of second.now) }
{
    match (first, second) {
        (Shapes::Empty, Shapes::Empty) => true,
        (Shapes::Another(a, b), Shapes::Another(c, d)) => same_shape(a, c) && same_shapes(b, d),
        _ => false,
    }
}

#[cycle(same)]
fn same_pointee(first: &Pointee, second: &Pointee) -> bool
    ensures { IsTrue result ↔ (pointee_of first.now ≡ pointee_of second.now) }
{
    match (first, second) {
        (Pointee::Sized(a), Pointee::Sized(b)) => same_shape(a, b),
        (Pointee::Slice(a), Pointee::Slice(b)) => same_shape(a, b),
        (Pointee::Text, Pointee::Text) => true,
        _ => false,
    }
}
