//! The trait of what writes the nodes of a search tree.
ghost use Rattle.std.specs.Prelude.{◌≡◌, ℕ, ◌-◌, ◌^◌, ◌<◌, ◌≤◌, [], ◌∷◌, ◌++◌, All, length, map};
ghost use Rattle.archive_shape_layout.specs.Shape.{Shape};
ghost use Rattle.archive_forms_laws.specs.Spelling.{Spelling};
ghost use Rattle.archive_forms_laws.specs.Serializing.{HasState};
ghost use Rattle.archive_btree_spelling.specs.Laying.{LaysNode};

use archive_shape_layout::{Error, Writer};

/// Writes the nodes of a search tree of entries of type `T`, at most `E` in a node, each after the data of its entries.
/// An implementation names the types of their keys and values, and how those are archived.
pub trait NodeStep<T, S: Writer, const E: usize> {
    /// The type of keys.
    type Key;

    /// The type of values.
    type Value;

    /// The resolver of a key: what is kept of the positions of its data.
    type KeyResolver;

    /// The resolver of a value: what is kept of the positions of its data.
    type ValueResolver;

    /// The key and the value of an entry.
    ghost parts: { T → Self.Key × Self.Value };

    ghost key_shape: { Shape };

    ghost value_shape: { Shape };

    ghost keys: { Spelling Self.Key Self.KeyResolver };

    ghost values: { Self → Spelling Self.Value Self.ValueResolver };

    /// The condition under which the methods may be called for nodes that have this entry.
    ghost takes: { Self → T → Type 0 };

    /// Writes a leaf of entries, and returns its position.
    fn write_leaf(&self, entries: &[T], serializer: &mut S) -> Result<usize, Error>
        requires some { 0 < length entries.now }
        requires few { (length entries.now ≤ E) × (E < 2 ^ 32) }
        requires taken { All (takes self.now) entries.now }
        requires room { S.failures serializer.old < 2 ^ 64 - 1 }
        requires state { HasState S.pos S.known serializer.old }
        ensures { LaysNode E key_shape value_shape keys (values self.now) S.Writer
            (record { kind = 0; roots = []; own = map parts entries.now })
            serializer.old serializer.new result };

    /// Writes an inner node, and returns its position. `lesser` has for each entry the position that its lesser pointer
    /// leads to, and `greater` is that of the greater pointer. A pointer without a position leads to nothing.
    fn write_inner(
        &self,
        entries: &[T],
        lesser: &[Option<usize>],
        greater: Option<usize>,
        serializer: &mut S,
    ) -> Result<usize, Error>
        requires full { length entries.now ≡ E }
        requires some { (0 < E) × (E < 2 ^ 32) }
        requires pointers { length lesser.now ≡ E }
        requires taken { All (takes self.now) entries.now }
        requires room { S.failures serializer.old < 2 ^ 64 - 1 }
        requires state { HasState S.pos S.known serializer.old }
        ensures { LaysNode E key_shape value_shape keys (values self.now) S.Writer
            (record { kind = 1; roots = lesser.now ++ greater ∷ []; own = map parts entries.now })
            serializer.old serializer.new result };
}
