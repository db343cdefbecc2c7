//! Towers, whose levels are shared, each by the two pointers of the level above.
ghost use Rattle.std.specs.Prelude.{◌≡◌, ℕ, zero, suc, ◌+◌, ◌-◌, ◌^◌, ◌<◌, ◌≤◌, false, [], ◌∷◌, length, refl, IfOk};
ghost use Rattle.std.proofs.Common.{lit<, lit≤};
ghost use Rattle.archive_shape_layout.specs.Value.{Values};
ghost use Rattle.archive_shape_layout.specs.Content.{Names};
ghost use Rattle.archive_shape_layout.specs.Content.Part.{at};
ghost use Rattle.archive_shape_layout.specs.Shape.Alignment.{four};
ghost use Rattle.archive_shape_layout.specs.Shape.Pointee.{sized};
ghost use Rattle.archive_shape.specs.Kept.{IsWithin};
ghost use Rattle.archive_shape.specs.Checks.{Checks, Moves};
ghost use Rattle.archive_forms_laws.specs.Forms.{seen_as};
ghost use Rattle.archive_forms_laws.specs.Pointers.{box_spelling, slice_spelling};
ghost use Rattle.archive_forms_laws.specs.Serializing.{CanResolve, Resolves};
ghost use Rattle.archive_forms_laws.specs.Spells.{EachSpells, SpellsAt};
ghost use Rattle.archive_forms_laws.proofs.Behind.{value_behind};
ghost use Rattle.archive_forms_laws.proofs.Levels.{named_spells_at, self_spells};
ghost use Rattle.archive_forms_laws.proofs.Pointers.{box_spells_at, slice_spells_at};
ghost use Rattle.archive_forms_laws.proofs.Shared.{shared_spells_at};
ghost use Rattle.archive_forms_laws.proofs.Views.{kept_spells_at, seen_spells, seen_spells_at};
ghost use Rattle.archive_forms_values.specs.Parts.{HasValue};
ghost use Rattle.archive_forms.specs.Deserializing.{Deserializes, DeserializesBy};
ghost use Rattle.archive_forms.specs.Reading.{reads_counted, reads_each, reads_in};
ghost use Rattle.archive_core_tests.specs.Towers.{tower_shape, pointer_shape, tower_body, KnowsTower, towers_below, pointed_spelling, tower_level, no_tower, tower_spelling, levels_of, first_levels};

use archive_core::{
    Archive, ArchivedRc, ArchivedVec, Deserialize, Keeps, Place, RcFlavor, ReadBack, Ref, Shared,
    SharedPool, VecResolver, check_rc_each, check_vec_each, deserialize_rc_each,
    deserialize_vec_each,
};
use archive_shape::{Alignment, CheckBytes, Error, Portable, Shape, SharedContext};
use std::alloc::{AllocError, Global};
use std::marker::PhantomData;
use std::rc::Rc;

/// A tower of some levels.
#[derive(Drop)]
pub struct Tower {
    pub levels: u8,
}

/// An archived tower: a vector of two counted pointers to the tower of one level less, or of none.
#[derive(Clone, Copy)]
pub struct ArchivedTower {}

type Pointer = ArchivedRc<ArchivedTower, RcFlavor>;

/// What reading a pointer back returns to what reads a vector of them.
type PointerRead = Result<(Shared<Rc<Tower>>, PhantomData<Pointer>), Error>;

/// What keeps the towers that were read.
type Towers = SharedPool<Rc<Tower>, ArchivedTower, ()>;

impl Portable for ArchivedTower {
    ghost SIZE = { 8 };

    ghost ALIGN = { 4 };

    ghost shape = { tower_shape };

    ghost knows = { KnowsTower };

    ghost named = { (2, tower_body) ∷ [] };

    const SIZE: usize = 8;

    const ALIGN: usize = 4;

    fn shape(_alloc: Global) -> Result<Shape, AllocError> {
        Ok(Shape::Named {
            name: 2,
            size: 8,
            align: Alignment::Four,
        })
    }

    ghost sized = { refl };

    ghost aligned = { refl };

    ghost aligns = { (lit< tt, lit≤ tt) };

    ghost known = { λ names has. has 0 (2, tower_body) (lit< tt) };
}

/// Checks the tower at `pos`. The regions that it claims end at `room` or before.
#[cycle(check)]
fn check_tower<C: SharedContext>(
    alloc: Global,
    bytes: &[u8],
    pos: usize,
    context: &mut C,
    room: usize,
) -> Result<(), Error>
    requires fits { pos + 8 ≤ length bytes.now }
    requires range { IsWithin (C.kept context.old) (length bytes.now) }
    requires within { (C.kept context.old).end ≤ room }
    ensures moves { Moves (C.kept context.old) result (C.kept context.new) }
    ensures exact { (names : Names) → KnowsTower names
        → Checks names bytes.now (at pos tower_shape) (C.kept context.old) result (C.kept context.new) }
{
    check_vec_each::<Pointer, C, _>(
        bytes,
        pos,
        context,
        |c: &mut C, p: usize| -> Result<(), Error>
            requires fits { p + 4 ≤ length bytes.now }
            requires range { IsWithin (C.kept c.old) (length bytes.now) }
            requires within { (C.kept c.old).end + 4 ≤ room }
            ensures moves { Moves (C.kept c.old) result (C.kept c.new) }
            ensures exact { (names : Names) → KnowsTower names
                → Checks names bytes.entry.now (at p pointer_shape) (C.kept c.old) result
                (C.kept c.new) }
        { check_pointer::<C>(alloc, bytes, p, c, room - 4) },
    )
}

/// Checks the counted pointer to a tower at `pos`. The regions that it claims end at `room` or before.
#[cycle(check)]
fn check_pointer<C: SharedContext>(
    alloc: Global,
    bytes: &[u8],
    pos: usize,
    context: &mut C,
    room: usize,
) -> Result<(), Error>
    requires fits { pos + 4 ≤ length bytes.now }
    requires range { IsWithin (C.kept context.old) (length bytes.now) }
    requires within { (C.kept context.old).end ≤ room }
    ensures moves { Moves (C.kept context.old) result (C.kept context.new) }
    ensures exact { (names : Names) → KnowsTower names
        → Checks names bytes.now (at pos pointer_shape) (C.kept context.old) result
        (C.kept context.new) }
{
    check_rc_each::<ArchivedTower, RcFlavor, C, _>(
        alloc,
        bytes,
        pos,
        context,
        |c: &mut C, p: usize| -> Result<(), Error>
            requires fits { p + 8 ≤ length bytes.now }
            requires range { IsWithin (C.kept c.old) (length bytes.now) }
            requires within { (C.kept c.old).end + 8 ≤ room }
            ensures moves { Moves (C.kept c.old) result (C.kept c.new) }
            ensures exact { (names : Names) → KnowsTower names
                → Checks names bytes.entry.now (at p tower_shape) (C.kept c.old) result (C.kept c.new) }
        { check_tower::<C>(alloc, bytes, p, c, room - 8) },
    )
}

impl<C: SharedContext> CheckBytes<C> for ArchivedTower {
    fn check(alloc: Global, bytes: &[u8], pos: usize, context: &mut C) -> Result<(), Error> {
        check_tower::<C>(alloc, bytes, pos, context, bytes.len())
    }
}

impl Archive for Tower {
    type Archived = ArchivedTower;

    type Resolver = VecResolver;

    ghost spelling = { seen_as (λ t. t.levels) tower_spelling };

    fn resolve(&self, resolver: VecResolver, out: Place<'_, ArchivedTower>) -> Result<(), Error>
        requires { CanResolve (seen_as (λ t. t.levels) tower_spelling) tower_shape self.now resolver
            out.out.now out.start out.pos }
        ensures { Resolves (seen_as (λ t. t.levels) tower_spelling) tower_shape self.now resolver
            out.entry.pos out.entry.start out.entry.out.now out.exit.0.now result }
    {
        let Place {
            out,
            start,
            pos,
            ..
        } = out;
        let len = if self.levels == 0 { 0 } else { 2 };
        ArchivedVec::<Pointer>::resolve_from_len(len, resolver, Place::within(out, start, pos))
    }

    ghost spells = { λ fit. seen_spells fit tower_shape KnowsTower (λ t. t.levels) tower_spelling
        (self_spells fit tower_shape KnowsTower tower_level no_tower (λ n. n) (λ w n x less below.
        named_spells_at tower_body 2 8 four refl refl fit KnowsTower (λ names known. known) (tower_level w) x
        (kept_spells_at fit tower_body KnowsTower _ _ (λ r. refl) (seen_as towers_below (slice_spelling pointer_shape (pointed_spelling w))) x
        (seen_spells_at fit tower_body KnowsTower towers_below (slice_spelling pointer_shape (pointed_spelling w)) x
        (slice_spells_at fit pointer_shape KnowsTower (pointed_spelling w) (towers_below x)
        ((elim x as (λ m. m ≤ n → EachSpells fit pointer_shape KnowsTower (pointed_spelling w) (towers_below m)) [
          | zero ↦ λ h. tt
          | suc m ↦ λ h.
              let one : SpellsAt fit pointer_shape KnowsTower (pointed_spelling w) m = shared_spells_at fit false (sized tower_shape) KnowsTower (λ y. 1) (λ y. y) (box_spelling tower_shape w) m
              (box_spells_at fit tower_shape KnowsTower w m (below m h)) (value_behind fit tower_shape KnowsTower w m (below m h)) in
              (one, (one, tt))
        ]) less)))))) };
}

/// Returns the tower of these pointers: it has a level more than the first one that they lead to, up to 255.
fn tower_on(pointers: &[Shared<Rc<Tower>>]) -> Tower
    ensures { (elements : Values)
        → reads_each (reads_in (λ x. x.value.value) (reads_counted (λ v t. levels_of v ≡ t.levels)))
        elements pointers.now
        → first_levels elements ≡ result.levels }
{
    let Some(first) = pointers.first() else {
        return Tower { levels: 0 };
    };
    Tower {
        levels: first.value.levels.saturating_add(1),
    }
}

/// Reads the tower at `pos` back.
#[cycle(read)]
fn deserialize_tower<D: Keeps<Rc<Tower>, ArchivedTower>>(
    bytes: &[u8],
    pos: usize,
    alloc: Global,
    deserializer: &mut D,
) -> Result<Tower, Error>
    requires there { HasValue tower_shape KnowsTower bytes.now pos }
    requires kept { D.is_of deserializer.old bytes.now }
    ensures value { Deserializes (λ v t. levels_of v ≡ t.levels) tower_shape KnowsTower
        bytes.now pos result }
    ensures keeps { IfOk result (λ _. D.is_of deserializer.new bytes.now) }
{
    let this = Ref::<ArchivedVec<Pointer>> {
        bytes,
        pos,
        of: PhantomData,
    };
    let pointers = deserialize_vec_each::<Shared<Rc<Tower>>, Pointer, D, _>(
        this,
        alloc,
        deserializer,
        |d: &mut D, p: usize| -> PointerRead
            requires ends { p + 4 ≤ pos }
            requires there { HasValue pointer_shape KnowsTower bytes.now p }
            requires kept { D.is_of d.old bytes.now }
            ensures value { DeserializesBy
                (reads_in (λ x. x.value.value) (reads_counted (λ v t. levels_of v ≡ t.levels)))
                pointer_shape KnowsTower bytes.entry.now p (λ q. q.0) result }
            ensures keeps { IfOk result (λ _. D.is_of d.new bytes.entry.now) }
        {
            let _ = &pos;
            match deserialize_pointer(bytes, p, alloc, d) {
                Ok(pointer) => Ok((pointer, PhantomData)),
                Err(e) => Err(e),
            }
        },
    );
    match pointers {
        Ok(pointers) => Ok(tower_on(pointers.as_slice())),
        Err(e) => Err(e),
    }
}

/// Reads the counted pointer to a tower at `pos` back.
#[cycle(read)]
fn deserialize_pointer<D: Keeps<Rc<Tower>, ArchivedTower>>(
    bytes: &[u8],
    pos: usize,
    alloc: Global,
    deserializer: &mut D,
) -> Result<Shared<Rc<Tower>>, Error>
    requires there { HasValue pointer_shape KnowsTower bytes.now pos }
    requires kept { D.is_of deserializer.old bytes.now }
    ensures value { Deserializes
        (reads_in (λ x. x.value.value) (reads_counted (λ v t. levels_of v ≡ t.levels)))
        pointer_shape KnowsTower bytes.now pos result }
    ensures keeps { IfOk result (λ _. D.is_of deserializer.new bytes.now) }
{
    let this = Ref::<Pointer> {
        bytes,
        pos,
        of: PhantomData,
    };
    deserialize_rc_each::<Tower, ArchivedTower, D, _>(
        this,
        alloc,
        deserializer,
        |d: &mut D, p: usize| -> Result<(Tower, PhantomData<ArchivedTower>), Error>
            requires ends { p + 8 ≤ pos }
            requires there { HasValue tower_shape KnowsTower bytes.now p }
            requires kept { D.is_of d.old bytes.now }
            ensures value { DeserializesBy (λ v t. levels_of v ≡ t.levels) tower_shape KnowsTower
                bytes.entry.now p (λ q. q.0) result }
            ensures keeps { IfOk result (λ _. D.is_of d.new bytes.entry.now) }
        {
            let _ = &pos;
            match deserialize_tower(bytes, p, alloc, d) {
                Ok(tower) => Ok((tower, PhantomData)),
                Err(e) => Err(e),
            }
        },
    )
}

impl ReadBack<Tower> for ArchivedTower {
    ghost reads = { λ v t. levels_of v ≡ t.levels };
}

impl Deserialize<Tower> for ArchivedTower {
    type Pool = Towers;

    fn deserialize(
        this: &Ref<'_, ArchivedTower>,
        alloc: Global,
        deserializer: &mut Towers,
    ) -> Result<Tower, Error> {
        deserialize_tower(this.bytes, this.pos, alloc, deserializer)
    }
}
