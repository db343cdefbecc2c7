//! `List`, a test type of lists, each of which may lead to another.
ghost use Rattle.std.specs.Prelude.{◌≡◌, ℕ, ◌+◌, ◌-◌, ◌^◌, ◌<◌, ◌≤◌, [], ◌∷◌, length, refl};
ghost use Rattle.std.proofs.Common.{lit<, lit≤};
ghost use Rattle.archive_shape_layout.specs.Content.{Names};
ghost use Rattle.archive_shape_layout.specs.Content.Part.{at};
ghost use Rattle.archive_shape_layout.specs.Shape.Shape.{box};
ghost use Rattle.archive_shape_layout.specs.Shape.Pointee.{sized};
ghost use Rattle.archive_shape.specs.Kept.{IsWithin};
ghost use Rattle.archive_shape.specs.Checks.{Checks, Moves};
ghost use Rattle.archive_shape_layout.specs.Shape.Alignment.{four};
ghost use Rattle.archive_forms_laws.specs.Serializing.{CanResolve, HasState, Resolves, Serializes, SerializesBy};
ghost use Rattle.archive_forms_laws.specs.Pointers.{box_spelling};
ghost use Rattle.archive_forms_laws.specs.Options.{option_spelling};
ghost use Rattle.archive_forms_laws.proofs.Levels.{option_box_sized, named_spells_at, self_spells};
ghost use Rattle.archive_forms_laws.proofs.Options.{none_spells, some_spells};
ghost use Rattle.archive_forms_laws.proofs.Pointers.{box_spells_at};
ghost use Rattle.archive_forms_laws.proofs.Views.{kept_spells_at, seen_spells_at};
ghost use Rattle.archive_forms_laws.specs.Spells.{SpellsAt};
ghost use Rattle.archive_forms_values.specs.Parts.{HasValue};
ghost use Rattle.archive_forms.specs.Deserializing.{Deserializes, DeserializesBy};
ghost use Rattle.archive_forms.specs.Reading.{reads_as, reads_in};
ghost use Rattle.archive_forms_tests.specs.declared.recursive.list.List.{List as ListDenot, List', Held-List-next, None', Some'};
ghost use Rattle.archive_forms_tests.specs.Recursive.{list_shape, list_body, KnowsList};
ghost use Rattle.archive_forms_tests.specs.Lists.{list_next, links, linked_spelling, list_level, no_list, list_spelling};

use archive_forms::{Deserialize, ReadBack, deserialize_box_each, deserialize_option_each};
use archive_forms_values::{
    ArchivedBox, ArchivedOption, BoxResolver, check_box_each, check_option_each,
};
use archive_forms_writing::{Archive, Serialize, serialize_box_each};
use archive_shape::{
    Alignment, Allocator, ArchiveContext, CheckBytes, Error, Place, Portable, Ref, Shape, Writer,
};
use std::alloc::{AllocError, Global};
use std::marker::PhantomData;

/// A list that ends or leads to another list.
#[derive(Drop)]
pub struct List {
    pub next: Option<Box<List>>,
}

/// The archived form of a list: an option of a box that leads to another list.
#[derive(Clone, Copy)]
pub struct ArchivedList {}

impl Portable for ArchivedList {
    ghost SIZE = { 8 };

    ghost ALIGN = { 4 };

    ghost shape = { list_shape };

    ghost knows = { KnowsList };

    ghost named = { (1, list_body) ∷ [] };

    const SIZE: usize = 8;

    const ALIGN: usize = 4;

    fn shape(_alloc: Global) -> Result<Shape, AllocError> {
        Ok(Shape::Named {
            name: 1,
            size: 8,
            align: Alignment::Four,
        })
    }

    ghost sized = { refl };

    ghost aligned = { refl };

    ghost aligns = { (lit< tt, lit≤ tt) };

    ghost known = { λ names has. has 0 (1, list_body) (lit< tt) };
}

/// Checks the list at `pos`. The regions that it claims end at `room` or before.
#[cycle(list)]
fn check_list<C: ArchiveContext>(
    bytes: &[u8],
    pos: usize,
    context: &mut C,
    room: usize,
) -> Result<(), Error>
    requires fits { pos + 8 ≤ length bytes.now }
    requires range { IsWithin (C.kept context.old) (length bytes.now) }
    requires within { (C.kept context.old).end ≤ room }
    ensures moves { Moves (C.kept context.old) result (C.kept context.new) }
    ensures exact { (names : Names) → KnowsList names
        → Checks names bytes.now (at pos list_shape) (C.kept context.old) result (C.kept context.new) }
{
    check_option_each::<ArchivedBox<ArchivedList>, C, _>(
        bytes,
        pos,
        context,
        |c: &mut C, p: usize| -> Result<(), Error>
            requires fits { p + 4 ≤ length bytes.now }
            requires range { IsWithin (C.kept c.old) (length bytes.now) }
            requires within { (C.kept c.old).end ≤ room }
            ensures moves { Moves (C.kept c.old) result (C.kept c.new) }
            ensures exact { (names : Names) → KnowsList names
                → Checks names bytes.entry.now (at p (box (sized list_shape))) (C.kept c.old) result (C.kept c.new) }
        {
            check_box_each::<ArchivedList, C, _>(
                bytes,
                p,
                c,
                |d: &mut C, q: usize| -> Result<(), Error>
                    requires fits { q + 8 ≤ length bytes.now }
                    requires range { IsWithin (C.kept d.old) (length bytes.now) }
                    requires within { (C.kept d.old).end + 8 ≤ room }
                    ensures moves { Moves (C.kept d.old) result (C.kept d.new) }
                    ensures exact { (names : Names) → KnowsList names
                        → Checks names bytes.entry.now (at q list_shape) (C.kept d.old) result (C.kept d.new) }
                { check_list(bytes, q, d, room - 8) },
            )
        },
    )
}

impl<C: ArchiveContext> CheckBytes<C> for ArchivedList {
    fn check(_alloc: Global, bytes: &[u8], pos: usize, context: &mut C) -> Result<(), Error> {
        check_list(bytes, pos, context, bytes.len())
    }
}

impl Archive for List {
    type Archived = ArchivedList;

    type Resolver = Option<BoxResolver>;

    ghost spelling = { list_spelling };

    fn resolve(
        &self,
        resolver: Option<BoxResolver>,
        out: Place<'_, ArchivedList>,
    ) -> Result<(), Error>
        requires { CanResolve list_spelling list_shape self.now resolver out.out.now out.start out.pos }
        ensures { Resolves list_spelling list_shape self.now resolver out.entry.pos out.entry.start
            out.entry.out.now out.exit.0.now result }
    {
        let Place {
            out,
            start,
            pos,
            ..
        } = out;
        let Some(_) = &self.next else {
            return Ok(());
        };
        let Some(kept) = resolver else {
            return Ok(());
        };
        out[start] = 1;
        let place = Place::within(out, start + 4, pos + 4);
        ArchivedBox::<ArchivedList>::resolve_from_raw_parts(kept, place)
    }

    ghost spells = { λ fit. self_spells fit list_shape KnowsList list_level no_list links (λ w n x less below.
        named_spells_at list_body 1 8 four (option_box_sized list_shape) refl fit KnowsList (λ names known. known) (list_level w) x
        ((elim x as (λ (k : ListDenot). links k ≤ n → SpellsAt fit list_body KnowsList (list_level w) k) [
          | List' next ↦ elim next as (λ (h : Held-List-next). links (List' h) ≤ n → SpellsAt fit list_body KnowsList (list_level w) (List' h)) [
            | None' ↦ λ h. seen_spells_at fit list_body KnowsList list_next (option_spelling (box (sized list_shape)) (linked_spelling w)) (List' None')
                (none_spells fit (box (sized list_shape)) KnowsList (linked_spelling w))
            | Some' p y ↦ λ h. seen_spells_at fit list_body KnowsList list_next (option_spelling (box (sized list_shape)) (linked_spelling w)) (List' (Some' p y))
                (some_spells fit (box (sized list_shape)) KnowsList (linked_spelling w) y
                (kept_spells_at fit (box (sized list_shape)) KnowsList _ _ (λ r. refl) (box_spelling list_shape w) y
                (box_spells_at fit list_shape KnowsList w y (below y h))))
          ]
        ]) less)) };
}

/// Writes the data of a list.
fn serialize_list<S: Writer + Allocator>(
    list: &List,
    serializer: &mut S,
) -> Result<Option<BoxResolver>, Error>
    requires room { S.failures serializer.old < 2 ^ 64 - 1 }
    requires state { HasState S.pos S.known serializer.old }
    ensures { Serializes list_spelling S.Writer list.now serializer.old serializer.new result }
{
    let Some(next) = &list.next else {
        return Ok(None);
    };
    let written = serialize_box_each::<List, S, _>(
        next,
        serializer,
        |item: &List, s: &mut S| -> Result<(Option<BoxResolver>, PhantomData<ArchivedList>), Error>
            requires same { item.now ≡ next.now.value }
            requires room { S.failures s.old < 2 ^ 64 - 1 }
            requires state { HasState S.pos S.known s.old }
            ensures { SerializesBy (λ q. q.0) list_spelling S.Writer item.now s.old s.new result }
        {
            match serialize_list(next, s) {
                Ok(resolver) => Ok((resolver, PhantomData)),
                Err(e) => Err(e),
            }
        },
    );
    match written {
        Ok(resolver) => Ok(Some(resolver)),
        Err(e) => Err(e),
    }
}

impl<S: Writer + Allocator> Serialize<S> for List {
    fn serialize(&self, serializer: &mut S) -> Result<Option<BoxResolver>, Error> {
        serialize_list(self, serializer)
    }
}

/// Reads the list at `pos` back.
#[cycle(read_list)]
#[tactic(auto, unfolding(archive_shape_layout::specs::Bytes::align_up))]
fn deserialize_list(
    bytes: &[u8],
    pos: usize,
    alloc: Global,
    deserializer: &mut (),
) -> Result<List, Error>
    requires { HasValue list_shape KnowsList bytes.now pos }
    ensures { Deserializes (reads_as list_spelling) list_shape KnowsList bytes.now pos result }
{
    let this = Ref::<ArchivedOption<ArchivedBox<ArchivedList>>> {
        bytes,
        pos,
        of: PhantomData,
    };
    let next = deserialize_option_each::<Box<List>, ArchivedBox<ArchivedList>, (), _>(
        this,
        deserializer,
        |d: &mut (), p: usize| -> Result<(Box<List>, PhantomData<ArchivedBox<ArchivedList>>), Error>
            requires ends { p + 4 ≤ pos + 8 }
            requires there { HasValue (box (sized list_shape)) KnowsList bytes.now p }
            ensures { DeserializesBy (reads_in (λ b. b.value) (reads_as list_spelling))
                (box (sized list_shape)) KnowsList bytes.entry.now p (λ q. q.0) result }
        {
            let _ = &pos;
            let boxed = Ref::<ArchivedBox<ArchivedList>> {
                bytes,
                pos: p,
                of: PhantomData,
            };
            let read = deserialize_box_each::<List, ArchivedList, (), _>(
                boxed,
                alloc,
                d,
                |e: &mut (), q: usize| -> Result<(List, PhantomData<ArchivedList>), Error>
                    requires ends { q + 8 ≤ p }
                    requires there { HasValue list_shape KnowsList bytes.now q }
                    ensures { DeserializesBy (reads_as list_spelling) list_shape KnowsList
                        bytes.entry.now q (λ r. r.0) result }
                {
                    let _ = &p;
                    match deserialize_list(bytes, q, alloc, e) {
                        Ok(list) => Ok((list, PhantomData)),
                        Err(error) => Err(error),
                    }
                },
            );
            match read {
                Ok(boxed) => Ok((boxed, PhantomData)),
                Err(error) => Err(error),
            }
        },
    );
    match next {
        Ok(next) => Ok(List { next }),
        Err(e) => Err(e),
    }
}

impl ReadBack<List> for ArchivedList {
    ghost reads = { reads_as list_spelling };
}

impl Deserialize<List> for ArchivedList {
    type Pool = ();

    fn deserialize(
        this: &Ref<'_, ArchivedList>,
        alloc: Global,
        deserializer: &mut (),
    ) -> Result<List, Error> {
        deserialize_list(this.bytes, this.pos, alloc, deserializer)
    }
}
