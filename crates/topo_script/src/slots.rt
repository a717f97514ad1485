//! Objects, read from the tokens of a text with their members in any order.

ghost use Rattle.std.specs.Prelude.{◌≡◌, IfSome, Some, true};
ghost use Rattle.topo_script.specs.Slots.{SpellsMembers, SpellsObject, SpellsOnly, are_sorted};

use crate::keys::FormKey;
use crate::path::Key;
use crate::reader::TokenReader;
use crate::tokens::FromTokens;
use std::alloc::Global;

/// Slots for the values of an object's members, in the order of their keys.
pub trait Slots {
    ghost use Rattle.std.specs.Prelude.{ℕ, IfSome, List, Option};
    ghost use Rattle.serde_json.specs.Data.{Data};
    ghost use Rattle.topo_script.specs.Slots.{FillsOne, IsBlank};

    /// How deep the values nest at most.
    ghost nesting: { ℕ };

    /// Whether these values, where there is one, were read into the slots.
    ghost holds: { Self → List (Option Data) → Type 0 };

    /// Slots that nothing was read into.
    fn empty() -> Self
        ensures { IsBlank (holds result) };

    /// Reads a member into the slot of its key. None if it has another key, or its slot is not
    /// empty.
    fn read(&mut self, alloc: Global, keys: &[FormKey], reader: &mut TokenReader<'_>) -> Option<()>
        ensures { IfSome result (λ _. (os : List (Option Data)) → holds self.old os
            → FillsOne nesting keys.now reader.old reader.new os (holds self.new)) };
}

/// There is no slot.
#[derive(Drop)]
pub struct NoSlot {}

impl Slots for NoSlot {
    ghost use Rattle.std.specs.Prelude.{◌≡◌, []};

    ghost nesting = { 0 };

    ghost holds = { λ s os. os ≡ [] };

    fn empty() -> Self {
        NoSlot {}
    }

    #[inline(always)]
    fn read(
        &mut self,
        _alloc: Global,
        _keys: &[FormKey],
        _reader: &mut TokenReader<'_>,
    ) -> Option<()> {
        None
    }
}

/// A slot for one value, and the slots behind it.
// It asks nothing of its types: a bound here would be met again at each slot around it, and what a
// check writes out of that would double with each slot.
#[derive(Drop)]
pub struct Slot<A, R> {
    pub found: Option<A>,
    pub rest: R,
}

impl<A: FromTokens, R: Slots> Slots for Slot<A, R> {
    ghost use Rattle.std.specs.Prelude.{max};
    ghost use Rattle.topo_script.specs.Slots.{HoldsSlot};

    ghost nesting = { max A.nesting R.nesting };

    ghost holds = { λ s os. HoldsSlot A.form R.holds s.found s.rest os };

    fn empty() -> Self {
        Slot {
            found: None,
            rest: R::empty(),
        }
    }

    #[inline(always)]
    fn read(
        &mut self,
        alloc: Global,
        keys: &[FormKey],
        reader: &mut TokenReader<'_>,
    ) -> Option<()> {
        let (known, more) = keys.split_first()?;
        if !reader.take_key(known.key()) {
            return self.rest.read(alloc, more, reader);
        }
        if self.found.is_some() {
            return None;
        }
        let value = A::from_tokens(alloc, reader)?;
        self.found = Some(value);
        Some(())
    }
}

impl<A: Drop, R: Drop> Slot<A, R> {
    /// What was read into it, if it was, and the slots behind it.
    #[inline(always)]
    pub fn due(self) -> Option<(A, R)>
        ensures { IfSome result (λ r. (self.found ≡ Some r.0) × (self.rest ≡ r.1)) }
    {
        let Slot { found, rest } = self;
        Some((found?, rest))
    }

    /// What was read into it, if anything was, and the slots behind it.
    #[inline(always)]
    pub fn maybe(self) -> (Option<A>, R)
        ensures { (self.found ≡ result.0) × (self.rest ≡ result.1) }
    {
        let Slot { found, rest } = self;
        (found, rest)
    }
}

impl<A: Drop, B: Drop, C: Drop, R: Drop> Slot<A, Slot<B, Slot<C, R>>> {
    /// What was read into the first three, if all were, and the slots behind them.
    #[inline(always)]
    pub fn three_due(self) -> Option<(A, B, C, R)>
        ensures { IfSome result (λ r. (self.found ≡ Some r.0) × (self.rest.found ≡ Some r.1)
            × (self.rest.rest.found ≡ Some r.2) × (self.rest.rest.rest ≡ r.3)) }
    {
        let (a, rest) = self.due()?;
        let (b, rest) = rest.due()?;
        let (c, rest) = rest.due()?;
        Some((a, b, c, rest))
    }
}

/// Reads the members up to the end of an object into slots.
fn read_members<S: Slots + Drop>(
    alloc: Global,
    keys: &[FormKey],
    reader: &mut TokenReader<'_>,
) -> Option<S>
    requires { are_sorted keys.now ≡ true }
    ensures { IfSome result (λ slots.
        SpellsMembers S.nesting S.holds keys.now reader.old slots reader.new) }
{
    let mut slots = S::empty();
    'members: while !reader.take_end_object() {
        slots.read(alloc, keys, reader)?;
    }
    Some(slots)
}

/// Reads an object into slots for the members with these keys, which stand here in the order of
/// their names. None for another key, or one that comes twice.
pub fn read_object<S: Slots + Drop>(
    alloc: Global,
    keys: &[FormKey],
    reader: &mut TokenReader<'_>,
) -> Option<S>
    requires { are_sorted keys.now ≡ true }
    ensures { IfSome result (λ slots.
        SpellsObject S.nesting S.holds keys.now reader.old slots reader.new) }
{
    reader.begin_object()?;
    read_members(alloc, keys, reader)
}

/// Reads an object that has one member, with this key.
#[inline(always)]
pub fn read_only<T: FromTokens>(alloc: Global, key: Key, reader: &mut TokenReader<'_>) -> Option<T>
    ensures { IfSome result (λ a. SpellsOnly T.nesting T.form key reader.old a reader.new) }
{
    let slots: Slot<T, NoSlot> = read_object(alloc, &[FormKey::Due(key)], reader)?;
    let (value, _slots) = slots.due()?;
    Some(value)
}
