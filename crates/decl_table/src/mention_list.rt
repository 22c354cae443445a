//! Lists of places of phrases, in order and mended.
ghost use Rattle.std.specs.Prelude.{◌≡◌, ◌==◌, ◌∷◌, ◌++◌, [], IfOk, List, OnOk, length};
ghost use Rattle.std.specs.List.Sorted.{IsStrictlySortedBy};
ghost use Rattle.plcs_base.specs.Mark.{phrase_cmp};
ghost use Rattle.plcs_base.specs.declared.place.PhraseAt.{PhraseAt};
ghost use Rattle.decl_table.specs.DeclEdit.{changed_or};
ghost use Rattle.decl_table.specs.Private.UsesView.{IsMended, IsSettled, IsWith, IsWithout, earlier_places, later_places};

use plcs_base::{OutOfMemory, PhraseAt};
use std::alloc::Global;
use std::marker::Model;

/// A list of places of phrases, which contracts see as a list.
#[derive(Drop)]
pub(crate) struct MentionList {
    list: Vec<PhraseAt>,
}

impl Model for MentionList {
    ghost use Rattle.std.specs.Prelude.{List};
    ghost use Rattle.plcs_base.specs.declared.place.PhraseAt.{PhraseAt};
    ghost use Rattle.decl_table.specs.Private.UsesView.{mention_list_code};

    ghost Value = { List PhraseAt };

    ghost coded = { mention_list_code };

    ghost view = { λ a. a.list.items };
}

impl MentionList {
    /// The list of no places. It takes no memory.
    pub(crate) fn new(alloc: Global) -> MentionList
        ensures { result ≡ [] }
    {
        MentionList {
            list: Vec::new(alloc),
        }
    }

    /// The list of no places, with room for so many.
    fn with_room(alloc: Global, places: usize) -> Result<MentionList, OutOfMemory>
        ensures { IfOk result (λ list. list ≡ []) }
    {
        let list = Vec::with_capacity(alloc, places)?;
        Ok(MentionList { list })
    }

    /// The list of this one place of a phrase.
    pub(crate) fn of(alloc: Global, at: PhraseAt) -> Result<MentionList, OutOfMemory>
        ensures { IfOk result (λ places. places ≡ at ∷ []) }
    {
        let mut list = Vec::new(alloc);
        list.push(at)?;
        Ok(MentionList { list })
    }

    /// Puts a place behind the others in the list.
    pub(crate) fn push(&mut self, at: PhraseAt) -> Result<(), OutOfMemory>
        ensures { OnOk result (self.new ≡ self.old ++ (at ∷ [])) }
    {
        self.list.push(at)?;
        Ok(())
    }

    /// Puts these places behind the others in the list.
    pub(crate) fn add_all(&mut self, places: &[PhraseAt]) -> Result<(), OutOfMemory>
        ensures { OnOk result (self.new ≡ self.old ++ places.now) }
    {
        self.list.extend_from_slice(places)?;
        Ok(())
    }

    /// Puts the list of places in order of slot and part, each once.
    pub(crate) fn settle(&mut self)
        ensures { IsSettled self.old self.new }
    {
        self.list.sort_unstable();
        self.list.dedup();
    }

    /// Whether there are no places in the list.
    pub(crate) fn is_empty(&self) -> bool
        ensures { result ≡ (length self.now == 0) }
    {
        self.list.is_empty()
    }

    /// All places of phrases in the list.
    pub(crate) fn as_slice(&self) -> &[PhraseAt]
        ensures { result.now ≡ self.now }
    {
        self.list.as_slice()
    }
}

impl MentionList {
    /// What is left of the places, which are in order, once those went and these came, each in order too, or `None`
    /// where they stay.
    pub(crate) fn mended(
        alloc: Global,
        before: &[PhraseAt],
        went: &[PhraseAt],
        came: &[PhraseAt],
    ) -> Result<Option<MentionList>, OutOfMemory>
        requires before { IsStrictlySortedBy phrase_cmp before.now }
        requires went { IsStrictlySortedBy phrase_cmp went.now }
        requires came { IsStrictlySortedBy phrase_cmp came.now }
        ensures { IfOk result (λ mended. IsMended before.now went.now came.now (changed_or mended before.now)) }
    {
        let Ok(out) = MentionList::without(alloc, went, came) else {
            return Err(OutOfMemory);
        };
        let mended = MentionList::mended_without(alloc, before, went, came, out.as_slice());
        drop(out);
        mended
    }

    /// The same, where these are the places that go: those that went and didn't come.
    fn mended_without(
        alloc: Global,
        before: &[PhraseAt],
        went: &[PhraseAt],
        came: &[PhraseAt],
        out: &[PhraseAt],
    ) -> Result<Option<MentionList>, OutOfMemory>
        requires before { IsStrictlySortedBy phrase_cmp before.now }
        requires went { IsStrictlySortedBy phrase_cmp went.now }
        requires came { IsStrictlySortedBy phrase_cmp came.now }
        requires out { IsWithout went.now came.now out.now }
        ensures { IfOk result (λ mended. IsMended before.now went.now came.now (changed_or mended before.now)) }
    {
        let Ok(more) = MentionList::without(alloc, came, went) else {
            return Err(OutOfMemory);
        };
        let mended = MentionList::mended_by(alloc, before, out, more.as_slice());
        drop(more);
        mended
    }

    /// What is left of the places, which are in order, where these go and those come in, each in order too, or `None`
    /// where they stay.
    fn mended_by(
        alloc: Global,
        before: &[PhraseAt],
        out: &[PhraseAt],
        more: &[PhraseAt],
    ) -> Result<Option<MentionList>, OutOfMemory>
        requires before { IsStrictlySortedBy phrase_cmp before.now }
        requires out { IsStrictlySortedBy phrase_cmp out.now }
        requires more { IsStrictlySortedBy phrase_cmp more.now }
        ensures { (went came : List PhraseAt) → IsWithout went came out.now → IsWithout came went more.now
            → IfOk result (λ mended. IsMended before.now went came (changed_or mended before.now)) }
    {
        if out.is_empty() {
            if more.is_empty() {
                return Ok(None);
            }
        }
        let Ok(rest) = MentionList::without(alloc, before, out) else {
            return Err(OutOfMemory);
        };
        let places = MentionList::with_more(alloc, rest.as_slice(), more);
        drop(rest);
        match places {
            Ok(places) => Ok(Some(places)),
            Err(OutOfMemory) => Err(OutOfMemory),
        }
    }

    /// The places, which are in order, but for these, which are in order too. The stretches between those that are
    /// left out are copied as a whole.
    fn without(
        alloc: Global,
        places: &[PhraseAt],
        out: &[PhraseAt],
    ) -> Result<MentionList, OutOfMemory>
        requires places { IsStrictlySortedBy phrase_cmp places.now }
        requires out { IsStrictlySortedBy phrase_cmp out.now }
        ensures { IfOk result (IsWithout places.now out.now) }
    {
        let mut list = MentionList::with_room(alloc, places.len())?;
        list.add_without(places, out).and(Ok(list))
    }

    /// Puts the places, which are in order, but for these, which are in order too, into the list, which has none yet.
    fn add_without(&mut self, places: &[PhraseAt], out: &[PhraseAt]) -> Result<(), OutOfMemory>
        requires none { self.old ≡ [] }
        requires places { IsStrictlySortedBy phrase_cmp places.now }
        requires out { IsStrictlySortedBy phrase_cmp out.now }
        ensures { OnOk result (IsWithout places.now out.now self.new) }
    {
        let mut rest = places;
        for at in out {
            let (front, back) = split_around(rest, *at);
            self.add_all(front)?;
            rest = back;
        }
        self.add_all(rest)?;
        Ok(())
    }

    /// The places, which are in order, with these, which are in order too; each stands there once. The stretches
    /// between those that come in are copied as a whole.
    fn with_more(
        alloc: Global,
        places: &[PhraseAt],
        more: &[PhraseAt],
    ) -> Result<MentionList, OutOfMemory>
        requires places { IsStrictlySortedBy phrase_cmp places.now }
        requires more { IsStrictlySortedBy phrase_cmp more.now }
        ensures { IfOk result (IsWith places.now more.now) }
    {
        let mut list = MentionList::with_room(alloc, places.len().saturating_add(more.len()))?;
        list.add_with(places, more).and(Ok(list))
    }

    /// Puts the places, which are in order, with these, which are in order too, into the list, which has none yet.
    fn add_with(&mut self, places: &[PhraseAt], more: &[PhraseAt]) -> Result<(), OutOfMemory>
        requires none { self.old ≡ [] }
        requires places { IsStrictlySortedBy phrase_cmp places.now }
        requires more { IsStrictlySortedBy phrase_cmp more.now }
        ensures { OnOk result (IsWith places.now more.now self.new) }
    {
        let mut rest = places;
        for at in more {
            let (front, back) = split_around(rest, *at);
            self.add_all(front)?;
            self.push(*at)?;
            rest = back;
        }
        self.add_all(rest)?;
        Ok(())
    }
}

/// Of the places, which are in order, those before the place and those behind it.
fn split_around<'a>(places: &'a [PhraseAt], at: PhraseAt) -> (&'a [PhraseAt], &'a [PhraseAt])
    requires sorted { IsStrictlySortedBy phrase_cmp places.now }
    ensures { (result.0.now ≡ earlier_places at places.now) × (result.1.now ≡ later_places at places.now) }
{
    match places.binary_search(&at) {
        Ok(k) => {
            let (front, _) = places.split_at(k);
            let (_, back) = places.split_at(k + 1);
            (front, back)
        }
        Err(k) => places.split_at(k),
    }
}
