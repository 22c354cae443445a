//! The places of the phrases that mention each name.
ghost use Rattle.std.specs.Prelude.{◌≡◌, ◌+◌, ◌<◌, ◌≤◌, ◌∷◌, [], ℕ, if◌then◌else◌, IfOk, List, OnOk, Some, bytes_eq, is_some, length, slice_get};
ghost use Rattle.std.specs.List.{list_any};
ghost use Rattle.std.specs.Map.{keys_of, lookup};
ghost use Rattle.decl_table.specs.DeclEdit.{changed_or};
ghost use Rattle.std.specs.Option.{option_flatten};
ghost use Rattle.template_tree.specs.Checks.Mention.{phrase_at};
ghost use Rattle.decl_table.specs.PlainDecls.{PlainUses, mentions_of};
ghost use Rattle.decl_table.specs.Private.PlainNameNode.{HaveFewParts, kept_mention, kept_mentions, name_forest, node_names};
ghost use Rattle.decl_table.specs.Private.UsesView.{AddsUnderNames, AddsNodes, AddsPart, AddsParts, AreOrdered, AreSettled, IsNameMended, IsSettled, IsSettling, MendsNames};

use crate::mention_list::MentionList;
use crate::name_node::NameNode;
use indexmap::IndexMap;
use plcs_base::{Name, OutOfMemory, PhraseAt};
use std::alloc::Global;
use std::marker::Model;

/// For each name the places of the phrases that mention it, which contracts see as a list of pairs, with how many more
/// names there is room for.
#[derive(Drop)]
pub(crate) struct Uses {
    places: IndexMap<Name, MentionList>,
}

impl Model for Uses {
    ghost use Rattle.indexmap.specs.IndexMap.{spare};
    ghost use Rattle.decl_table.specs.Private.UsesView.{RoomyUses, roomy_uses_code};

    ghost Value = { RoomyUses };

    ghost coded = { roomy_uses_code };

    ghost view = { λ a. record { uses = a.places.entries; spare = spare a.places } };
}

impl Uses {
    /// Nothing is noted: no name is mentioned.
    pub(crate) fn new(alloc: Global) -> Uses
        ensures { result.uses ≡ [] }
    {
        Uses {
            places: IndexMap::new(alloc),
        }
    }

    /// The places of the phrases in the node and inside it, in order, under the names that they mention.
    pub(crate) fn of(alloc: Global, node: &NameNode) -> Result<Uses, OutOfMemory>
        requires few { HaveFewParts (node_names node.now) }
        ensures { IfOk result (λ uses. (name : List ℕ)
            → IsSettled (kept_mentions name (node_names node.now)) (mentions_of name uses.uses)) }
    {
        let mut uses = Uses::new(alloc);
        match uses.note_node(alloc, node) {
            Ok(()) => {
                uses.settle();
                Ok(uses)
            }
            Err(OutOfMemory) => {
                drop(uses);
                Err(OutOfMemory)
            }
        }
    }

    /// The place of what stands in a part of the node, if a phrase does, under the names that it mentions.
    pub(crate) fn of_part(alloc: Global, node: &NameNode, part: u8) -> Result<Uses, OutOfMemory>
        ensures { IfOk result (λ uses. (name : List ℕ)
            → IsSettled (kept_mention name (phrase_at node.now.label.slot part)
            (option_flatten (slice_get node.now.label.parts part))) (mentions_of name uses.uses)) }
    {
        let mut uses = Uses::new(alloc);
        match uses.note_part(alloc, node, part) {
            Ok(()) => {
                uses.settle();
                Ok(uses)
            }
            Err(OutOfMemory) => {
                drop(uses);
                Err(OutOfMemory)
            }
        }
    }

    /// The places that are noted under the name, of the phrases that mention it.
    pub(crate) fn under(&self, name: &Name) -> &[PhraseAt]
        ensures { result.now ≡ mentions_of name.now self.now.uses }
    {
        match self.places.get(name) {
            Some(places) => places.as_slice(),
            None => &[],
        }
    }

    /// Whether something is noted under the name, if only that no phrase mentions it.
    pub(crate) fn has(&self, name: &Name) -> bool
        ensures { result ≡ is_some (lookup (bytes_eq name.now) self.now.uses) }
    {
        self.places.contains_key(name)
    }

    /// Under how many names something is noted.
    pub(crate) fn len(&self) -> usize
        ensures { result ≡ length self.now.uses }
    {
        self.places.len()
    }

    /// The name of this number under which something is noted.
    fn name(&self, k: usize) -> &Name
        requires there { k < length self.now.uses }
        ensures { slice_get (keys_of self.now.uses) k ≡ Some result.now }
    {
        match self.places.get_index(k) {
            Some((name, _)) => name,
            None => unreachable!(),
        }
    }

    /// Puts the places that are noted under each name in order of slot and part, each once.
    fn settle(&mut self)
        ensures { AreSettled self.old.uses self.new.uses }
    {
        for k in 0..self.len() {
            self.settle_at(k);
        }
    }

    /// Puts the places that are noted under the name of this number, if there is one, in order of slot and part, each
    /// once.
    fn settle_at(&mut self, k: usize)
        ensures { (first : PlainUses) → IsSettling k first self.old.uses → IsSettling (k + 1) first self.new.uses }
    {
        if let Some(places) = self.places.get_index_mut(k) {
            places.settle();
        }
    }
}

impl Uses {
    /// Notes the phrases in the node and inside it under the names that they mention.
    #[cycle(note_node)]
    fn note_node(&mut self, alloc: Global, node: &NameNode) -> Result<(), OutOfMemory>
        requires few { HaveFewParts (node_names node.now) }
        ensures { OnOk result (AddsNodes (node_names node.now) self.old.uses self.new.uses) }
    {
        self.note_parts(alloc, node)?;
        self.note_nodes(alloc, node.nodes_inside())
    }

    /// Notes the phrases in the nodes and inside them under the names that they mention.
    #[cycle(note_node)]
    fn note_nodes(&mut self, alloc: Global, nodes: &[NameNode]) -> Result<(), OutOfMemory>
        requires few { HaveFewParts (name_forest nodes.now) }
        ensures { OnOk result (AddsNodes (name_forest nodes.now) self.old.uses self.new.uses) }
    {
        for node in nodes {
            self.note_node(alloc, node)?;
        }
        Ok(())
    }

    /// Notes what stands in the parts of the node under the names that it mentions.
    fn note_parts(&mut self, alloc: Global, node: &NameNode) -> Result<(), OutOfMemory>
        requires few { length node.now.label.parts < 256 }
        ensures { OnOk result (AddsParts node.now.label.slot 0 node.now.label.parts self.old.uses self.new.uses) }
    {
        let mut part = 0;
        while (part as usize) < node.parts() {
            self.note_part(alloc, node, part)?;
            part += 1;
        }
        Ok(())
    }

    /// Notes what stands in a part of the node, a phrase or nothing, under the names that it mentions.
    fn note_part(&mut self, alloc: Global, node: &NameNode, part: u8) -> Result<(), OutOfMemory>
        ensures { OnOk result (AddsPart node.now part self.old.uses self.new.uses) }
    {
        match node.part(part) {
            None => Ok(()),
            Some(names) => {
                let at = PhraseAt {
                    slot: node.slot(),
                    part,
                };
                self.note_names(alloc, names.as_slice(), at)
            }
        }
    }

    /// Notes the place of a phrase under each of the names that it mentions.
    fn note_names(&mut self, alloc: Global, names: &[Name], at: PhraseAt) -> Result<(), OutOfMemory>
        ensures { OnOk result (AddsUnderNames names.now at self.old.uses self.new.uses) }
    {
        for name in names {
            self.note(alloc, name, at)?;
        }
        Ok(())
    }

    /// Notes the place of a phrase under one name that it mentions.
    fn note(&mut self, alloc: Global, name: &Name, at: PhraseAt) -> Result<(), OutOfMemory>
        ensures { OnOk result (AddsUnderNames (name.now ∷ []) at self.old.uses self.new.uses) }
    {
        if let Some(places) = self.places.get_mut(name) {
            places.push(at)?;
            return Ok(());
        }
        let places = MentionList::of(alloc, at)?;
        drop(self.places.insert(name.copy(), places)?);
        Ok(())
    }
}

impl Uses {
    /// What is noted under each name once phrases went from these places and came to those, each in order: the names
    /// alone under which other places are noted then.
    pub(crate) fn mended(
        &self,
        alloc: Global,
        went: &Uses,
        came: &Uses,
    ) -> Result<Uses, OutOfMemory>
        requires kept { AreOrdered self.now.uses }
        requires went { AreOrdered went.now.uses }
        requires came { AreOrdered came.now.uses }
        ensures { IfOk result (λ mended. (name : List ℕ)
            → IsNameMended self.now.uses went.now.uses came.now.uses mended.uses name) }
    {
        let mut mended = Uses::new(alloc);
        mended.mend_all(alloc, self, went, came).and(Ok(mended))
    }

    /// Notes what is left of the uses of each name once phrases went and came, where nothing is noted yet.
    fn mend_all(
        &mut self,
        alloc: Global,
        before: &Uses,
        went: &Uses,
        came: &Uses,
    ) -> Result<(), OutOfMemory>
        requires none { self.old.uses ≡ [] }
        requires before { AreOrdered before.now.uses }
        requires went { AreOrdered went.now.uses }
        requires came { AreOrdered came.now.uses }
        ensures { OnOk result ((name : List ℕ)
            → IsNameMended before.now.uses went.now.uses came.now.uses self.new.uses name) }
    {
        let Ok(()) = self.mend_names(alloc, went, before, went, came) else {
            return Err(OutOfMemory);
        };
        self.mend_names(alloc, came, before, went, came)
    }

    /// Notes what is left of the uses of each name under which something is noted in these, once phrases went and
    /// came.
    fn mend_names(
        &mut self,
        alloc: Global,
        names: &Uses,
        before: &Uses,
        went: &Uses,
        came: &Uses,
    ) -> Result<(), OutOfMemory>
        requires before { AreOrdered before.now.uses }
        requires went { AreOrdered went.now.uses }
        requires came { AreOrdered came.now.uses }
        ensures { OnOk result (MendsNames (λ name. list_any (bytes_eq name) (keys_of names.now.uses))
            before.now.uses went.now.uses came.now.uses self.old.uses self.new.uses) }
    {
        for k in 0..names.len() {
            self.mend(alloc, names.name(k), before, went, came)?;
        }
        Ok(())
    }

    /// Notes what is left of the uses of the name once phrases went and came, if that is something else and wasn't
    /// noted yet.
    fn mend(
        &mut self,
        alloc: Global,
        name: &Name,
        before: &Uses,
        went: &Uses,
        came: &Uses,
    ) -> Result<(), OutOfMemory>
        requires before { AreOrdered before.now.uses }
        requires went { AreOrdered went.now.uses }
        requires came { AreOrdered came.now.uses }
        ensures { OnOk result (MendsNames (bytes_eq name.now)
            before.now.uses went.now.uses came.now.uses self.old.uses self.new.uses) }
    {
        if self.has(name) {
            return Ok(());
        }
        let mended = MentionList::mended(
            alloc,
            before.under(name),
            went.under(name),
            came.under(name),
        );
        match mended {
            Ok(None) => Ok(()),
            Ok(Some(places)) => self.insert(name, places),
            Err(OutOfMemory) => Err(OutOfMemory),
        }
    }

    /// Notes these places under the name, in place of those that were.
    fn insert(&mut self, name: &Name, places: MentionList) -> Result<(), OutOfMemory>
        ensures { OnOk result ((other : List ℕ) → lookup (bytes_eq other) self.new.uses
            ≡ (if bytes_eq name.now other then Some places else lookup (bytes_eq other) self.old.uses)) }
    {
        drop(self.places.insert(name.copy(), places)?);
        Ok(())
    }

    /// Makes room for so many more names.
    pub(crate) fn reserve(&mut self, names: usize) -> Result<(), OutOfMemory>
        ensures same { self.new.uses ≡ self.old.uses }
        ensures kept { self.old.spare ≤ self.new.spare }
        ensures room { OnOk result (names ≤ self.new.spare) }
    {
        self.places.reserve(names)?;
        Ok(())
    }

    /// Notes what is noted in the other ones under each of their names, in place of what was. It takes no memory.
    pub(crate) fn put_in_place(&mut self, other: Uses)
        requires room { length other.uses ≤ self.old.spare }
        ensures { (name : List ℕ) → mentions_of name self.new.uses
            ≡ changed_or (lookup (bytes_eq name) other.uses) (mentions_of name self.old.uses) }
    {
        let Uses { places } = other;
        let mut rest = places;
        while let Some((name, list)) = rest.pop() {
            self.put(name, list);
        }
        drop(rest);
    }

    /// Notes these places under the name, in place of those that were; nothing more is noted where there are none. It
    /// takes no memory.
    fn put(&mut self, name: Name, list: MentionList)
        requires room { 0 < self.old.spare }
        ensures updates { (other : List ℕ) → mentions_of other self.new.uses
            ≡ (if bytes_eq name other then list else mentions_of other self.old.uses) }
        ensures room { self.old.spare ≤ self.new.spare + 1 }
    {
        if list.is_empty() {
            drop(self.places.swap_remove(&name));
            drop(list);
            return;
        }
        match self.places.insert(name, list) {
            Ok(other) => drop(other),
            Err(_) => unreachable!(),
        }
    }
}
