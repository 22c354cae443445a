//! How far a list has come, section by section.
ghost use Rattle.std.specs.Prelude.{◌≡◌, ℕ, map, codes, option_map};
ghost use Rattle.plcs_grammar.specs.Template.{plain_section};
ghost use Rattle.file_store.specs.Private.Reader.{advanced, filling_after, goes_on, is_text, led_sections, optional, unfilled};
ghost use Rattle.file_store.specs.Private.Views.{filling_of};

use plcs_grammar::{Amount, Section, Sort};

/// How far a list has come.
#[derive(Clone, Copy)]
pub(crate) struct Filling {
    /// The sort of the list that goes on, if one does.
    pub(crate) going: Option<Sort>,
    /// The sections that are left behind it.
    pub(crate) left: &'static [Section],
    /// Whether the line before the first of these was read.
    pub(crate) led: bool,
}

impl Filling {
    /// How far a list of these sections has come before any item.
    pub(crate) fn of(sections: &'static [Section]) -> Filling
        ensures { filling_of result ≡ unfilled (map plain_section sections.now) }
    {
        Filling {
            going: None,
            left: sections,
            led: false,
        }
    }

    /// How far the list has come behind an item of the sort, if one may come without a line before it.
    pub(crate) fn advanced(self, sort: Sort) -> Option<Filling>
        ensures { option_map filling_of result ≡ advanced sort (filling_of self) }
    {
        if goes_on(self.going, sort) {
            return Some(self);
        }
        let Some((section, left)) = self.left.split_first() else {
            return None;
        };
        if section.sort != sort {
            return None;
        }
        if !self.led && section.lead.is_some() {
            return None;
        }
        Some(behind(section.amount, section.sort, left))
    }

    /// How far the list has come behind the line before a section, if that is wanted.
    pub(crate) fn behind_lead(self) -> Option<Filling>
        ensures { option_map filling_of result ≡ led_sections (codes "ELSE") (filling_of self).left }
    {
        let Some((section, _)) = self.left.split_first() else {
            return None;
        };
        if self.led {
            return None;
        }
        if !is_text(LEAD, section.lead) {
            return None;
        }
        Some(Filling {
            going: None,
            left: self.left,
            led: true,
        })
    }

    /// Whether the list may end where it has come.
    pub(crate) fn may_end(self) -> bool
        ensures { result ≡ optional (filling_of self).left }
    {
        let Some((section, left)) = self.left.split_first() else {
            return true;
        };
        if self.led || section.lead.is_none() {
            return false;
        }
        are_optional(left)
    }
}

/// The line before a section, behind which a list has come into it.
pub(crate) const LEAD: &[u8] = b"ELSE";

/// The last line of a node, where its list has come to its end.
pub(crate) const LAST: &[u8] = b"END;";

/// Whether a list of this sort goes on where it has come behind an item.
fn goes_on(going: Option<Sort>, sort: Sort) -> bool
    ensures { result ≡ goes_on going sort }
{
    match going {
        None => false,
        Some(own) => own == sort,
    }
}

/// How far a list has come behind an item of a section.
fn behind(amount: Amount, sort: Sort, left: &'static [Section]) -> Filling
    ensures { filling_of result ≡ filling_after amount sort (map plain_section left.now) }
{
    let going = match amount {
        Amount::One => None,
        Amount::Many => Some(sort),
    };
    Filling {
        going,
        left,
        led: false,
    }
}

/// Whether the text is that line of the table, at which a list goes on or ends, if there is one.
pub(crate) fn is_text(text: &[u8], own: Option<&[u8]>) -> bool
    ensures { result ≡ is_text text.now (option_map (λ own. own.now) own.entry) }
{
    match own {
        None => false,
        Some(own) => text == own,
    }
}

/// Whether a list that is read has come so far that it may end: each of the sections that it has left may be
/// absent.
fn are_optional(sections: &[Section]) -> bool
    ensures { result ≡ optional (map plain_section sections.now) }
{
    let Some((section, left)) = sections.split_first() else {
        return true;
    };
    if section.lead.is_none() {
        return false;
    }
    are_optional(left)
}
