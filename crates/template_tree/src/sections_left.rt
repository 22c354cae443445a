//! Which section of a node's row the next item stands in.
ghost use Rattle.std.specs.Prelude.{◌≡◌, map, option_map};
ghost use Rattle.plcs_grammar.specs.Template.{plain_section};
ghost use Rattle.template_tree.specs.Listings.PlainSectionsLeft.{plain_sections_left};
ghost use Rattle.template_tree.specs.Listings.Section.{left_after, left_for, next_lead};

use plcs_grammar::{Amount, Section, Sort};

/// The sections of a row that are left for the next items, and whether the first of them has items
/// already.
#[derive(Clone, Copy)]
pub struct SectionsLeft {
    sections: &'static [Section],
    begun: bool,
}

impl SectionsLeft {
    /// All the sections of a row, as they are left for its first item.
    pub fn of(sections: &'static [Section]) -> SectionsLeft
        ensures { plain_sections_left result ≡ map plain_section sections.now }
    {
        SectionsLeft {
            sections,
            begun: false,
        }
    }

    /// The sections that are left for an item of the sort and the items after it.
    #[inline(always)]
    pub fn at(self, sort: Sort) -> SectionsLeft
        ensures { plain_sections_left result ≡ left_for sort (plain_sections_left self) }
    {
        let Some((section, others)) = self.sections.split_first() else {
            return self;
        };
        if section.sort == sort {
            return self;
        }
        SectionsLeft::of(sections_from(others, sort))
    }

    /// The line that stands before the section of a node's row in which the next item stands, if it has one
    /// that isn't written yet.
    pub fn lead(self) -> Option<&'static [u8]>
        ensures { option_map (λ bytes. bytes.now) result ≡ next_lead (plain_sections_left self) }
    {
        if self.begun {
            return None;
        }
        let Some((section, _)) = self.sections.split_first() else {
            return None;
        };
        section.lead
    }

    /// The sections that are left after an item of the first one among them.
    pub fn after(self) -> SectionsLeft
        ensures { plain_sections_left result ≡ left_after (plain_sections_left self) }
    {
        let Some((section, others)) = self.sections.split_first() else {
            return self;
        };
        match section.amount {
            Amount::One => SectionsLeft::of(others),
            Amount::Many => SectionsLeft {
                sections: self.sections,
                begun: true,
            },
        }
    }
}

/// The sections from the first one of the sort on.
#[inline(never)]
fn sections_from(sections: &'static [Section], sort: Sort) -> &'static [Section]
    ensures { map plain_section result.now ≡ left_for sort (map plain_section sections.now) }
{
    let Some((section, others)) = sections.split_first() else {
        return sections;
    };
    if section.sort == sort {
        return sections;
    }
    sections_from(others, sort)
}
