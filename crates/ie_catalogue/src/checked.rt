// A catalogue that holds its entries, in which no octet is covered by two.
ghost use Rattle.std.specs.Prelude.{◌≡◌, ◌≤◌, false, [], ◌∷◌, ◌++◌, is_ok, IfOk, vec_len, vec_capacity};
ghost use Rattle.ie_catalogue.specs.Adding.{shares, clashes, adding, added_to};
ghost use Rattle.ie_catalogue.specs.Entries.{Sole};
ghost use Rattle.ie_catalogue.specs.Few.{few_held};
ghost use Rattle.ie_catalogue.specs.Refusals.{answered, add_refusal};

use crate::catalogue::Catalogue;
use crate::entry::Entry;
use crate::refusal::AddRefusal;
use std::alloc::{AllocError, Global};

// Room for 64 is made at once, so that adding never asks for memory.
#[derive(Drop)]
pub struct CheckedCatalogue {
    entries: Vec<Entry>,
    ghost few: { vec_len entries ≤ 64 },
    ghost room: { 64 ≤ vec_capacity entries },
    ghost sole: { Sole entries.items },
}

fn overlap(a: &Entry, b: &Entry) -> bool
    ensures { result ≡ shares a.now b.now }
{
    let (a_first, a_end) = a.span();
    let (b_first, b_end) = b.span();
    (a_first < b_end) & (b_first < a_end)
}

fn clash(held: &[Entry], added: &Entry) -> bool
    ensures value { result ≡ clashes held.now added.now }
    ensures sole { result ≡ false → Sole held.now → Sole (held.now ++ added.now ∷ []) }
{
    held.iter().any(|one| overlap(one, added))
}

impl CheckedCatalogue {
    pub fn new(heap: Global) -> Result<CheckedCatalogue, AllocError>
        ensures { IfOk result (λ c. c.entries.items ≡ []) }
    {
        let entries = Vec::with_capacity(heap, 64)?;
        Ok(CheckedCatalogue { entries })
    }

    // Refusal 6 where it has 64 entries, 8 where an octet is already covered.
    pub fn add(&mut self, added: Entry) -> Result<(), AddRefusal>
        ensures value { answered add_refusal result ≡ adding self.old.entries.items added }
        ensures after { self.new.entries.items ≡ added_to self.old.entries.items added }
        ensures kept { is_ok result ≡ false → self.new ≡ self.old }
        ensures sole { Sole self.new.entries.items }
    {
        if self.entries.len() >= 64 {
            return Err(AddRefusal::Full);
        }
        if clash(&self.entries, &added) {
            return Err(AddRefusal::Covered);
        }
        self.entries.push_reserved(added);
        Ok(())
    }
}

impl Catalogue for CheckedCatalogue {
    ghost entries = { λ c. c.entries.items };

    ghost few = { λ c. few_held c.entries c.few };

    fn count(&self) -> usize {
        self.entries.len()
    }

    fn entry(&self, position: usize) -> Option<Entry> {
        self.entries.get(position).copied()
    }
}
