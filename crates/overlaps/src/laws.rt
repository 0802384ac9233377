//! Laws of what an index has, finds and stores.
ghost use Rattle.std.specs.Prelude.{◌≡◌, ◌<◌, ◌↔◌, ◌&&◌, ◌||◌, Bool, false, List, None, find, nat_lt};
ghost use Rattle.std.specs.List.{list_any};
ghost use Rattle.model.specs.Tables.{Period};
ghost use Rattle.overlaps.specs.Index.{shares_day, with_item};

/// Two periods share a day exactly where each starts before the other ends.
pub fn sharing_is_overlap()
    ensures { (p q : Period) → p.start < p.end → q.start < q.end → shares_day p q ≡ (nat_lt q.start p.end && nat_lt p.start q.end) }
{}

/// Of periods with one more, some pass a test exactly where that one does or some did before; and a
/// search finds none exactly where none passes.
pub fn one_more_period()
    ensures some { (test : Period → Bool) (p : Period) (periods : List Period) → list_any test (with_item (λ q. q) p periods) ≡ (test p || list_any test periods) }
    ensures none { (test : Period → Bool) (periods : List Period) → (find test periods ≡ None) ↔ (list_any test periods ≡ false) }
{}
