// The worked cases, proved of the definitions.
ghost use Rattle.std.specs.Prelude.{◌≡◌, ℕ, ◌<◌, ◌≤◌, List, [], ◌∷◌, if◌then◌else◌, nat_eq};
ghost use Rattle.pricing.specs.Errors.{Fair};
ghost use Rattle.pricing.specs.Kinds.{held, total_ops, worst_ops};
ghost use Rattle.pricing.specs.Measures.{squared, distance, weighed, allowed, capped};
ghost use Rattle.pricing.specs.Plain.{plain};
ghost use Rattle.pricing.specs.Prices.{range_tally, map_tally, PricedAt};
ghost use Rattle.pricing.specs.Tallies.{Laws};
ghost use Rattle.tables.specs.Table.{given, Lawful, shown_by};
ghost use Rattle.counting.specs.Sound.{Sound};
ghost use Rattle.divisions.specs.Divisions.{BestOf, tally_of};
ghost use Rattle.divisions.specs.Figures.{priced_of, compared_of, PathStep};
ghost use Rattle.divisions.specs.Samples.{four_levels, two_levels, Totals, Worsts};
ghost use Rattle.divisions.specs.Theorems.{Serves};

// Each table is given by its levels, its bounds and its representatives, with the tally after it.
pub fn worked_cases()
    ensures one { Totals squared four_levels 1 (given 8 (7 ∷ []) (4 ∷ [])) 64 }
    ensures two { Totals squared four_levels 2 (given 8 (4 ∷ 7 ∷ []) (2 ∷ 7 ∷ [])) 8 }
    ensures three { Totals squared four_levels 3 (given 8 (1 ∷ 4 ∷ 7 ∷ []) (1 ∷ 4 ∷ 7 ∷ [])) 1 }
    ensures figures { (priced_of four_levels 3 ≡ 7) × (compared_of four_levels 3 ≡ 7) }
    ensures four { Totals squared four_levels 4 (given 8 (1 ∷ 3 ∷ 4 ∷ 7 ∷ []) (1 ∷ 3 ∷ 4 ∷ 7 ∷ [])) 0 }
    ensures many { Totals squared four_levels 256 (given 8 (1 ∷ 3 ∷ 4 ∷ 7 ∷ []) (1 ∷ 3 ∷ 4 ∷ 7 ∷ [])) 0 }
    ensures worst { Worsts squared four_levels 2 (given 8 (4 ∷ 7 ∷ []) (3 ∷ 7 ∷ [])) 4 }
    ensures ties { ((tally_of worst_ops squared four_levels (1 ∷ 3 ∷ [])).error ≡ 4) × ((tally_of worst_ops squared four_levels (2 ∷ 2 ∷ [])).error ≡ 4) × ((tally_of worst_ops squared four_levels (3 ∷ 1 ∷ [])).error ≡ 4) }
    ensures distances { Totals distance four_levels 1 (given 8 (7 ∷ []) (4 ∷ [])) 22 }
    ensures allowance { Totals (allowed 4 squared) four_levels 1 (given 8 (7 ∷ []) (4 ∷ [])) 35 }
    ensures weights { Totals (weighed (1 ∷ 1 ∷ 1 ∷ 1 ∷ 1 ∷ 1 ∷ 1 ∷ 0 ∷ []) squared) four_levels 1 (given 8 (7 ∷ []) (2 ∷ [])) 8 }
    ensures ceiling { Worsts (capped 9 squared) four_levels 1 (given 8 (7 ∷ []) (7 ∷ [])) 9 }
    ensures pair { Totals squared two_levels 1 (given 8 (7 ∷ []) (4 ∷ [])) 1 }
{}

// The theorems at the first ledger and the squared total: what they ask for can be met, and this is what they say there.
// The map of `scattered` sends the levels 1, 4 and 7 to one grey and the level 3 to another.
pub fn theorems_at_the_cases()
    ensures models { Laws total_ops × Laws worst_ops × Fair squared × Sound four_levels }
    ensures layers { Fair (allowed 4 squared) × Fair (weighed (1 ∷ 1 ∷ 1 ∷ 1 ∷ 1 ∷ 1 ∷ 1 ∷ 0 ∷ []) squared) × Fair (capped 9 squared) }
    ensures answered { PricedAt total_ops squared four_levels 1 7 4 (held 64) }
    ensures cheapest { (r : ℕ) → r < 1024 → 64 ≤ (range_tally total_ops squared four_levels 1 7 r).sum }
    ensures only { (runs : List ℕ) → BestOf total_ops squared four_levels 2 runs → runs ≡ 1 ∷ 3 ∷ [] }
    ensures more { (runs others : List ℕ) → BestOf total_ops squared four_levels 2 runs → BestOf total_ops squared four_levels 3 others → (tally_of total_ops squared four_levels others).sum ≤ (tally_of total_ops squared four_levels runs).sum }
    ensures enough { (runs : List ℕ) → BestOf total_ops squared four_levels 256 runs → (tally_of total_ops squared four_levels runs).sum ≡ 0 }
    ensures unbeaten { (f : ℕ → ℕ) (shown : List ℕ) → Serves four_levels 2 f shown → 8 ≤ (map_tally total_ops squared four_levels f).sum }
    ensures scattered { Serves four_levels 2 (λ l. (if nat_eq l 3 then 7 else 2)) (2 ∷ 7 ∷ []) }
    ensures charged { (map_tally total_ops squared four_levels (shown_by (given 8 (4 ∷ 7 ∷ []) (2 ∷ 7 ∷ [])))).sum ≡ 8 }
    ensures summed { plain four_levels (λ k. squared k (shown_by (given 8 (4 ∷ 7 ∷ []) (2 ∷ 7 ∷ [])) k)) 0 8 ≡ 8 }
    ensures stands { Lawful (given 8 (4 ∷ 7 ∷ []) (2 ∷ 7 ∷ [])) }
    ensures step { PathStep 4 3 1 2 1 }
{}
