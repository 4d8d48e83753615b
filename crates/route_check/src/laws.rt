//! Which claims are valid: each law is the contract of a function that does nothing.
ghost use Rattle.std.specs.Prelude.{◌≡◌, ◌⊎◌, [], ℕ, List, Option, None, map};
ghost use Rattle.std.specs.List.Sorted.{IsStrictlyIncreasing, IsStrictlySortedBy};
ghost use Rattle.aml_path.specs.Paths.{path_cmp};
ghost use Rattle.route_model.specs.Links.{OfferingLink, paths_of};
ghost use Rattle.route_model.specs.Routing.{busiest, IsAssignment};
ghost use Rattle.route_model.specs.Bound.{IsLowerBound};
ghost use Rattle.route_check.specs.Claimed.{claim_of};
ghost use Rattle.route_check.specs.Claims.{RoutingClaim};
ghost use Rattle.route_check.specs.Valid.{effective_offers, effective_counts, Valid};

/// The claim that is made of links in path order, an assignment of them with its busiest interrupt, and a bound for
/// it is valid, whichever interrupts are avoided and whichever the System Control Interrupt is wired to: the
/// assignment gives no interrupt that is avoided, and the pins and the System Control Interrupt are its sources
/// beside the links.
pub fn an_assignment_with_its_bound_is_valid()
    ensures { (links : List OfferingLink) (wired : List (ℕ × ℕ)) (sci : Option ℕ) (avoid choice : List ℕ) (k : ℕ)
        (places interrupts : List ℕ) → let claim = claim_of links wired sci avoid choice k places interrupts in let
        offers = map (effective_offers claim) links in let counts =
        effective_counts claim in IsStrictlySortedBy path_cmp (paths_of links) →
        IsStrictlyIncreasing (map (λ w. w.0) wired) → IsAssignment offers choice → busiest counts choice ≡ k →
        (k ≡ 0) ⊎ IsLowerBound offers counts k places interrupts → Valid claim }
{}

/// A claim of version 1 keeps its meaning: where no interrupt is avoided a link may be given all that it offers, and
/// where there is no System Control Interrupt the counts are those of the claim.
pub fn a_claim_of_version_1_keeps_its_meaning()
    ensures offers { (c : RoutingClaim) (l : OfferingLink) → c.avoid ≡ [] → effective_offers c l ≡ l.offers }
    ensures counts { (c : RoutingClaim) → c.sci ≡ None → effective_counts c ≡ c.wired }
{}
