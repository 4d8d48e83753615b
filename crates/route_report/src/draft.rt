//! What the lines of a report have said so far.
ghost use Rattle.std.specs.Prelude.{◌≡◌, [], Ok, option_map};
ghost use Rattle.ar_space.specs.Outcome.{Answers, AnswersInPlace, NotMemory, seen};
ghost use Rattle.route_report.specs.Reading.{first_said, with_link, with_wired, with_sci, with_avoid, with_spared};
ghost use Rattle.route_report.specs.Reading.{with_option, with_rule, with_give, with_busiest, with_bound, here};
ghost use Rattle.route_report.specs.Reading.{claimed};
ghost use Rattle.route_report.specs.Ordered.{barred_by};

use crate::ordered::{barred, bound_in_order, gives_in_order, in_order, links_in_order};
use crate::report::Rule;
use crate::version::Version;
use crate::words::bad_line;
use aml_path::Path;
use ar_space::{MAX_LINKS, MAX_PINS, Result};
use route_check::{Bound, Claim};
use route_model::Link;
use std::alloc::Global;
use std::marker::Model;

/// A claim that isn't whole yet. Of a bound, and of the interrupt that the System Control Interrupt is wired to, that
/// there is none is said too. Of devices whose interrupts are spared, that lines may tell of them.
#[derive(Drop)]
pub(crate) struct Draft {
    links: Vec<Link>,
    wired: Vec<(u32, u32)>,
    sci: Option<Option<u32>>,
    avoid: Option<Vec<u32>>,
    spared: Option<Vec<u32>>,
    rule: Option<Rule>,
    gives: Vec<(Path, u32)>,
    busiest: Option<u32>,
    bound: Option<Option<Bound>>,
}

impl Model for Draft {
    ghost use Rattle.std.specs.Prelude.{option_map};
    ghost use Rattle.route_report.specs.Reading.{Said};

    ghost Value = { Said };

    ghost view = { λ d. record { links = d.links.items; wired = d.wired.items; sci = d.sci; avoid = option_map (λ v. v.items) d.avoid; spared = option_map (λ v. v.items) d.spared; rule = d.rule; gives = d.gives.items; busiest = d.busiest; bound = d.bound } };
}

impl Draft {
    /// What the first line says of a report of this version. It takes no memory.
    pub(crate) fn new(alloc: Global, version: Version) -> Draft
        ensures { result ≡ first_said version }
    {
        let (sci, avoid) = first_said(alloc, version);
        Draft {
            links: Vec::new(alloc),
            wired: Vec::new(alloc),
            sci,
            avoid,
            spared: spared_first(alloc, version),
            rule: rule_first(version),
            gives: Vec::new(alloc),
            busiest: None,
            bound: None,
        }
    }

    /// A link more.
    #[tactic(auto, using(ar_space::proofs::Outcomes::answering), unfolding(crate::specs::Reading::with_link))]
    pub(crate) fn add_link(&mut self, n: usize, link: Link) -> Result<()>
        ensures { Answers (seen (λ _. self.new) result) (with_link n link self.old) }
    {
        if self.links.len() < MAX_LINKS {
            self.links.push(link)?;
            Ok(())
        } else {
            Err(bad_line(n))
        }
    }

    /// A wired interrupt more.
    #[tactic(auto, using(ar_space::proofs::Outcomes::answering), unfolding(crate::specs::Reading::with_wired))]
    pub(crate) fn add_wired(&mut self, n: usize, wired: (u32, u32)) -> Result<()>
        ensures { Answers (seen (λ _. self.new) result) (with_wired n wired self.old) }
    {
        if self.wired.len() < MAX_PINS {
            self.wired.push(wired)?;
            Ok(())
        } else {
            Err(bad_line(n))
        }
    }

    /// The interrupt that the System Control Interrupt is wired to, once.
    #[tactic(auto, using(ar_space::proofs::Outcomes::answering), unfolding(crate::specs::Reading::with_sci))]
    pub(crate) fn set_sci(&mut self, n: usize, sci: Option<u32>) -> Result<()>
        ensures answer { Answers (seen (λ _. self.new) result) (with_sci n sci self.old) }
        ensures memory { NotMemory result }
    {
        if self.sci.is_some() {
            return Err(bad_line(n));
        }
        self.sci = Some(sci);
        Ok(())
    }

    /// The interrupts that are avoided, once.
    #[tactic(auto, using(ar_space::proofs::Outcomes::answering), unfolding(crate::specs::Reading::with_avoid))]
    pub(crate) fn set_avoid(&mut self, n: usize, avoid: Vec<u32>) -> Result<()>
        ensures answer { Answers (seen (λ _. self.new) result) (with_avoid n avoid.items self.old) }
        ensures memory { NotMemory result }
    {
        if self.avoid.is_some() {
            return Err(bad_line(n));
        }
        self.avoid = Some(avoid);
        Ok(())
    }

    /// The interrupts of one device more, where lines may tell of these.
    #[tactic(auto, using(ar_space::proofs::Outcomes::answering), unfolding(crate::specs::Reading::with_spared))]
    pub(crate) fn add_spared(&mut self, n: usize, mut interrupts: Vec<u32>) -> Result<()>
        ensures { Answers (seen (λ _. self.new) result) (with_spared n interrupts.items self.old) }
    {
        let mut spared = numbers_here(n, self.spared.take())?;
        spared.append(&mut interrupts)?;
        self.spared = Some(spared);
        Ok(())
    }

    /// A line of options that claims nothing, where lines may tell of options.
    #[tactic(auto, using(ar_space::proofs::Outcomes::answering), unfolding(crate::specs::Reading::with_option))]
    pub(crate) fn add_option(&self, n: usize) -> Result<()>
        ensures answer { Answers (seen (λ _. self.now) result) (with_option n self.now) }
        ensures memory { NotMemory result }
    {
        if self.spared.is_some() {
            Ok(())
        } else {
            Err(bad_line(n))
        }
    }

    /// The rule of the choice, once.
    #[tactic(auto, using(ar_space::proofs::Outcomes::answering), unfolding(crate::specs::Reading::with_rule))]
    pub(crate) fn set_rule(&mut self, n: usize, rule: Rule) -> Result<()>
        ensures answer { Answers (seen (λ _. self.new) result) (with_rule n rule self.old) }
        ensures memory { NotMemory result }
    {
        if self.rule.is_some() {
            return Err(bad_line(n));
        }
        self.rule = Some(rule);
        Ok(())
    }

    /// What one link more is given.
    #[tactic(auto, using(ar_space::proofs::Outcomes::answering), unfolding(crate::specs::Reading::with_give))]
    pub(crate) fn add_give(&mut self, n: usize, give: (Path, u32)) -> Result<()>
        ensures { Answers (seen (λ _. self.new) result) (with_give n give self.old) }
    {
        self.gives.push(give)?;
        Ok(())
    }

    /// How many sources the busiest interrupt serves, once.
    #[tactic(auto, using(ar_space::proofs::Outcomes::answering), unfolding(crate::specs::Reading::with_busiest))]
    pub(crate) fn set_busiest(&mut self, n: usize, busiest: u32) -> Result<()>
        ensures answer { Answers (seen (λ _. self.new) result) (with_busiest n busiest self.old) }
        ensures memory { NotMemory result }
    {
        if self.busiest.is_some() {
            return Err(bad_line(n));
        }
        self.busiest = Some(busiest);
        Ok(())
    }

    /// Why no assignment has a less busy one, once.
    #[tactic(auto, using(ar_space::proofs::Outcomes::answering), unfolding(crate::specs::Reading::with_bound))]
    pub(crate) fn set_bound(&mut self, n: usize, bound: Option<Bound>) -> Result<()>
        ensures answer { Answers (seen (λ _. self.new) result) (with_bound n bound self.old) }
        ensures memory { NotMemory result }
    {
        if self.bound.is_some() {
            return Err(bad_line(n));
        }
        self.bound = Some(bound);
        Ok(())
    }

    /// The claim, each of its lists in order, of a report that has n - 1 lines.
    #[tactic(auto, using(crate::proofs::Orders::claiming), unfolding(crate::specs::Reading::claimed))]
    pub(crate) fn claim(self, n: usize) -> Result<Claim>
        ensures { Answers result (claimed n self) }
    {
        let sci = sci_here(n, self.sci)?;
        let avoid = numbers_here(n, self.avoid)?;
        let rule = rule_here(n, self.rule)?;
        let busiest = busiest_here(n, self.busiest)?;
        let bound = bound_here(n, self.bound)?;
        let avoid = barred_by(avoid, self.spared)?;
        Ok(Claim {
            links: links_in_order(self.links),
            wired: in_order(self.wired),
            sci,
            avoid,
            gives: gives_in_order(self.gives),
            busiest,
            bound: bound_in_order(bound),
            spread: rule.is_spread(),
        })
    }
}

/// What a report of this version has said by its first line of the System Control Interrupt, and of what is avoided.
fn first_said(alloc: Global, version: Version) -> (Option<Option<u32>>, Option<Vec<u32>>)
    ensures sci { result.0 ≡ (first_said version).sci }
    ensures avoid { option_map (λ v. v.items) result.1 ≡ (first_said version).avoid }
{
    match version {
        Version::One => (Some(None), Some(Vec::new(alloc))),
        Version::Two | Version::Three => (None, None),
    }
}

/// What it has said of interrupts that are spared.
fn spared_first(alloc: Global, version: Version) -> Option<Vec<u32>>
    ensures { option_map (λ v. v.items) result ≡ (first_said version).spared }
{
    match version {
        Version::One | Version::Two => None,
        Version::Three => Some(Vec::new(alloc)),
    }
}

/// What it has said of the rule of the choice.
fn rule_first(version: Version) -> Option<Rule>
    ensures { result ≡ (first_said version).rule }
{
    match version {
        Version::One | Version::Two => Some(Rule::First),
        Version::Three => None,
    }
}

/// The interrupts that no link may be given.
fn barred_by(avoid: Vec<u32>, spared: Option<Vec<u32>>) -> Result<Vec<u32>>
    ensures { Answers (seen (λ v. v.items) result) (Ok (barred_by avoid.items (option_map (λ v. v.items) spared))) }
{
    match spared {
        Some(spared) => barred(avoid, spared),
        None => Ok(avoid),
    }
}

/// What was said of the rule of the choice.
#[tactic(auto, using(ar_space::proofs::Outcomes::answering))]
fn rule_here(n: usize, rule: Option<Rule>) -> Result<Rule>
    ensures { AnswersInPlace result (here n rule) }
{
    match rule {
        Some(rule) => Ok(rule),
        None => Err(bad_line(n)),
    }
}

/// What was said of the System Control Interrupt.
#[tactic(auto, using(ar_space::proofs::Outcomes::answering))]
fn sci_here(n: usize, sci: Option<Option<u32>>) -> Result<Option<u32>>
    ensures { AnswersInPlace result (here n sci) }
{
    match sci {
        Some(sci) => Ok(sci),
        None => Err(bad_line(n)),
    }
}

/// Interrupts that were said.
#[tactic(auto, using(ar_space::proofs::Outcomes::answering))]
fn numbers_here(n: usize, numbers: Option<Vec<u32>>) -> Result<Vec<u32>>
    ensures answer { Answers (seen (λ v. v.items) result) (here n (option_map (λ v. v.items) numbers)) }
    ensures memory { NotMemory result }
{
    match numbers {
        Some(numbers) => Ok(numbers),
        None => Err(bad_line(n)),
    }
}

/// What was said of the busiest interrupt.
#[tactic(auto, using(ar_space::proofs::Outcomes::answering))]
fn busiest_here(n: usize, busiest: Option<u32>) -> Result<u32>
    ensures { AnswersInPlace result (here n busiest) }
{
    match busiest {
        Some(busiest) => Ok(busiest),
        None => Err(bad_line(n)),
    }
}

/// What was said of the bound.
#[tactic(auto, using(ar_space::proofs::Outcomes::answering))]
fn bound_here(n: usize, bound: Option<Option<Bound>>) -> Result<Option<Bound>>
    ensures { AnswersInPlace result (here n bound) }
{
    match bound {
        Some(bound) => Ok(bound),
        None => Err(bad_line(n)),
    }
}
