//! Rules in memory: all parts of a text in one list.

ghost use Rattle.std.specs.Prelude.{◌≡◌, ◌++◌, [], ◌∷◌, MatchOption, OnErr, OnOk};
ghost use Rattle.gtd_hours2.specs.Stored.{BeginsWith, rule_of};

use crate::values::{RuleHead, RulePart};
use std::alloc::{AllocError, Global};
use std::marker::Model;

// A rule's head, and how many parts it has.
#[derive(Clone, Copy)]
struct RuleEntry {
    head: RuleHead,
    count: usize,
}

/// Rules, in order. In contracts they are a list of `Rule`s, each with its head and its parts.
#[derive(Drop)]
pub struct Rules {
    parts: Vec<RulePart>,
    entries: Vec<RuleEntry>,
}

impl Model for Rules {
    ghost use Rattle.std.specs.Prelude.{List};
    ghost use Rattle.gtd_hours2.specs.Rules.{Rule};
    ghost use Rattle.gtd_hours2.specs.Stored.{AreCounted, rules_of};

    ghost Value = { List Rule };

    ghost view = { λ a. rules_of a.parts.items a.entries.items };

    ghost invariant = { λ a. AreCounted a.parts.items a.entries.items };
}

impl Rules {
    /// No rules. Takes no memory.
    pub fn new(alloc: Global) -> Rules
        ensures value { result ≡ [] }
    {
        Rules {
            parts: Vec::new(alloc),
            entries: Vec::new(alloc),
        }
    }

    /// Adds a rule after the others. If memory is refused, the rules stay as they are.
    pub fn push(&mut self, head: RuleHead, parts: &[RulePart]) -> Result<(), AllocError>
        ensures added { OnOk result (self.new ≡ self.old ++ (record { head = head; parts = parts.now }) ∷ []) }
        ensures unchanged { OnErr result (self.new ≡ self.old) }
    {
        self.entries.push(RuleEntry {
            head,
            count: parts.len(),
        })?;
        if let Err(error) = self.parts.extend_from_slice(parts) {
            self.entries.pop();
            return Err(error);
        }
        Ok(())
    }

    /// All the rules, to go through. Takes no memory.
    pub fn left(&self) -> RulesLeft<'_>
        ensures value { result ≡ self.now }
    {
        RulesLeft {
            parts: self.parts.as_slice(),
            entries: self.entries.as_slice(),
        }
    }
}

/// A rule of `Rules`.
#[derive(Clone, Copy)]
pub struct RuleRef<'a> {
    /// All of it but its parts.
    pub head: RuleHead,
    /// Its parts, in order.
    pub parts: &'a [RulePart],
}

/// The rules that are left to go through, in order.
#[derive(Drop)]
pub struct RulesLeft<'a> {
    parts: &'a [RulePart],
    entries: &'a [RuleEntry],
}

impl<'a> Model for RulesLeft<'a> {
    ghost use Rattle.std.specs.Prelude.{List};
    ghost use Rattle.gtd_hours2.specs.Rules.{Rule};
    ghost use Rattle.gtd_hours2.specs.Stored.{AreCounted, rules_of};

    ghost Value = { List Rule };

    ghost view = { λ a. rules_of a.parts.now a.entries.now };

    ghost invariant = { λ a. AreCounted a.parts.now a.entries.now };
}

impl<'a> RulesLeft<'a> {
    /// The first rule, if there is one.
    pub fn first(&self) -> Option<RuleRef<'a>>
        ensures value { MatchOption result (self.now ≡ []) (λ rule. BeginsWith (rule_of rule) self.now) }
    {
        match self.entries {
            [] => None,
            [entry, ..] => {
                let (parts, _) = self.parts.split_at(entry.count);
                Some(RuleRef {
                    head: entry.head,
                    parts,
                })
            }
        }
    }

    /// The first rule and the rules after it, if there is one.
    pub fn split_first(self) -> Option<(RuleRef<'a>, RulesLeft<'a>)>
        ensures value { MatchOption result (self.entry ≡ []) (λ x. self.entry ≡ rule_of x.0 ∷ x.1) }
    {
        match self.entries {
            [] => None,
            [entry, entries @ ..] => {
                let (parts, rest) = self.parts.split_at(entry.count);
                let rule = RuleRef {
                    head: entry.head,
                    parts,
                };
                Some((
                    rule,
                    RulesLeft {
                        parts: rest,
                        entries,
                    },
                ))
            }
        }
    }
}
