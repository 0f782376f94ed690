//! What has been read of a text: rules, and the tokens of the next part.

ghost use Rattle.std.specs.Prelude.{◌≡◌, ◌++◌, ◌<◌, ◌^◌, IfErr, IfOk, OnOk, Ok, drop, length, replicate, take};
ghost use Rattle.gtd_hours_reading2.specs.Reading as reading;
ghost use Rattle.gtd_hours_reading2.specs.Seen.{built};
ghost use Rattle.gtd_hours_text2.specs.Faults.{IsPartFault};

use crate::comment::{comment_of, said_at, word_of};
use crate::places::{LooseForm, PartPlace, RulePlace};
use gtd_hours_grammar2::{Class, Cut, Step, Way};
use gtd_hours_text2::{PartError, class_of, last_place, place_of, push_parts};
use gtd_hours_tokens2::{Token, TokenKind};
use gtd_hours2::{RuleHead, RuleLink, RulePart, Rules};
use std::alloc::{AllocError, Global};

/// The rules that have been read, the rule that is being read, and what belongs to none yet.
#[derive(Drop)]
pub(crate) struct RuleBuilder {
    /// The rules before.
    pub rules: Rules,
    /// The places of these.
    pub rule_places: Vec<RulePlace>,
    /// The places of all parts.
    pub part_places: Vec<PartPlace>,
    /// The rule that is being read, without its parts.
    pub head: RuleHead,
    /// Its parts.
    pub parts: Vec<RulePart>,
    /// Its place.
    pub place: RulePlace,
    /// The tokens of its next part.
    pub item: Vec<Token>,
    /// The offset of the last sign between parts.
    pub sign: u16,
    /// What is written loosely.
    pub loose: Vec<LooseForm>,
}

fn head_from(link: RuleLink) -> RuleHead
    ensures { result ≡ reading.head_from link }
{
    RuleHead {
        link,
        leads: false,
        is_always: false,
        word: None,
        comment: None,
    }
}

fn placed(tokens: &[Token]) -> PartPlace
    ensures { result ≡ reading.placed tokens.now }
{
    PartPlace {
        from: place_of(tokens),
        last: last_place(tokens),
    }
}

// The same place for so many parts.
fn push_places(
    places: &mut Vec<PartPlace>,
    place: PartPlace,
    count: usize,
) -> Result<(), AllocError>
    requires { count < 2 ^ 63 }
    ensures { OnOk result (places.new.items ≡ places.old.items ++ replicate count place) }
{
    places.resize(places.len() + count, place)
}

fn first_tokens(tokens: &[Token], count: usize) -> &[Token]
    ensures { result.now ≡ take count tokens.now }
{
    if tokens.len() <= count {
        return tokens;
    }
    &tokens[..count]
}

fn remove_front(tokens: &mut Vec<Token>, count: usize)
    ensures { tokens.new.items ≡ drop count tokens.old.items }
{
    let size = tokens.len();
    if size <= count {
        tokens.clear();
        return;
    }
    tokens.rotate_left(count);
    tokens.truncate(size - count);
}

fn front_length(tokens: &[Token]) -> usize
    ensures { result ≡ reading.front_length tokens.now }
{
    match tokens {
        [] => 2,
        [token, ..] => {
            if class_of(token.kind) as u8 == Class::Month as u8 {
                1
            } else {
                2
            }
        }
    }
}

impl RuleBuilder {
    /// Nothing has been read. Takes no memory.
    pub(crate) fn new(alloc: Global) -> RuleBuilder
        ensures { built result ≡ reading.beginning }
    {
        RuleBuilder {
            rules: Rules::new(alloc),
            rule_places: Vec::new(alloc),
            part_places: Vec::new(alloc),
            head: head_from(RuleLink::Instead),
            parts: Vec::new(alloc),
            place: RulePlace { from: 0, said: 0 },
            item: Vec::new(alloc),
            sign: 0,
            loose: Vec::new(alloc),
        }
    }

    // The first so many tokens are a part.
    fn cut_tokens(&mut self, alloc: Global, cut: Cut, count: usize) -> Result<(), PartError>
        ensures read { OnOk result (reading.cut_tokens cut count (built self.old) ≡ Ok (built self.new)) }
        ensures fault { IfErr result (λ why. IsPartFault why (reading.cut_tokens cut count (built self.old))) }
    {
        let tokens = first_tokens(self.item.as_slice(), count);
        let place = placed(tokens);
        let size = self.parts.len();
        push_parts(alloc, &mut self.parts, cut, tokens)?;
        push_places(
            &mut self.part_places,
            place,
            self.parts.len().saturating_sub(size),
        )?;
        remove_front(&mut self.item, count);
        Ok(())
    }

    // All tokens are a part.
    fn cut_all(&mut self, alloc: Global, cut: Cut) -> Result<(), PartError>
        ensures read { OnOk result (reading.cut_tokens cut (length self.old.item.items) (built self.old) ≡ Ok (built self.new)) }
        ensures fault { IfErr result (λ why. IsPartFault why
            (reading.cut_tokens cut (length self.old.item.items) (built self.old))) }
    {
        let count = self.item.len();
        self.cut_tokens(alloc, cut, count)
    }

    // A rule is complete, and another one begins at an offset.
    fn begin(&mut self, link: RuleLink, offset: u16) -> Result<(), AllocError>
        ensures { OnOk result (built self.new ≡ reading.begin link offset (built self.old)) }
    {
        self.rules.push(self.head, self.parts.as_slice())?;
        self.rule_places.push(self.place)?;
        self.parts.clear();
        self.head = head_from(link);
        self.place = RulePlace {
            from: offset,
            said: 0,
        };
        Ok(())
    }

    fn cut_by(&mut self, alloc: Global, cut: Cut, offset: u16) -> Result<(), PartError>
        ensures read { OnOk result (reading.cut_by cut offset (built self.old) ≡ Ok (built self.new)) }
        ensures fault { IfErr result (λ why. IsPartFault why (reading.cut_by cut offset (built self.old))) }
    {
        match cut {
            Cut::Instead => {
                self.begin(RuleLink::Instead, offset)?;
                Ok(())
            }
            Cut::Also => {
                self.begin(RuleLink::Also, offset)?;
                Ok(())
            }
            Cut::Fallback => {
                self.begin(RuleLink::Fallback, offset)?;
                Ok(())
            }
            Cut::Leads => {
                self.head.leads = true;
                Ok(())
            }
            Cut::Before => {
                let count = front_length(self.item.as_slice());
                self.cut_tokens(alloc, Cut::MonthDays, count)
            }
            Cut::Always => {
                self.head.is_always = true;
                self.cut_all(alloc, Cut::Always)
            }
            _ => self.cut_all(alloc, cut),
        }
    }

    fn cut_off(&mut self, alloc: Global, cut: Option<Cut>, offset: u16) -> Result<(), PartError>
        ensures read { OnOk result (reading.cut_off cut offset (built self.old) ≡ Ok (built self.new)) }
        ensures fault { IfErr result (λ why. IsPartFault why (reading.cut_off cut offset (built self.old))) }
    {
        match cut {
            None => Ok(()),
            Some(cut) => self.cut_by(alloc, cut, offset),
        }
    }

    /// What a step cuts off at an offset.
    pub(crate) fn cut_step(
        &mut self,
        alloc: Global,
        step: Step,
        offset: u16,
    ) -> Result<(), PartError>
        ensures read { OnOk result (reading.cut_step step offset (built self.old) ≡ Ok (built self.new)) }
        ensures fault { IfErr result (λ why. IsPartFault why (reading.cut_step step offset (built self.old))) }
    {
        self.cut_off(alloc, step.first, offset)?;
        self.cut_off(alloc, step.second, offset)
    }

    // A word or a comment of the rule.
    fn mark(&mut self, text: &[u8], token: Token)
        ensures { built self.new ≡ reading.marked text.now token token.kind (built self.old) }
    {
        match token.kind {
            TokenKind::Word(word) => {
                self.head.word = Some(word_of(word));
                self.place.said = token.from;
            }
            _ => {
                self.head.comment = Some(comment_of(text, token));
                self.place.said = said_at(self.head.word, self.place.said, token.from);
            }
        }
    }

    // Something is written loosely.
    fn loosely(&mut self, offset: u16, is_comma: bool) -> Result<(), AllocError>
        ensures { OnOk result (built self.new ≡ reading.loosely offset is_comma (built self.old)) }
    {
        self.loose.push(LooseForm { offset, is_comma })?;
        Ok(())
    }

    fn add_token(&mut self, token: Token) -> Result<(), AllocError>
        ensures { OnOk result (built self.new ≡ reading.add_token token (built self.old)) }
    {
        self.item.push(token)?;
        Ok(())
    }

    /// What becomes of a token.
    pub(crate) fn take_up(&mut self, text: &[u8], way: Way, token: Token) -> Result<(), AllocError>
        ensures { OnOk result (built self.new ≡ reading.take_up text.now way token (built self.old)) }
    {
        match way {
            Way::Push => self.add_token(token),
            Way::Skip => {
                self.sign = token.from;
                Ok(())
            }
            Way::Mark => {
                self.mark(text, token);
                Ok(())
            }
            Way::Dropped => self.loosely(token.from, false),
            Way::Missing => {
                self.add_token(token)?;
                self.loosely(token.from, true)
            }
        }
    }

    /// At the end, a sign that is left out is the last one.
    pub(crate) fn drop_last(&mut self, way: Way) -> Result<(), AllocError>
        ensures { OnOk result (built self.new ≡ reading.dropped_last way (built self.old)) }
    {
        match way {
            Way::Dropped => self.loosely(self.sign, false),
            _ => Ok(()),
        }
    }
}
