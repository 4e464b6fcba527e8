//! The holes and the rules of a machine.

ghost use Rattle.std.specs.Prelude.{◌≡◌, IfOk, map};
ghost use Rattle.metal_grammar.specs.Meaning as meaning;
ghost use Rattle.metal_grammar.specs.Written.{members};
ghost use Rattle.metal_written.specs.Placed.{placed_view, placed_views};
ghost use Rattle.metal_written.specs.Written.{item_view, alternative_view, callout_view, identifier_view, maybe_action_view};
ghost use Rattle.metal_tree.specs.Views as machines;
ghost use Rattle.metal_numbers.specs.MetalBuilding.Builders.{numbers, IsRight};
ghost use Rattle.metal_numbers.specs.MetalDeclared.DeclaredHoles.{declared_views};
ghost use Rattle.metal_numbers.specs.MetalBuilding.Machines.{pieces_view};
ghost use Rattle.metal_numbers.specs.Numbers.{variables_in, IsNamed, AreNamed};
ghost use Rattle.metal_numbers.specs.MetalBuilding.Places.{HasPlaces};

use crate::metal_declared::DeclaredHole;
use crate::numbers::Numbering;
use bumpalo::collections::into_bump_slice;
use c_tree::{Arena, Place};
use metal_tree::{Action, Alternative, Callout, CalloutRow, HoleDecl, Item, Pattern, Rule};
use metal_written::{
    Identifier, PlacedRule, Texts, WrittenAction, WrittenAlternative, WrittenCallout, WrittenItem,
    hole_asked, literal_asked, message_with, row_of, with_holes,
};
use mx_base::Names;
use std::alloc::AllocError;

/// What rules are built with.
#[derive(Clone, Copy)]
pub struct Builder<'a, 'n> {
    pub arena: &'a Arena,
    pub names: &'n Names,
    pub texts: &'n Texts,
    pub numbering: Numbering<'a>,
    /// The number of the text's file.
    pub file: u16,
}

/// The holes of a machine.
#[tactic(auto, using(crate::proofs::MetalDeclared::InHoles::additions))]
pub fn holes_of<'a>(
    arena: &'a Arena,
    holes: &[DeclaredHole<'a>],
) -> Result<&'a [HoleDecl<'a>], AllocError>
    ensures { IfOk result (λ made. map machines.hole_view made.now ≡ map meaning.hole_of (declared_views holes.now)) }
{
    let mut made = Vec::new(arena);
    for hole in holes {
        made.push(HoleDecl {
            name: hole.name,
            of: hole.of,
        })?;
    }
    Ok(into_bump_slice(made))
}

impl<'a, 'n> Builder<'a, 'n> {
    /// A callout.
    fn callout(&self, negated: bool, callout: WrittenCallout<'a>) -> Callout
        requires right { IsRight self.now }
        ensures { machines.callout_view result ≡ meaning.condition_of (numbers self.now) negated (callout_view callout.entry) }
    {
        let hole = match hole_asked(callout) {
            Some(name) => self.numbering.hole(name),
            None => 0,
        };
        let text = match literal_asked(callout) {
            Some(literal) => self.texts.number_of(self.names, literal),
            None => 0,
        };
        Callout {
            negated,
            row: row_of(self.names, callout).unwrap_or(CalloutRow::IsConst),
            hole,
            text,
        }
    }

    /// An item.
    fn item(&self, item: &WrittenItem<'a>) -> Result<Item<'a>, AllocError>
        requires right { IsRight self.now }
        ensures { IfOk result (λ made. machines.item_view made ≡ meaning.item_of (numbers self.now) (item_view item.now)) }
    {
        match item {
            WrittenItem::Pattern { tree, .. } => Ok(Item::Base(with_holes(
                self.arena,
                self.numbering.holes,
                tree,
            )?)),
            WrittenItem::Callout { negated, callout } => Ok(Item::Call(self.callout(
                *negated, *callout,
            ))),
            WrittenItem::Dollars { .. } => Ok(Item::EndOfPath),
        }
    }

    /// An alternative.
    #[tactic(auto, using(crate::proofs::MetalDeclared::InHoles::additions))]
    fn alternative(
        &self,
        alternative: &WrittenAlternative<'a>,
    ) -> Result<Alternative<'a>, AllocError>
        requires right { IsRight self.now }
        ensures { IfOk result (λ made. machines.items_view made ≡ map (meaning.item_of (numbers self.now)) (members (alternative_view alternative.now))) }
    {
        let mut items = Vec::new(self.arena);
        for item in alternative.items {
            items.push(self.item(item)?)?;
        }
        Ok(Alternative {
            items: into_bump_slice(items),
        })
    }

    /// The pattern of a rule.
    #[tactic(auto, using(crate::proofs::MetalDeclared::InHoles::additions))]
    fn pattern(&self, alternatives: &[WrittenAlternative<'a>]) -> Result<Pattern<'a>, AllocError>
        requires right { IsRight self.now }
        ensures { IfOk result (λ made. map machines.items_view made.alternatives.now ≡ map (λ items. map (meaning.item_of (numbers self.now)) (members (alternative_view items))) alternatives.now) }
    {
        let mut made = Vec::new(self.arena);
        for alternative in alternatives {
            made.push(self.alternative(alternative)?)?;
        }
        Ok(Pattern {
            alternatives: into_bump_slice(made),
        })
    }

    /// The numbers of the holes that these arguments name.
    #[tactic(auto, using(crate::proofs::MetalDeclared::InHoles::additions))]
    fn arguments(&self, identifiers: &[Identifier]) -> Result<&'a [u8], AllocError>
        ensures { IfOk result (λ made. made.now ≡ map (λ argument. meaning.number_in self.now.numbering.holes.now argument.1) (map identifier_view identifiers.now)) }
    {
        let mut arguments = Vec::new(self.arena);
        for identifier in identifiers {
            arguments.push(self.numbering.hole(identifier.name))?;
        }
        Ok(into_bump_slice(arguments))
    }

    /// The action of a rule, if it has one that is a message.
    pub fn action(
        &self,
        action: Option<WrittenAction<'a>>,
    ) -> Result<Option<Action<'a>>, AllocError>
        ensures { IfOk result (λ made. pieces_view made ≡ meaning.action_of (numbers self.now) (maybe_action_view action.entry)) }
    {
        let Some(action) = action else {
            return Ok(None);
        };
        let arguments = self.arguments(action.arguments)?;
        match message_with(self.arena, self.names, action, arguments)? {
            Some(pieces) => Ok(Some(Action { pieces })),
            None => Ok(None),
        }
    }

    /// A rule.
    fn rule(&self, rule: &PlacedRule<'a>) -> Result<Rule<'a>, AllocError>
        requires right { IsRight self.now }
        requires named { IsNamed (variables_in self.now.numbering) (placed_view rule.now) }
        ensures made { IfOk result (λ made. machines.rule_view made ≡ meaning.rule_of (numbers self.now) (placed_view rule.now)) }
        ensures place { IfOk result (λ made. made.place.file ≡ self.now.file) }
    {
        Ok(Rule {
            number: rule.number,
            place: Place {
                file: self.file,
                token: rule.position,
            },
            source: self.numbering.source(self.names, rule.source),
            pattern: self.pattern(rule.rule.alternatives)?,
            dest: self.numbering.dest(self.names, rule.rule.destination),
            action: self.action(rule.rule.action)?,
        })
    }

    /// The rules of a machine.
    #[tactic(auto, using(crate::proofs::MetalDeclared::InHoles::additions))]
    pub fn rules(&self, rules: &[PlacedRule<'a>]) -> Result<&'a [Rule<'a>], AllocError>
        requires right { IsRight self.now }
        requires named { AreNamed (variables_in self.now.numbering) (placed_views rules.now) }
        ensures made { IfOk result (λ made. machines.rule_views made.now ≡ map (meaning.rule_of (numbers self.now)) (placed_views rules.now)) }
        ensures places { IfOk result (λ made. HasPlaces self.now.file made.now) }
    {
        let mut made = Vec::new(self.arena);
        for rule in rules {
            made.push(self.rule(rule)?)?;
        }
        Ok(into_bump_slice(made))
    }
}
