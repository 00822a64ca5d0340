ghost use Rattle.std.specs.Prelude.{◌≡◌, ◌<◌, ◌≤◌, length, IfOk};
ghost use Rattle.parser_tree.specs.View.{view};
ghost use Rattle.parser_nodes.specs.Listed.{listed_view, phrase_view};
ghost use Rattle.parser_form_nodes.specs.Targets.{targets_view};
ghost use Rattle.parser_form_nodes.specs.Parameters.{block_view};
ghost use Rattle.parser_form_nodes.specs.Sections.{sections_view};
ghost use Rattle.parser_forms.specs.Reading.{Inside, Reads, Shortens};

use parser_ahead::groups::TargetUse;
use parser_ahead::names::Names;
use parser_ahead::primary::{BlockStyle, DoOwner, Place};
use parser_ahead::sections::Compound;
use parser_form_nodes::sections::Section;
use parser_form_nodes::targets::Targets;
use parser_nodes::listed::{Listed, Phrase};
use parser_tokens::failure::Failure;
use parser_tree::{Definition, Tree};
use rb_syntax::Token;
use std::alloc::Global;

/// What was read, and the tokens behind it.
pub type Read<'a, T> = Result<(T, &'a [Token]), Failure>;

/// The rules a level deeper: those that a rule may hold within itself.
pub trait Inner {
    ghost inside: { Self → Inside };

    fn statements<'a>(
        &self,
        alloc: Global,
        names: &mut Names,
        tokens: &'a [Token],
    ) -> Read<'a, Tree>
        ensures value { Reads view result names.new ((inside self.now).statements names.old tokens.now) }
        ensures within { IfOk result (λ p. length p.1.now ≤ length tokens.now) };

    fn expression<'a>(
        &self,
        alloc: Global,
        names: &mut Names,
        tokens: &'a [Token],
        place: Place,
        owner: DoOwner,
    ) -> Read<'a, Tree>
        ensures value { Reads view result names.new ((inside self.now).expression names.old tokens.now place owner) }
        ensures shorter { Shortens tokens.now result };

    fn negation<'a>(
        &self,
        alloc: Global,
        names: &mut Names,
        tokens: &'a [Token],
        place: Place,
        owner: DoOwner,
    ) -> Read<'a, Phrase>
        ensures value { Reads phrase_view result names.new ((inside self.now).negation names.old tokens.now place owner) }
        ensures shorter { Shortens tokens.now result };

    fn phrase<'a>(
        &self,
        alloc: Global,
        names: &mut Names,
        tokens: &'a [Token],
        place: Place,
        owner: DoOwner,
    ) -> Read<'a, Phrase>
        ensures value { Reads phrase_view result names.new ((inside self.now).phrase names.old tokens.now place owner) }
        ensures shorter { Shortens tokens.now result };

    fn argument<'a>(
        &self,
        alloc: Global,
        names: &mut Names,
        tokens: &'a [Token],
        owner: DoOwner,
    ) -> Read<'a, Tree>
        ensures value { Reads view result names.new ((inside self.now).argument names.old tokens.now owner) }
        ensures shorter { Shortens tokens.now result };

    fn operation<'a>(
        &self,
        alloc: Global,
        names: &mut Names,
        tokens: &'a [Token],
        loosest: u8,
        owner: DoOwner,
    ) -> Read<'a, Tree>
        ensures value { Reads view result names.new ((inside self.now).operation names.old tokens.now loosest owner) }
        ensures shorter { Shortens tokens.now result };

    fn list<'a>(
        &self,
        alloc: Global,
        names: &mut Names,
        tokens: &'a [Token],
        owner: DoOwner,
    ) -> Read<'a, Listed>
        ensures value { Reads listed_view result names.new ((inside self.now).list names.old tokens.now owner) }
        ensures within { IfOk result (λ p. length p.1.now ≤ length tokens.now) };

    fn targets<'a>(
        &self,
        alloc: Global,
        names: &mut Names,
        found: Targets,
        tokens: &'a [Token],
        target_use: TargetUse,
    ) -> Read<'a, Targets>
        ensures value { Reads targets_view result names.new
            ((inside self.now).targets names.old (targets_view found) tokens.now target_use) }
        ensures within { IfOk result (λ p. length p.1.now ≤ length tokens.now) };

    fn block<'a>(
        &self,
        alloc: Global,
        names: &mut Names,
        tokens: &'a [Token],
        style: BlockStyle,
    ) -> Read<'a, Definition<Tree>>
        ensures value { Reads block_view result names.new ((inside self.now).block names.old tokens.now style) }
        ensures within { IfOk result (λ p. length p.1.now ≤ length tokens.now) };

    fn sections<'a>(
        &self,
        alloc: Global,
        names: &mut Names,
        form: Compound,
        tokens: &'a [Token],
    ) -> Read<'a, Vec<Section>>
        ensures value { Reads sections_view result names.new ((inside self.now).sections names.old form tokens.now) }
        ensures within { IfOk result (λ p. length p.1.now ≤ length tokens.now) };
}
