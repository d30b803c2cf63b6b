//! What is skipped token by token.

ghost use Rattle.fb_grammar.specs.{Gives.{Passes}, Reading.{read}};
ghost use Rattle.fb_sections.specs.Skipped.{service, skipped};
ghost use Rattle.std.specs.Prelude.{◌≡◌, Ok};

use fb_grammar::{Kind, Stop, Tokens, key};

/// The tokens from the first of this kind on.
#[tactic(auto, using(crate::proofs::Skipping::skip_more, crate::proofs::Skipping::skip_done, crate::proofs::Skipping::skip_over))]
pub fn skip(tokens: &mut Tokens<'_>, end: Kind)
    ensures { read (skipped end) tokens.old ≡ Ok (tt, tokens.new) }
{
    while !tokens.is_over() && !tokens.kind().is_among(&[end]) {
        tokens.take();
    }
}

/// A description of services, which is not kept.
#[tactic(auto, unfolding(crate::specs::Skipped::service))]
pub fn service(tokens: &mut Tokens<'_>) -> Result<(), Stop>
    ensures { Passes result tokens.new (read service tokens.old) }
{
    key(tokens, Kind::Service)?;
    skip(tokens, Kind::EndService);
    key(tokens, Kind::EndService)?;
    Ok(())
}
