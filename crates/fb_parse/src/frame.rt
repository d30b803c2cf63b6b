//! Sections between a name and the word that ends a declaration.

ghost use Rattle.fb_structured_text.specs.{Forms.Form.{as_value, many}, Forms.Gives.{Gives}, Forms.Reading.{first, read}, Forms.Upcoming.{are_tokens}};
ghost use Rattle.fb_parse.specs.{Contents.{ContentsTree, contents_tree, joined}, Frames.{section_of}, Grammar.{framed}};
ghost use Rattle.std.specs.Prelude.{◌≡◌, ◌∷◌, []};

use crate::contents::{Contents, joined};
use crate::sections::{
    adapter_section, application_section, block_section, subapplication_section,
};
use fb_structured_text::grammar::{Kind, Reader, Stop, Tokens, key, name, several};
use fb_tree::text::NameUse;
use std::alloc::Global;

/// The sort of declaration that has the sections.
#[derive(Clone, Copy)]
pub enum Frame {
    Block,
    Adapter,
    Subapplication,
    Application,
}

/// Reads the sections of a frame.
#[derive(Drop)]
struct SectionReader {
    frame: Frame,
}

impl Reader for SectionReader {
    type Item = Contents;

    ghost Tree = { ContentsTree };

    ghost view = { contents_tree };

    ghost reads = { λ reader. read (section_of reader.frame) };

    fn read(&self, alloc: Global, tokens: &mut Tokens<'_>) -> Result<Contents, Stop> {
        match self.frame {
            Frame::Block => block_section(alloc, tokens),
            Frame::Adapter => adapter_section(alloc, tokens),
            Frame::Subapplication => subapplication_section(alloc, tokens),
            Frame::Application => application_section(alloc, tokens),
        }
    }
}

/// A name, and what the sections after it hold.
#[derive(Drop)]
pub struct Named {
    pub name: NameUse,
    pub contents: Contents,
}

/// Sections of a frame, which begin with these kinds, as long as they come.
fn sections(
    alloc: Global,
    frame: Frame,
    firsts: &[Kind],
    tokens: &mut Tokens<'_>,
) -> Result<Contents, Stop>
    requires { first (section_of frame) ≡ firsts.now }
    ensures { Gives contents_tree result tokens.new
        (read (as_value joined (many (section_of frame))) tokens.old) }
{
    let sections = several(&SectionReader { frame }, alloc, firsts, tokens)?;
    Ok(joined(alloc, sections)?)
}

/// A word, a name, sections of a frame, and another word.
pub fn framed(
    alloc: Global,
    start: Kind,
    frame: Frame,
    firsts: &[Kind],
    end: Kind,
    tokens: &mut Tokens<'_>,
) -> Result<Named, Stop>
    requires start { are_tokens (start ∷ []) }
    requires firsts { first (section_of frame) ≡ firsts.now }
    requires end { are_tokens (end ∷ []) }
    ensures { Gives (λ named. (named.name, contents_tree named.contents)) result tokens.new
        (read (framed start (section_of frame) end) tokens.old) }
{
    key(tokens, start)?;
    let name = name(alloc, tokens)?;
    let contents = sections(alloc, frame, firsts, tokens)?;
    key(tokens, end)?;
    let named = Named { name, contents };
    Ok(named)
}
