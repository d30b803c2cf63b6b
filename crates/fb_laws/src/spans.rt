//! Laws of the parts of trees that keep their places.
ghost use Rattle.fb_laws.specs.Spans.{ConstantsReadAlone, NamesAreWords, PartsAreWritten, PartsReadAlone, SpansCoverTokens, SpansLieInText, SubscriptsAreCounted};

/// Each part is what the tokens from its first byte to its last one spell, so a constant, a type or an expression reads as itself there.
#[tactic(auto, using(crate::proofs::Standing::parts_are_written))]
pub fn parts_are_written()
    ensures { PartsAreWritten }
{}

/// The span of each part begins at the beginning of a token, and ends at the end of that token or of a later one.
#[tactic(auto, using(crate::proofs::Standing::spans_cover_tokens))]
pub fn spans_cover_tokens()
    ensures { SpansCoverTokens }
{}

/// The span of each part is a part of the text that is not empty.
pub fn spans_lie_in_text()
    ensures { SpansLieInText }
{}

/// Each name is a word of the text in upper case, and has the place of that word.
#[tactic(auto, using(crate::proofs::Standing::names_are_spelled))]
pub fn names_stand_as_words()
    ensures { NamesAreWords }
{}

/// The text of each part, cut out at its span, has the tokens that spell the part.
#[tactic(auto, using(crate::proofs::Alone::parts_read_alone))]
pub fn parts_read_alone()
    ensures { PartsReadAlone }
{}

/// The text of each constant, cut out at its span, reads as the same constant.
pub fn constants_read_alone()
    ensures { ConstantsReadAlone }
{}

/// The names of a reference count its subscripts, which are beside it in one list.
#[tactic(auto, using(crate::proofs::Subscripts::subscripts_are_counted))]
pub fn subscripts_are_counted()
    ensures { SubscriptsAreCounted }
{}
