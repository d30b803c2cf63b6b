//! The readers of the parts of declarations, each over a text of its own.
use crate::told::{Tell, words};
use fb_grammar::{
    Kind, Lexeme, NAMES, NameReader, Stop, Tokens, lexemes, names, separated, several,
};
use fb_sections::{
    blocks, connections, data_variables, device, events, fields, internal_variables, mappings,
    plugs, service, sockets, states, subapplications,
};
use fb_structured_text::{expression, statements};
use std::alloc::Global;
use std::test::Fail;

/// How many tokens are left.
fn left(tokens: &mut Tokens<'_>) -> usize {
    for count in 0..usize::MAX {
        if tokens.is_over() {
            return count;
        }
        tokens.take();
    }
    usize::MAX
}

/// What was read, or `stops`, and how many tokens are after it, or from the one that does not continue.
fn told<T: Tell + Drop>(
    alloc: Global,
    read: Result<T, Stop>,
    tokens: &mut Tokens<'_>,
) -> Result<(String, usize), Fail> {
    match read {
        Ok(found) => Ok((words(alloc, &found)?, left(tokens))),
        Err(Stop::Broken) => Ok(("stops".to_string(alloc)?, left(tokens))),
        Err(Stop::Memory) => Err(Fail::from("no memory")),
    }
}

/// The tokens of a text as the grammar sees them.
pub fn grammar_tokens(alloc: Global, text: &str) -> Result<Vec<Lexeme>, Fail> {
    if text.len() >= 4_294_967_296 {
        return Err(Fail::from("a text of 4 GiB"));
    }
    Ok(lexemes(alloc, text)?)
}

/// What is read of the part of this name at the front of the text, and how many tokens are left.
pub fn read(alloc: Global, part: &str, text: &str) -> Result<(String, usize), Fail> {
    if text.len() >= 4_294_967_296 {
        return Err(Fail::from("a text of 4 GiB"));
    }
    let tokens = &mut Tokens::of(text);
    match part {
        "names with commas" => told(alloc, names(alloc, tokens), tokens),
        "names with points" => {
            let path = separated(&NameReader, Kind::Point, alloc, tokens);
            told(alloc, path, tokens)
        }
        "names alone" => told(alloc, several(&NameReader, alloc, &NAMES, tokens), tokens),
        "expression" => told(alloc, expression(alloc, tokens), tokens),
        "statements" => told(alloc, statements(alloc, tokens), tokens),
        _ => read_section(alloc, part, tokens),
    }
}

fn read_section(
    alloc: Global,
    part: &str,
    tokens: &mut Tokens<'_>,
) -> Result<(String, usize), Fail> {
    match part {
        "events" => told(alloc, events(alloc, tokens), tokens),
        "data" => told(alloc, data_variables(alloc, tokens), tokens),
        "internal variables" => told(alloc, internal_variables(alloc, tokens), tokens),
        "fields" => told(alloc, fields(alloc, tokens), tokens),
        "states" => told(alloc, states(alloc, tokens), tokens),
        "device" => told(alloc, device(alloc, tokens), tokens),
        "mappings" => told(alloc, mappings(alloc, tokens), tokens),
        "service" => {
            service(tokens)?;
            Ok((String::new(alloc), left(tokens)))
        }
        _ => read_of_network(alloc, part, tokens),
    }
}

fn read_of_network(
    alloc: Global,
    part: &str,
    tokens: &mut Tokens<'_>,
) -> Result<(String, usize), Fail> {
    match part {
        "plugs" => told(alloc, plugs(alloc, tokens), tokens),
        "sockets" => told(alloc, sockets(alloc, tokens), tokens),
        "blocks" => told(alloc, blocks(alloc, tokens), tokens),
        "subapplications" => told(alloc, subapplications(alloc, tokens), tokens),
        "connections" => told(alloc, connections(alloc, tokens), tokens),
        _ => Err(Fail::from("no such part")),
    }
}
