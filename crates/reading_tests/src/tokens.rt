//! Names and tokens.
use crate::readers::grammar_tokens;
use crate::told::{names_told, words};
use fb_grammar::Kind;
use fb_text::{
    Name, NameFault, TypeClass, is_elementary, same_name, sorted_names, tokens, type_class,
};
use std::alloc::Global;
use std::test::Fail;

// Texts with their tokens.
static TOKENS: [(&str, &str); 19] = [
    ("A:=1", "Word 0..1; Symbol 1..3; Number 3..4"),
    (
        "X:=INT#1..5;",
        "Word 0..1; Symbol 1..3; Typed 3..8; Symbol 8..10; Number 10..11; Symbol 11..12",
    ),
    // comments that are never closed, and such as do not nest
    ("(* x", "never closed 0..4"),
    ("(*)", "never closed 0..3"),
    ("(* a (* b *)", ""),
    // a carriage return does not end a line comment
    ("// a\r b\nc", "Word 8..9"),
    ("T#250ms", "Typed 0..7"),
    ("TO#1", "Typed 0..4"),
    ("D#2020-01-31", "Typed 0..12"),
    ("REAL#-1.5e+3", "Typed 0..12"),
    ("1.5E-3", "Number 0..6"),
    ("16#FF", "Number 0..5"),
    ("1_000", "Number 0..5"),
    ("'it$'s'", "String 0..7"),
    ("\"é\"", "String 0..4"),
    ("é", "Other 0..2"),
    ("€", "Other 0..3"),
    // a quote that is not closed is a token of one byte
    (
        "'$'a\n''",
        "Other 0..1; Other 1..2; Other 2..3; Word 3..4; String 5..7",
    ),
    ("'\"a\"", "Other 0..1; String 1..4"),
];

/// The texts of the tokens of a text, each with a blank after it.
fn parts(alloc: Global, text: &str) -> Result<String, Fail> {
    let mut found = String::new(alloc);
    for token in &tokens(alloc, text)? {
        write!(found, "{} ", token.text(text))?;
    }
    Ok(found)
}

#[test]
fn tokens_of_texts(rt: HostRuntime) -> Result<(), Fail> {
    for (text, expected) in &TOKENS {
        let found = tokens(rt.alloc(), text);
        assert_eq!(rt; words(rt.alloc(), &found)?.as_str(), *expected, "{text}");
    }
    assert_eq!(rt; parts(rt.alloc(), "A:=1")?.as_str(), "A := 1 ");
    Ok(())
}

#[test]
fn quotes_are_read_in_one_pass(rt: HostRuntime) -> Result<(), Fail> {
    let text = "'$".repeat(rt.alloc(), 32_768)?;
    assert_eq!(rt; tokens(rt.alloc(), text.as_str())?.len(), 65_536);
    Ok(())
}

const LONGEST: &str = "ABCDEFGHABCDEFGHABCDEFGHABCDEFGHABCDEFGHABCDEFGHABCDEFGHABCDEFGH";

const TOO_LONG: &str = "ABCDEFGHABCDEFGHABCDEFGHABCDEFGHABCDEFGHABCDEFGHABCDEFGHABCDEFGHI";

// Texts of one token each, with its kind.
static KINDS: [(&str, Kind); 27] = [
    ("FUNCTION_BLOCK", Kind::FunctionBlock),
    ("end_Function_Block", Kind::EndFunctionBlock),
    ("adapter_connections", Kind::AdapterConnections),
    ("or", Kind::Or),
    ("Type", Kind::TypeWord),
    ("end_type", Kind::EndType),
    ("STRUCT", Kind::Struct),
    ("End_Struct", Kind::EndStruct),
    ("TYPES T END", Kind::Name),
    ("in", Kind::NameIn),
    ("On", Kind::NameOn),
    ("ST", Kind::NameSt),
    (LONGEST, Kind::Name),
    (TOO_LONG, Kind::Other),
    ("0", Kind::Zero),
    ("1", Kind::One),
    ("00 1_ 16#FF", Kind::Number),
    ("1.5E-3", Kind::RealNumber),
    ("bool#1", Kind::TypedTruth),
    ("INT#16#FF", Kind::TypedInteger),
    ("byte#1", Kind::TypedBits),
    ("any_bit#1 ANY#1", Kind::TypedFree),
    ("ANYTHING#1 T#250ms TO#1", Kind::TypedOther),
    ("'INT#1'", Kind::Text),
    (":=", Kind::Assign),
    ("&", Kind::Ampersand),
    ("é '", Kind::Other),
];

/// The kind of the one token of a text.
fn kind_of(alloc: Global, text: &str) -> Result<Kind, Fail> {
    match grammar_tokens(alloc, text)?.as_slice() {
        [token] => Ok(token.kind),
        _ => Err(Fail::from("not one token")),
    }
}

#[test]
fn kinds_of_tokens(rt: HostRuntime) -> Result<(), Fail> {
    for (texts, expected) in &KINDS {
        for text in texts.split_whitespace() {
            assert_eq!(rt; kind_of(rt.alloc(), text)?, *expected, "{text}");
        }
    }
    Ok(())
}

#[test]
fn names_and_places(rt: HostRuntime) -> Result<(), Fail> {
    let text = "a_1 := 5;";
    let names = [Kind::NameIn, Kind::Name];
    let found = grammar_tokens(rt.alloc(), text)?;
    let [name, symbol, number, _] = found.as_slice() else {
        return Err(Fail::from("not four tokens"));
    };
    assert!(rt; name.kind.is_among(&names) && !symbol.kind.is_among(&names));
    let used = words(rt.alloc(), &name.name_use(rt.alloc())?)?;
    assert_eq!(rt; used.as_str(), "A_1 0..3");
    assert_eq!(rt; number.name.as_str(), "_");
    Ok(())
}

// Texts that are no names, and why.
static NO_NAMES: [(&str, NameFault); 3] = [
    ("", NameFault::Empty),
    ("1a", NameFault::BadByte(0)),
    (TOO_LONG, NameFault::TooLong),
];

/// Whether two texts are the same name.
fn are_same(text: &str, other: &str) -> Result<bool, NameFault> {
    Ok(same_name(&Name::read(text)?, &Name::read(other)?))
}

/// The names in a text.
fn names_in(alloc: Global, text: &str) -> Result<Vec<Name>, Fail> {
    let mut names = Vec::new(alloc);
    for word in text.split_whitespace() {
        names.push(Name::read(word)?)?;
    }
    Ok(names)
}

#[test]
fn names_are_sorted(rt: HostRuntime) -> Result<(), Fail> {
    let names = names_in(rt.alloc(), "b a_ B ab a")?;
    let sorted = sorted_names(rt.alloc(), names.as_slice())?;
    let told = names_told(rt.alloc(), sorted.as_slice())?;
    assert_eq!(rt; told.as_str(), "A AB A_ B ");
    Ok(())
}

#[test]
fn texts_that_are_no_names(rt: HostRuntime) {
    assert_eq!(rt; TOO_LONG.len(), 65);
    for (text, fault) in &NO_NAMES {
        assert_eq!(rt; Name::read(text).err(), Some(*fault), "{text}");
    }
}

#[test]
fn names_have_no_case(rt: HostRuntime) -> Result<(), Fail> {
    assert_eq!(rt; Name::read("ab_1")?.as_str(), "AB_1");
    let found = [are_same("b", "B")?, are_same("b", "a_")?];
    assert_eq!(rt; found, [true, false], "names that are the same");
    Ok(())
}

// Names, and whether they are short.
static SHORT_NAMES: [(&str, bool); 4] = [
    ("A", true),
    ("ABCDEFGHIJKLMNOPQRST_V", true),
    ("ABCDEFGHIJKLMNOPQRST_VW", false),
    (LONGEST, false),
];

#[test]
fn short_names(rt: HostRuntime) -> Result<(), Fail> {
    for (text, is_short) in &SHORT_NAMES {
        let short = Name::read(text)?.shortened();
        assert_eq!(rt; short.is_some(), *is_short, "{text}");
        if let Some(short) = short {
            assert_eq!(rt; short.name().as_str(), *text);
        }
    }
    Ok(())
}

static CLASSES: [(&str, TypeClass); 5] = [
    ("bool", TypeClass::Truth),
    ("USINT", TypeClass::Integer),
    ("LWord", TypeClass::Bits),
    ("ANY any_ ANY_NUM", TypeClass::Free),
    ("ANYTHING REAL T", TypeClass::Other),
];

#[test]
fn classes_of_types(rt: HostRuntime) {
    for (words, class) in &CLASSES {
        for word in words.split_whitespace() {
            assert_eq!(rt; type_class(word.as_bytes()), *class, "{word}");
        }
    }
}

// Names of types, and whether values of the type need no declaration of it.
static ELEMENTARY: [(&str, bool); 3] = [
    ("bool ULINT Byte ANY any_thing LReal", true),
    ("TIME_OF_DAY Date_And_Time wstring", true),
    ("ANYTHING TIMES S", false),
];

#[test]
fn types_that_need_no_declaration(rt: HostRuntime) {
    for (words, expected) in &ELEMENTARY {
        for word in words.split_whitespace() {
            assert_eq!(rt; is_elementary(word.as_bytes()), *expected, "{word}");
        }
    }
}
