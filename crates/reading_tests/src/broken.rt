//! Texts that are broken, and the places where they are. These were found by another reader, one that follows all spellings at once.
use fb_library::parse::{Body, ReadFault, Source};
use fb_text::Name;
use refusing::{lines_of, row_in};
use std::alloc::Global;
use std::process::Abort;
use std::test::Fail;

/// The place where a text is broken, or `whole`.
fn place(alloc: Global, text: &str) -> Result<String, Fail> {
    let source = Source::read(alloc, Name::underscore(), text)?;
    match source.body() {
        Body::Tree(_) => Ok("whole".to_string(alloc)?),
        Body::Broken(span) => Ok(format!(in alloc; "{}..{}", span.start, span.end)?),
    }
}

/// Compares the place where a text is broken.
fn compare_place(rt: &impl Abort, alloc: Global, text: &str, expected: &str) -> Result<(), Fail> {
    assert_eq!(rt; place(alloc, text)?.as_str(), expected, "{text}");
    Ok(())
}

// Broken texts with their places.
const BROKEN: &str = r#"
// the end of a text that goes no further
FUNCTION_BLOCK A EVENT_INPUT => 28..28
// two names in a row
FUNCTION_BLOCK A EVENT_INPUT E F; END_EVENT END_FUNCTION_BLOCK => 31..32
// a comment that is never closed
FUNCTION_BLOCK A (* x => 17..21
// the end, after blanks and comments
FUNCTION_BLOCK A // x => 21..21
 => 0..0
// a reserved word is no name, in any case
FUNCTION_BLOCK With END_FUNCTION_BLOCK => 15..19
// what follows a whole unit
FUNCTION_BLOCK A END_FUNCTION_BLOCK ; => 36..37
// no section of such a unit
ADAPTER A VAR X:INT; END_VAR END_ADAPTER => 10..13
FUNCTION_BLOCK A SUBAPPS END_SUBAPPS END_FUNCTION_BLOCK => 17..24
SUBAPPLICATION A EC_STATES END_STATES END_SUBAPPLICATION => 17..26
SYSTEM A FBS END_FBS END_SYSTEM => 9..12
// the words of structures are reserved, too
FUNCTION_BLOCK V VAR Type:INT; END_VAR END_FUNCTION_BLOCK => 21..25
// one semicolon at most after the fields
TYPE S : STRUCT END_STRUCT;; END_TYPE => 27..28
// no type but a structure
TYPE S : INT; END_TYPE => 9..12
// no sections
TYPE S : STRUCT VAR F:INT; END_VAR END_STRUCT END_TYPE => 16..19
// no length after OF
TYPE S : STRUCT F:ARRAY[0..1] OF U[3]; END_STRUCT END_TYPE => 34..35
// one list of subscripts to a name, and a name after each point
FUNCTION_BLOCK V VAR X:INT; END_VAR ALGORITHM P IN ST: X[0][1] := 1; END_ALGORITHM END_FUNCTION_BLOCK => 59..60
FUNCTION_BLOCK V VAR X:S; END_VAR ALGORITHM P IN ST: X.1 := 1; END_ALGORITHM END_FUNCTION_BLOCK => 55..56
"#;

#[test]
fn broken_texts(rt: HostRuntime) -> Result<(), Fail> {
    for line in lines_of(rt.alloc(), BROKEN)?.as_str().split('\n') {
        if let Some((text, expected)) = row_in(line) {
            compare_place(&rt, rt.alloc(), text, expected)?;
        }
    }
    Ok(())
}

/// Why the text of a unit is not read at all.
fn fault_of(alloc: Global, text: &str) -> Option<ReadFault> {
    Source::read(alloc, Name::underscore(), text).err()
}

#[test]
fn the_longest_texts(rt: HostRuntime) -> Result<(), Fail> {
    let mut text = " ".repeat(rt.alloc(), 65_536)?;
    compare_place(&rt, rt.alloc(), text.as_str(), "65536..65536")?;
    text.push(' ')?;
    let fault = fault_of(rt.alloc(), text.as_str());
    assert_eq!(rt; fault, Some(ReadFault::TextTooLong), "a blank more");
    Ok(())
}

// Whole texts, and what breaks them: words that are in the text once, what is written in their place, and the place of the fault then.
const BREAKS: &str = r#"
== FUNCTION_BLOCK A EVENT_INPUT E: EV WITH X, Y; END_EVENT VAR_INPUT X, Y: INT := 5; END_VAR END_FUNCTION_BLOCK
Y:|With:|69..73
WITH||36..37
END_VAR|END_CASE|82..90
END_FUNCTION_BLOCK|END_CASE|90..98
WITH X|WITH (* X|40..111
WITH X|WITH to|40..42
Y;|Y|45..54
END_EVENT|END_CASE|46..54
5;|5|81..88

== FUNCTION_BLOCK A EVENT_OUTPUT G; END_EVENT VAR I: ARRAY [0..9, -1..3] OF BOOL := [TRUE, 1]; S: STRING[80] := 'a'; END_VAR END_FUNCTION_BLOCK
END_VAR||115..133
END_FUNCTION_BLOCK||122..122
'a';|'a'|113..120
80|80% |104..105
; S|; to|92..94
EVENT_OUTPUT G|EVENT_OUTPUT MOD|30..33
FUNCTION_BLOCK A|FUNCTION_BLOCK With|15..19

== ADAPTER AD EVENT_INPUT CF; END_EVENT VAR_OUTPUT V:INT; END_VAR SERVICE any END_VAR ' ( END_SERVICE END_ADAPTER
VAR_OUTPUT V|VAR_OUTPUT MOD|48..51
; END_VAR|; END_CASE|55..63
VAR_OUTPUT||38..39
END_EVENT|END_CASE|27..35
END_EVENT|(* END_EVENT|27..113
any|(* any|71..113
END_EVENT||28..38
END_ADAPTER||99..99

== FUNCTION_BLOCK C PLUGS P: AD(Q := 1); END_PLUGS SOCKETS S: AD; END_SOCKETS FBS F: T(DT := T#250ms, X := [1, 2]); G: T(); END_FBS END_FUNCTION_BLOCK
FBS F|FBS MOD|79..82
AD;|With;|59..63
[|(* [|104..150
END_FUNCTION_BLOCK||129..129
END_FUNCTION_BLOCK|END_CASE|129..137
DT :=|DT (* :=|87..150
END_FBS|END_CASE|121..129
END_SOCKETS FBS|END_SOCKETS |76..77
DT|to|84..86
; END_PLUGS| END_PLUGS|37..46
END_FBS||122..140
; G|; on|whole
END_SOCKETS||64..67
END_PLUGS|END_CASE|38..46

== TYPE S : STRUCT F:INT; G,H:ARRAY[0..3] OF U := [1, 2]; N:STRING[8]; END_STRUCT; END_TYPE
TYPE S|type s|whole
TYPE S|TYPE struct|5..11
S :|S|7..13
STRUCT F|F|9..10
STRUCT F|STRUCT END_TYPE F|16..24
F:|IN,ON,ST:|whole
F:INT|F:Type|18..22
INT;|INT|22..23
U :=|U[3] :=|43..44
N:STRING[8];||whole
N:STRING[8];|;|55..56
END_STRUCT;|END_STRUCT|whole
END_STRUCT;|END_STRUCT,|78..79
END_STRUCT;|END_VAR;|68..75
END_STRUCT; ||68..76
END_TYPE||80..80
END_TYPE|END_TYPE;|88..89

== SUBAPPLICATION SA SUBAPPS N:MID; END_SUBAPPS EVENT_CONNECTIONS F.O TO G.I; IN TO N.E; END_CONNECTIONS DATA_CONNECTIONS A TO F.X; END_CONNECTIONS END_SUBAPPLICATION
SA SUBAPPS|SA |19..20
I;|I(* ;|73..166
END_CONNECTIONS DATA_CONNECTIONS|(* END_CONNECTIONS DATA_CONNECTIONS|86..166
G|to|70..72
I;|I|74..76
END_SUBAPPLICATION|END_CASE|145..153
SUBAPPLICATION SA| SA|1..3
TO N|TO With|81..85
EVENT_CONNECTIONS||46..47
E;|E(* ;|84..166

== FUNCTION_BLOCK B EC_STATES S0; S1: G -> O, H, -> P.X; END_STATES END_FUNCTION_BLOCK
X;|X|53..63
.|(* .|50..86
END_FUNCTION_BLOCK||65..65
G|(* G|35..86
FUNCTION_BLOCK B|FUNCTION_BLOCK In|whole
S0;|S0|30..32
END_FUNCTION_BLOCK|END_CASE|65..73
END_STATES|END_CASE|54..62
:|(* :|33..86

== FUNCTION_BLOCK B EC_TRANSITIONS S0 TO S1 := 1; S1 TO S0 := E[X > 3]; S1 TO S1 := P.E & NOT B; S0 TO S0 := [A OR B]; END_TRANSITIONS END_FUNCTION_BLOCK
; S0|; resource|94..102
END_FUNCTION_BLOCK||132..132
; END_TRANSITIONS| END_TRANSITIONS|115..130
OR||110..111
1;|1(* ;|45..153
B;|B|93..95
END_TRANSITIONS|END_CASE|116..124

== SYSTEM Y APPLICATION APP SUBAPPS SUB:SA; END_SUBAPPS FBS B:T; END_FBS END_APPLICATION DEVICE D:DT(ADDR := 'x'); RESOURCE R1:RT END_RESOURCE END_DEVICE MAPPINGS APP.SUB ON D.R1; END_MAPPINGS END_SYSTEM
END_FBS|END_CASE|62..70
END_DEVICE||141..149
FBS B|(* FBS B|53..203
:T|:With|59..63
R1;|R1|176..188
T;|T|61..68
APP SUBAPPS|(* APP SUBAPPS|21..203
END_MAPPINGS||178..188
END_APPLICATION|END_CASE|70..78
END_SUBAPPS||42..45
DEVICE D|DEVICE to|93..95
END_APPLICATION||71..77
FBS B|FBS With|57..61
Y APPLICATION|Y |10..13
RT|on|whole
END_APPLICATION DEVICE|END_APPLICATION |87..88
; RESOURCE|; (* RESOURCE|112..203
);|)|whole
SA;|SA|40..51
SUBAPPS SUB|SUBAPPS ST|whole
END_SYSTEM|END_CASE|190..198
SUB:|% SUB:|33..34

== FUNCTION_BLOCK B ALGORITHM G IN ST: B := X; END_ALGORITHM ALGORITHM H IN LD ( * ; END_VAR IN ST é END_ALGORITHM END_FUNCTION_BLOCK
B ALGORITHM|B |18..19
END_ALGORITHM ALGORITHM|END_ALGORITHM |59..60
G IN|G to|29..31
END_FUNCTION_BLOCK||113..113
* ;|* |whole
ALGORITHM H|ALGORITHM With|68..72
LD|to|73..75
X|X% |42..43

== FUNCTION_BLOCK D ALGORITHM G IN ST IF A THEN B := 1; ELSIF C = D THEN E := 2; ELSE ; END_IF; CASE X OF 1, 2..3: A := 1; INT#4: ; ELSE C := 3; END_CASE END_ALGORITHM END_FUNCTION_BLOCK
; CASE|; |96..98
:= 2|(* := 2|72..186
END_CASE|END_IF|142..148
ELSE ;|ELSE |whole
ELSE C|(* ELSE C|129..186
END_CASE||143..156
END_FUNCTION_BLOCK|END_CASE|165..173
ELSE C|ELSE With|134..138
: A|: on|whole
ST|In|whole
END_IF|END_CASE|85..93
ELSIF C|ELSIF resource|59..67

== FUNCTION_BLOCK D ALGORITHM G IN ST FOR I := 1 TO 10 BY 2 DO X := X + I; END_FOR; WHILE A AND B DO EXIT; END_WHILE REPEAT A := NOT A; UNTIL A END_REPEAT RETURN; END_ALGORITHM END_FUNCTION_BLOCK
IN|MOD|29..32
END_FOR|% END_FOR|72..73
BY||53..54
I;|I|71..78
EXIT;|EXIT|103..112
ST|resource|32..40
ST FOR|ST |43..45
AND||90..91
END_WHILE||151..164
UNTIL||136..146
:= X|:= on|whole
END_FOR|END_CASE|72..80

== FUNCTION_BLOCK D ALGORITHM G IN ST X[1, Y] := -(3 * 4) ** 2 MOD P.Q + REAL#1.5E-3 - 'a' <> B & TRUE XOR (C >= D) OR NOT E; END_ALGORITHM END_FUNCTION_BLOCK
END_FUNCTION_BLOCK|END_CASE|137..145
FUNCTION_BLOCK D| D|1..2
NOT||whole
XOR||101..102
;||122..135
IN|With|29..33
FUNCTION_BLOCK D|FUNCTION_BLOCK In|whole
END_ALGORITHM|END_CASE|123..131
-(|% -(|46..47
FUNCTION_BLOCK D|FUNCTION_BLOCK to|15..17
XOR|(* XOR|100..158
D ALGORITHM|D |18..19
ST X|ST In|whole
NOT|(* NOT|116..158
TRUE||96..99
) OR|) |114..117
**|(* **|55..158
(C|(to|105..107

== FUNCTION_BLOCK V ALGORITHM P IN ST: X.F[0].G := Y[1].H.K[2, 3]; END_ALGORITHM END_FUNCTION_BLOCK
X.F|X.IN.ON.ST|whole
X.F|X.Type|38..42
X.F|X..F|37..39
X.F|X.|38..39
[0].|[0]|42..43
[0]|[]|40..41
[0]|[0][1]|42..43
.G|.1|43..44
G :=|G. :=|46..48
Y[1]|Y[1.H]|51..52
[2, 3]|[2, 3].Z|whole
[2, 3]|[2, 3]Z|62..63
"#;

/// The text with other words in the place of these, which are in it once.
fn broken(alloc: Global, whole: &str, old: &str, new: &str) -> Result<String, Fail> {
    if whole.matches(old).count() != 1 {
        return Err(format!(in alloc; "{old} does not stand once in {whole}")?.into());
    }
    Ok(whole.replace(alloc, old, new)?)
}

/// Breaks a text in each of these ways.
fn compare(rt: &impl Abort, alloc: Global, whole: &str, breaks: &str) -> Result<(), Fail> {
    compare_place(rt, alloc, whole, "whole")?;
    assert!(rt; breaks.contains('|'), "{whole}");
    for row in breaks.split('\n') {
        if !row.is_empty() {
            let (old, change) = row.split_once('|').ok_or("no change")?;
            let (new, expected) = change.split_once('|').ok_or("no place")?;
            let text = broken(alloc, whole, old, new)?;
            compare_place(rt, alloc, text.as_str(), expected)?;
        }
    }
    Ok(())
}

#[test]
fn texts_with_one_thing_wrong(rt: HostRuntime) -> Result<(), Fail> {
    let (before, texts) = BREAKS.split_once("== ").ok_or("no text")?;
    assert_eq!(rt; before, "\n");
    for text in texts.split("\n== ") {
        let (whole, breaks) = text.split_once('\n').ok_or("a text alone")?;
        compare(&rt, rt.alloc(), whole, breaks)?;
    }
    Ok(())
}
