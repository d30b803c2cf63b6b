//! Units by themselves and with the types that they use: their faults, and results that come late.
use crate::conversation::compare;
use std::test::Fail;

const CONVERSATIONS: &str = r#"
== A unit that uses a type which another one adds later
{"op":"commit","changes":[{"put":"C","base":0,"text":"FUNCTION_BLOCK C FBS S:E_SPLIT; END_FBS END_FUNCTION_BLOCK"}]} => {"commit":1}
{"op":"work","turns":9} => {"accepted":1}
{"op":"ask","kind":"faults","unit":"C"} => {"faults":[["UNKNOWN_TYPE",23,30]]}
{"op":"commit","changes":[{"put":"E_SPLIT","base":0,"text":"FUNCTION_BLOCK E_SPLIT EVENT_INPUT EI; END_EVENT EVENT_OUTPUT EO1; EO2; END_EVENT END_FUNCTION_BLOCK"}]} => {"commit":2}
each faults C E_SPLIT => {"answer":"pending"}
{"op":"work","turns":9} => {"accepted":2}
each faults C E_SPLIT => {"faults":[]}

== A type that is removed
{"op":"commit","changes":[{"put":"C","base":0,"text":"FUNCTION_BLOCK C FBS S:E_SPLIT; END_FBS END_FUNCTION_BLOCK"},{"put":"E_SPLIT","base":0,"text":"FUNCTION_BLOCK E_SPLIT EVENT_INPUT EI; END_EVENT EVENT_OUTPUT EO1; EO2; END_EVENT END_FUNCTION_BLOCK"}]} => {"commit":1}
{"op":"work","turns":9} => {"accepted":2}
{"op":"commit","changes":[{"remove":"E_SPLIT","base":1}]} => {"commit":2}
{"op":"ask","kind":"faults","unit":"E_SPLIT"} => {"refused":"NoSuchKey"}
{"op":"work","turns":9} => {"accepted":1}
{"op":"ask","kind":"faults","unit":"C"} => {"faults":[["UNKNOWN_TYPE",23,30]]}
{"op":"commit","changes":[{"remove":"E_SPLIT","base":1}]} => {"refused":"NoSuchUnit","unit":"E_SPLIT"}
{"op":"commit","changes":[{"put":"E_SPLIT","base":1,"text":"FUNCTION_BLOCK E_SPLIT EVENT_INPUT EI; END_EVENT EVENT_OUTPUT EO1; EO2; END_EVENT END_FUNCTION_BLOCK"}]} => {"current":0,"refused":"StaleBase","unit":"E_SPLIT"}

== Initial values that do not fit, and an adapter that is none
{"op":"commit","changes":[{"put":"L","base":0,"text":"FUNCTION_BLOCK L VAR_INPUT A:BOOL:=7; B:INT:=TRUE; END_VAR END_FUNCTION_BLOCK"},{"put":"A","base":0,"text":"FUNCTION_BLOCK A END_FUNCTION_BLOCK"},{"put":"W","base":0,"text":"FUNCTION_BLOCK W PLUGS P:A; END_PLUGS END_FUNCTION_BLOCK"}]} => {"commit":1}
{"op":"work","turns":9} => {"accepted":3}
{"op":"ask","kind":"faults","unit":"L"} => {"faults":[["LITERAL",35,36],["LITERAL",45,49]]}
{"op":"ask","kind":"faults","unit":"W"} => {"faults":[["WRONG_KIND",25,26]]}

== Parentheses and conditions at the last level and one deeper
{"op":"commit","changes":[{"put":"P","base":0,"text":"FUNCTION_BLOCK P VAR X:INT; END_VAR ALGORITHM G IN ST: X := ((((((((((((((((((((((((((((((((((((((((((((((((((((((((((((((((X)))))))))))))))))))))))))))))))))))))))))))))))))))))))))))))))); END_ALGORITHM END_FUNCTION_BLOCK"}]} => {"commit":1}
{"op":"work","turns":1} => {"accepted":1}
{"op":"ask","kind":"faults","unit":"P"} => {"faults":[]}
{"op":"commit","changes":[{"put":"P","base":1,"text":"FUNCTION_BLOCK P VAR X:INT; END_VAR ALGORITHM G IN ST: X := (((((((((((((((((((((((((((((((((((((((((((((((((((((((((((((((((X))))))))))))))))))))))))))))))))))))))))))))))))))))))))))))))))); END_ALGORITHM END_FUNCTION_BLOCK"}]} => {"commit":2}
{"op":"work","turns":1} => {"accepted":1}
{"op":"ask","kind":"faults","unit":"P"} => {"faults":[["SYNTAX",124,125]]}
{"op":"commit","changes":[{"put":"P","base":2,"text":"FUNCTION_BLOCK P VAR X:BOOL; END_VAR ALGORITHM G IN ST: IF X THEN IF X THEN IF X THEN IF X THEN IF X THEN IF X THEN IF X THEN IF X THEN IF X THEN IF X THEN IF X THEN IF X THEN IF X THEN IF X THEN IF X THEN IF X THEN IF X THEN IF X THEN IF X THEN IF X THEN IF X THEN IF X THEN IF X THEN IF X THEN IF X THEN IF X THEN IF X THEN IF X THEN IF X THEN IF X THEN IF X THEN IF X THEN IF X THEN IF X THEN IF X THEN IF X THEN IF X THEN IF X THEN IF X THEN IF X THEN IF X THEN IF X THEN IF X THEN IF X THEN IF X THEN IF X THEN IF X THEN IF X THEN IF X THEN IF X THEN IF X THEN IF X THEN IF X THEN IF X THEN IF X THEN IF X THEN IF X THEN IF X THEN IF X THEN IF X THEN IF X THEN IF X THEN IF X THEN IF X THEN IF X THEN END_IF END_IF END_IF END_IF END_IF END_IF END_IF END_IF END_IF END_IF END_IF END_IF END_IF END_IF END_IF END_IF END_IF END_IF END_IF END_IF END_IF END_IF END_IF END_IF END_IF END_IF END_IF END_IF END_IF END_IF END_IF END_IF END_IF END_IF END_IF END_IF END_IF END_IF END_IF END_IF END_IF END_IF END_IF END_IF END_IF END_IF END_IF END_IF END_IF END_IF END_IF END_IF END_IF END_IF END_IF END_IF END_IF END_IF END_IF END_IF END_IF END_IF END_IF END_IF END_IF END_ALGORITHM END_FUNCTION_BLOCK"}]} => {"commit":3}
{"op":"work","turns":1} => {"accepted":1}
{"op":"ask","kind":"faults","unit":"P"} => {"faults":[["SYNTAX",696,698]]}

== Results that come late, twice, or for a type that is there again
{"op":"commit","changes":[{"put":"C","base":0,"text":"FUNCTION_BLOCK C FBS S:E_SPLIT; END_FBS END_FUNCTION_BLOCK"},{"put":"E_SPLIT","base":0,"text":"FUNCTION_BLOCK E_SPLIT EVENT_INPUT EI; END_EVENT EVENT_OUTPUT EO1; EO2; END_EVENT END_FUNCTION_BLOCK"}]} => {"commit":1}
{"op":"take"} => {"job":1,"kind":"faults","unit":"C"}
{"op":"commit","changes":[{"put":"E_SPLIT","base":1,"text":"FUNCTION_BLOCK E_SPLIT EVENT_INPUT EI; END_EVENT EVENT_OUTPUT EO1; EO2; END_EVENT END_FUNCTION_BLOCK"}]} => {"commit":2}
{"op":"deliver","job":1} => {"refused":"Stale","unit":"E_SPLIT"}
{"op":"deliver","job":1} => {"refused":"Stale","unit":"E_SPLIT"}
{"op":"ask","kind":"faults","unit":"C"} => {"answer":"pending"}
{"op":"work","turns":9} => {"accepted":2}
{"op":"deliver","job":1} => {"refused":"NotPending"}

== A result that read an absent type, which came and went meanwhile
{"op":"commit","changes":[{"put":"C","base":0,"text":"FUNCTION_BLOCK C FBS S:E_SPLIT; END_FBS END_FUNCTION_BLOCK"}]} => {"commit":1}
{"op":"take"} => {"job":1,"kind":"faults","unit":"C"}
{"op":"commit","changes":[{"put":"E_SPLIT","base":0,"text":"FUNCTION_BLOCK E_SPLIT EVENT_INPUT EI; END_EVENT EVENT_OUTPUT EO1; EO2; END_EVENT END_FUNCTION_BLOCK"}]} => {"commit":2}
{"op":"commit","changes":[{"remove":"E_SPLIT","base":2}]} => {"commit":3}
{"op":"deliver","job":1} => {"delivered":"accepted"}

== with unknown
{"op":"commit","changes":[{"put":"a","base":0,"text":"FUNCTION_BLOCK A EVENT_INPUT E WITH X; END_EVENT END_FUNCTION_BLOCK"}]} => {"commit":1}
{"op":"ask","kind":"faults","unit":"A"} => {"answer":"pending"}
{"op":"work","turns":5} => {"accepted":1}
{"op":"ask","kind":"faults","unit":"A"} => {"faults":[["WITH_UNKNOWN",36,37]]}

== cut off
{"op":"commit","changes":[{"put":"A","base":0,"text":"FUNCTION_BLOCK A EVENT_INPUT"}]} => {"commit":1}
{"op":"work","turns":1} => {"accepted":1}
{"op":"ask","kind":"faults","unit":"A"} => {"faults":[["SYNTAX",28,28]]}
{"op":"ask","kind":"net","unit":"A"} => {"refused":"NoSuchKey"}

== no comma
{"op":"commit","changes":[{"put":"A","base":0,"text":"FUNCTION_BLOCK A EVENT_INPUT E F; END_EVENT END_FUNCTION_BLOCK"}]} => {"commit":1}
{"op":"work","turns":1} => {"accepted":1}
{"op":"ask","kind":"faults","unit":"A"} => {"faults":[["SYNTAX",31,32]]}

== stale base
{"op":"commit","changes":[{"put":"A","base":0,"text":"FUNCTION_BLOCK A END_FUNCTION_BLOCK"}]} => {"commit":1}
{"op":"commit","changes":[{"put":"A","base":1,"text":"FUNCTION_BLOCK A END_FUNCTION_BLOCK"}]} => {"commit":2}
{"op":"work","turns":9} => {"accepted":1}
{"op":"commit","changes":[{"put":"A","base":1,"text":"FUNCTION_BLOCK B END_FUNCTION_BLOCK"}]} => {"current":2,"refused":"StaleBase","unit":"A"}
{"op":"ask","kind":"faults","unit":"A"} => {"faults":[]}

== Jobs that a run holds
{"op":"commit","changes":[{"put":"A","base":0,"text":"FUNCTION_BLOCK A END_FUNCTION_BLOCK"}]} => {"commit":1}
{"op":"take"} => {"job":1,"kind":"faults","unit":"A"}
{"op":"take"} => {"job":0}
{"op":"give_back","kind":"faults","unit":"A"} => {"returned":true}
{"op":"take"} => {"job":2,"kind":"faults","unit":"A"}
{"op":"deliver","job":2} => {"delivered":"accepted"}
{"op":"deliver","job":1} => {"refused":"NotPending"}
{"op":"give_back","kind":"faults","unit":"A"} => {"returned":false}

== A text that was changed and changed back has another revision
{"op":"commit","changes":[{"put":"A","base":0,"text":"FUNCTION_BLOCK A END_FUNCTION_BLOCK"}]} => {"commit":1}
{"op":"take"} => {"job":1,"kind":"faults","unit":"A"}
{"op":"commit","changes":[{"put":"A","base":1,"text":"FUNCTION_BLOCK B END_FUNCTION_BLOCK"}]} => {"commit":2}
{"op":"commit","changes":[{"put":"A","base":2,"text":"FUNCTION_BLOCK A END_FUNCTION_BLOCK"}]} => {"commit":3}
{"op":"deliver","job":1} => {"refused":"Stale","unit":"A"}

== Two engineers at one system, as in `examples/two_engineers.jsonl`: each request with its reply
// Ada commits a pump that uses a valve which is not there yet.
{"op":"commit","changes":[{"put":"PUMP","base":0,"text":"FUNCTION_BLOCK PUMP\n  EVENT_INPUT START; END_EVENT\n  FBS V: VALVE; END_FBS\nEND_FUNCTION_BLOCK"}]} => {"commit":1}
{"op":"ask","kind":"faults","unit":"PUMP"} => {"answer":"pending"}
{"op":"work","turns":10} => {"accepted":1}
{"op":"ask","kind":"faults","unit":"PUMP"} => {"faults":[["UNKNOWN_TYPE",60,65]]}
{"op":"ask","kind":"faults","unit":"VALVE"} => {"refused":"NoSuchKey"}
// Bert adds the valve; the pump is looked at again.
{"op":"commit","changes":[{"put":"VALVE","base":0,"text":"FUNCTION_BLOCK VALVE\n  EVENT_INPUT OPEN; END_EVENT\nEND_FUNCTION_BLOCK"}]} => {"commit":2}
each faults PUMP VALVE => {"answer":"pending"}
{"op":"work","turns":10} => {"accepted":2}
each faults PUMP VALVE => {"faults":[]}
// Bert renames it in one commit, and forgets the name in the text.
{"op":"commit","changes":[{"remove":"VALVE","base":2},{"put":"GATE","base":0,"text":"FUNCTION_BLOCK VALVE\n  EVENT_INPUT OPEN; END_EVENT\nEND_FUNCTION_BLOCK"}]} => {"commit":3}
{"op":"ask","kind":"faults","unit":"VALVE"} => {"refused":"NoSuchKey"}
{"op":"ask","kind":"faults","unit":"PUMP"} => {"answer":"pending"}
{"op":"work","turns":10} => {"accepted":2}
{"op":"ask","kind":"faults","unit":"GATE"} => {"faults":[["NAME_DIFFERS",15,20]]}
{"op":"ask","kind":"faults","unit":"PUMP"} => {"faults":[["UNKNOWN_TYPE",60,65]]}
// Bert mends the name, which does not reach the pump; Ada follows.
{"op":"commit","changes":[{"put":"GATE","base":3,"text":"FUNCTION_BLOCK GATE\n  EVENT_INPUT OPEN; END_EVENT\nEND_FUNCTION_BLOCK"}]} => {"commit":4}
{"op":"ask","kind":"faults","unit":"GATE"} => {"answer":"pending"}
{"op":"ask","kind":"faults","unit":"PUMP"} => {"faults":[["UNKNOWN_TYPE",60,65]]}
{"op":"commit","changes":[{"put":"PUMP","base":1,"text":"FUNCTION_BLOCK PUMP\n  EVENT_INPUT START; END_EVENT\n  FBS V: GATE; END_FBS\nEND_FUNCTION_BLOCK"}]} => {"commit":5}
{"op":"work","turns":10} => {"accepted":2}
each faults GATE PUMP => {"faults":[]}
// Bert removes the gate while a worker looks at Ada's next text: its result is late.
{"op":"commit","changes":[{"put":"PUMP","base":5,"text":"FUNCTION_BLOCK PUMP\n  EVENT_INPUT START; STOP; END_EVENT\n  FBS V: GATE; END_FBS\nEND_FUNCTION_BLOCK"}]} => {"commit":6}
{"op":"take"} => {"job":1,"kind":"faults","unit":"PUMP"}
{"op":"commit","changes":[{"remove":"GATE","base":4}]} => {"commit":7}
{"op":"deliver","job":1} => {"refused":"Stale","unit":"GATE"}
{"op":"ask","kind":"faults","unit":"GATE"} => {"refused":"NoSuchKey"}
{"op":"ask","kind":"faults","unit":"PUMP"} => {"answer":"pending"}
{"op":"work","turns":10} => {"accepted":1}
{"op":"ask","kind":"faults","unit":"PUMP"} => {"faults":[["UNKNOWN_TYPE",66,70]]}
// What was written against an old revision, or for what is gone, is refused.
{"op":"commit","changes":[{"put":"PUMP","base":5,"text":"FUNCTION_BLOCK PUMP\n  EVENT_INPUT START; END_EVENT\n  FBS V: VALVE; END_FBS\nEND_FUNCTION_BLOCK"}]} => {"current":6,"refused":"StaleBase","unit":"PUMP"}
{"op":"commit","changes":[{"remove":"GATE","base":4}]} => {"refused":"NoSuchUnit","unit":"GATE"}

== Ends and types of data connections
{"op":"commit","changes":[{"put":"N","base":0,"text":"FUNCTION_BLOCK N VAR_INPUT A:INT; END_VAR FBS F:M; END_FBS DATA_CONNECTIONS A TO F.X; A TO F.X; F.X TO F.Z; END_CONNECTIONS END_FUNCTION_BLOCK"},{"put":"M","base":0,"text":"FUNCTION_BLOCK M VAR_INPUT X:BOOL; END_VAR END_FUNCTION_BLOCK"}]} => {"commit":1}
{"op":"work","turns":9} => {"accepted":2}
{"op":"ask","kind":"faults","unit":"N"} => {"faults":[["DATA_TYPE",81,84],["DATA_TYPE",91,94],["SECOND_SOURCE",91,94],["PORT_SIDE",96,99],["PORT_UNKNOWN",103,106]]}

== A structure has its own faults and nothing else
{"op":"commit","changes":[{"put":"S","base":0,"text":"TYPE S : STRUCT F:INT; G:U; END_STRUCT; END_TYPE"}]} => {"commit":1}
{"op":"ask","kind":"faults","unit":"S"} => {"answer":"pending"}
{"op":"ask","kind":"net","unit":"S"} => {"refused":"NoSuchKey"}
{"op":"ask","kind":"deploy","unit":"S"} => {"refused":"NoSuchKey"}
{"op":"work","turns":9} => {"accepted":1}
{"op":"ask","kind":"faults","unit":"S"} => {"faults":[]}
{"op":"commit","changes":[{"put":"S","base":1,"text":"TYPE T : STRUCT F:INT:=TRUE; F:BOOL; END_STRUCT END_TYPE"}]} => {"commit":2}
{"op":"work","turns":9} => {"accepted":1}
{"op":"ask","kind":"faults","unit":"S"} => {"faults":[["NAME_DIFFERS",5,6],["LITERAL",23,27],["DUPLICATE",29,30]]}
{"op":"commit","changes":[{"put":"S","base":2,"text":"TYPE S : STRUCT F:INT; END_TYPE"}]} => {"commit":3}
{"op":"work","turns":9} => {"accepted":1}
{"op":"ask","kind":"faults","unit":"S"} => {"faults":[["SYNTAX",23,31]]}

== A chart and its algorithm
{"op":"commit","changes":[{"put":"K","base":0,"text":"FUNCTION_BLOCK K EVENT_INPUT E; END_EVENT VAR X:INT; B:BOOL; END_VAR EC_STATES S0; S1: G; END_STATES EC_TRANSITIONS S0 TO S1 := E[X]; S1 TO S2 := 1; END_TRANSITIONS ALGORITHM G IN ST: B := X + TRUE; END_ALGORITHM END_FUNCTION_BLOCK"}]} => {"commit":1}
{"op":"work","turns":9} => {"accepted":1}
{"op":"ask","kind":"faults","unit":"K"} => {"faults":[["CLASS",130,131],["STATE_UNKNOWN",140,142],["CLASS",191,192]]}
"#;

#[test]
fn conversations(rt: HostRuntime) -> Result<(), Fail> {
    compare(&rt, rt.alloc(), CONVERSATIONS)
}
