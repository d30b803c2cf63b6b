//! Conversations with checkpoints: what they keep, what they refuse, and how they make room.
use crate::conversation::compare;
use std::test::Fail;

const CONVERSATIONS: &str = r#"
== A job taken before is delivered after; the history is full after three calls, and goes on after another checkpoint / 1024 / 3
{"op":"commit","changes":[{"put":"A","base":0,"text":"FUNCTION_BLOCK A END_FUNCTION_BLOCK"}]} => {"commit":1}
{"op":"take"} => {"job":1,"kind":"faults","unit":"A"}
{"op":"checkpoint","units":4,"history":3} => {"checkpoint":2}
{"op":"deliver","job":1} => {"delivered":"accepted"}
{"op":"ask","kind":"faults","unit":"A"} => {"faults":[]}
{"op":"commit","changes":[{"put":"A","base":1,"text":"FUNCTION_BLOCK B END_FUNCTION_BLOCK"}]} => {"commit":2}
{"op":"ask","kind":"faults","unit":"A"} => {"refused":"HistoryFull"}
{"op":"checkpoint","units":4,"history":3} => {"checkpoint":5}
{"op":"ask","kind":"faults","unit":"A"} => {"answer":"pending"}

== Two units are over one, and not over two; a second checkpoint with no call between gives the same number
{"op":"commit","changes":[{"put":"A","base":0,"text":"FUNCTION_BLOCK A END_FUNCTION_BLOCK"},{"put":"B","base":0,"text":""}]} => {"commit":1}
{"op":"checkpoint","units":1,"history":9} => {"refused":"UnitsOver"}
{"op":"checkpoint","units":2,"history":9} => {"checkpoint":1}
{"op":"checkpoint","units":3,"history":9} => {"checkpoint":1}

== The limits of a checkpoint, and requests that are none. Nothing is recorded
{"op":"checkpoint","units":16384,"history":10000000} => {"checkpoint":0}
{"op":"checkpoint","units":16385,"history":1} => {"refused":"BadRequest"}
{"op":"checkpoint","units":1,"history":10000001} => {"refused":"BadRequest"}
{"op":"checkpoint","units":4,"history":0} => {"refused":"BadRequest"}
{"op":"checkpoint","units":4} => {"refused":"BadRequest"}
{"op":"checkpoint","units":"4","history":4} => {"refused":"BadRequest"}
{"op":"checkpoint","units":4.0,"history":4} => {"refused":"BadRequest"}
{"op":"checkpoint","units":4,"history":-1} => {"refused":"BadRequest"}
{"op":"checkpoint","units":4,"history":0,"history":5,"x":[]} => {"checkpoint":0}

== A checkpoint on a full history, again and again / 1024 / 1
{"op":"ask","kind":"faults","unit":"A"} => {"refused":"NoSuchKey"}
{"op":"ask","kind":"faults","unit":"A"} => {"refused":"HistoryFull"}
{"op":"work","turns":1} => {"accepted":0,"refused":"HistoryFull"}
{"op":"checkpoint","units":1,"history":1} => {"checkpoint":1}
{"op":"ask","kind":"faults","unit":"A"} => {"refused":"NoSuchKey"}
{"op":"checkpoint","units":1,"history":1} => {"checkpoint":2}

== A key that is out stays out, and is given back after; the first job's result comes too late then
{"op":"commit","changes":[{"put":"A","base":0,"text":"FUNCTION_BLOCK A END_FUNCTION_BLOCK"}]} => {"commit":1}
{"op":"take"} => {"job":1,"kind":"faults","unit":"A"}
{"op":"checkpoint","units":9,"history":9} => {"checkpoint":2}
{"op":"take"} => {"job":0}
{"op":"give_back","kind":"faults","unit":"A"} => {"returned":true}
{"op":"take"} => {"job":2,"kind":"faults","unit":"A"}
{"op":"deliver","job":2} => {"delivered":"accepted"}
{"op":"deliver","job":1} => {"refused":"NotPending"}

== A result is stale across a checkpoint: the type was changed behind it
{"op":"commit","changes":[{"put":"C","base":0,"text":"FUNCTION_BLOCK C FBS S:E; END_FBS END_FUNCTION_BLOCK"},{"put":"E","base":0,"text":"FUNCTION_BLOCK E END_FUNCTION_BLOCK"}]} => {"commit":1}
{"op":"take"} => {"job":1,"kind":"faults","unit":"C"}
{"op":"checkpoint","units":9,"history":9} => {"checkpoint":2}
{"op":"commit","changes":[{"put":"E","base":1,"text":"FUNCTION_BLOCK E END_FUNCTION_BLOCK"}]} => {"commit":2}
{"op":"deliver","job":1} => {"refused":"Stale","unit":"E"}
{"op":"ask","kind":"faults","unit":"C"} => {"answer":"pending"}

== A result is stale where the checkpoint comes between the change and the delivery
{"op":"commit","changes":[{"put":"C","base":0,"text":"FUNCTION_BLOCK C FBS S:E; END_FBS END_FUNCTION_BLOCK"},{"put":"E","base":0,"text":"FUNCTION_BLOCK E END_FUNCTION_BLOCK"}]} => {"commit":1}
{"op":"take"} => {"job":1,"kind":"faults","unit":"C"}
{"op":"commit","changes":[{"put":"E","base":1,"text":"FUNCTION_BLOCK E END_FUNCTION_BLOCK"}]} => {"commit":2}
{"op":"checkpoint","units":9,"history":9} => {"checkpoint":3}
{"op":"deliver","job":1} => {"refused":"Stale","unit":"E"}

== A key is pending at the start, and settled after it
{"op":"commit","changes":[{"put":"A","base":0,"text":"FUNCTION_BLOCK A END_FUNCTION_BLOCK"}]} => {"commit":1}
{"op":"checkpoint","units":9,"history":9} => {"checkpoint":1}
{"op":"ask","kind":"faults","unit":"A"} => {"answer":"pending"}
{"op":"work","turns":9} => {"accepted":1}
{"op":"ask","kind":"faults","unit":"A"} => {"faults":[]}

== A key is pending at the start, gone, and made anew. The revision goes on from the commits before
{"op":"commit","changes":[{"put":"A","base":0,"text":"FUNCTION_BLOCK A END_FUNCTION_BLOCK"}]} => {"commit":1}
{"op":"checkpoint","units":9,"history":9} => {"checkpoint":1}
{"op":"commit","changes":[{"remove":"A","base":1}]} => {"commit":2}
{"op":"ask","kind":"faults","unit":"A"} => {"refused":"NoSuchKey"}
{"op":"commit","changes":[{"put":"A","base":0,"text":"FUNCTION_BLOCK A END_FUNCTION_BLOCK"}]} => {"commit":3}
{"op":"ask","kind":"faults","unit":"A"} => {"answer":"pending"}

== A value is kept, and ends where a commit behind the checkpoint reaches it
{"op":"commit","changes":[{"put":"C","base":0,"text":"FUNCTION_BLOCK C FBS S:E; END_FBS END_FUNCTION_BLOCK"}]} => {"commit":1}
{"op":"work","turns":9} => {"accepted":1}
{"op":"checkpoint","units":9,"history":9} => {"checkpoint":4}
{"op":"ask","kind":"faults","unit":"C"} => {"faults":[["UNKNOWN_TYPE",23,24]]}
{"op":"commit","changes":[{"put":"E","base":0,"text":"FUNCTION_BLOCK E END_FUNCTION_BLOCK"}]} => {"commit":2}
{"op":"ask","kind":"faults","unit":"C"} => {"answer":"pending"}

== Commit numbers and revisions go on
{"op":"commit","changes":[{"put":"A","base":0,"text":"FUNCTION_BLOCK A END_FUNCTION_BLOCK"}]} => {"commit":1}
{"op":"commit","changes":[{"put":"A","base":1,"text":"FUNCTION_BLOCK B END_FUNCTION_BLOCK"}]} => {"commit":2}
{"op":"checkpoint","units":9,"history":9} => {"checkpoint":2}
{"op":"commit","changes":[{"put":"A","base":1,"text":"FUNCTION_BLOCK A END_FUNCTION_BLOCK"}]} => {"current":2,"refused":"StaleBase","unit":"A"}
{"op":"commit","changes":[{"put":"A","base":2,"text":"FUNCTION_BLOCK A END_FUNCTION_BLOCK"}]} => {"commit":3}

== A smaller and a larger limit of units, and of calls / 1 / 3
{"op":"commit","changes":[{"put":"A","base":0,"text":"FUNCTION_BLOCK A END_FUNCTION_BLOCK"}]} => {"commit":1}
{"op":"commit","changes":[{"put":"B","base":0,"text":""}]} => {"refused":"TooManyUnits"}
{"op":"checkpoint","units":2,"history":5} => {"checkpoint":2}
{"op":"commit","changes":[{"put":"B","base":0,"text":""}]} => {"commit":2}
{"op":"checkpoint","units":2,"history":1} => {"checkpoint":3}
{"op":"commit","changes":[{"put":"C","base":0,"text":""}]} => {"refused":"TooManyUnits"}
{"op":"ask","kind":"faults","unit":"B"} => {"refused":"HistoryFull"}

== Work that meets the full history in the middle leaves its key out, and a checkpoint leaves it so / 1024 / 2
{"op":"commit","changes":[{"put":"A","base":0,"text":"FUNCTION_BLOCK A END_FUNCTION_BLOCK"}]} => {"commit":1}
{"op":"work","turns":1} => {"accepted":0,"refused":"HistoryFull"}
{"op":"checkpoint","units":9,"history":9} => {"checkpoint":2}
{"op":"take"} => {"job":0}
{"op":"give_back","kind":"faults","unit":"A"} => {"returned":true}
{"op":"work","turns":9} => {"accepted":1}

== What the line engine refuses is no call, before and after / 1024 / 1
{"op":"take"} => {"job":0}
{"op":"ask","kind":"faults","unit":"9A"} => {"refused":"BadName"}
{"op":"deliver","job":1} => {"refused":"NoSuchJob"}
{"op":"checkpoint","units":9,"history":9} => {"checkpoint":1}
{"op":"deliver","job":1} => {"refused":"NoSuchJob"}

== Out of range comes before what the workbench says
{"op":"commit","changes":[{"put":"A","base":0,"text":""},{"put":"B","base":0,"text":""}]} => {"commit":1}
{"op":"checkpoint","units":1,"history":0} => {"refused":"BadRequest"}
{"op":"checkpoint","units":1,"history":1} => {"refused":"UnitsOver"}

== A text that came back is another revision, with a checkpoint between too
{"op":"commit","changes":[{"put":"A","base":0,"text":"FUNCTION_BLOCK A END_FUNCTION_BLOCK"}]} => {"commit":1}
{"op":"take"} => {"job":1,"kind":"faults","unit":"A"}
{"op":"commit","changes":[{"remove":"A","base":1}]} => {"commit":2}
{"op":"checkpoint","units":9,"history":9} => {"checkpoint":3}
{"op":"commit","changes":[{"put":"A","base":0,"text":"FUNCTION_BLOCK A END_FUNCTION_BLOCK"}]} => {"commit":3}
{"op":"deliver","job":1} => {"refused":"Stale","unit":"A"}
"#;

#[test]
fn conversations(rt: HostRuntime) -> Result<(), Fail> {
    compare(&rt, rt.alloc(), CONVERSATIONS)
}
