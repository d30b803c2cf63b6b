//! Sessions that follow one another at a seat, over a history that begins again.
use crate::play::compare;
use std::test::Fail;

const CONVERSATIONS: &str = r#"
== A history of 20 calls is filled three times, over two connections / connections 2 / history 20 / calls 60, 20
0 repeats 30 {"op":"ask","kind":"net","unit":"A"} => {"refused":"NoSuchKey"}
0 leaves
1 repeats 30 {"op":"ask","kind":"net","unit":"A"} => {"refused":"NoSuchKey"}
1 leaves

== A history of one call begins again with each: texts, revisions and commit numbers go on / connections 3 / history 1 / calls 4, 1
0 asks {"op":"commit","changes":[{"put":"A","base":0,"text":"FUNCTION_BLOCK A END_FUNCTION_BLOCK"}]} => {"commit":1}
0 leaves
1 asks {"op":"commit","changes":[{"put":"A","base":0,"text":"FUNCTION_BLOCK A END_FUNCTION_BLOCK"}]} => {"current":1,"refused":"StaleBase","unit":"A"}
1 asks {"op":"commit","changes":[{"put":"B","base":0,"text":"FUNCTION_BLOCK B END_FUNCTION_BLOCK"}]} => {"commit":2}
1 leaves
2 asks {"op":"commit","changes":[{"remove":"A","base":1}]} => {"commit":3}
2 leaves

== It begins again between a take and its delivery, and twice between a stale base and the commit by it / connections 1 / history 2 / calls 12, 2
0 asks {"op":"commit","changes":[{"put":"A","base":0,"text":"FUNCTION_BLOCK A END_FUNCTION_BLOCK"}]} => {"commit":1}
0 asks {"op":"take"} => {"job":1,"kind":"faults","unit":"A"}
0 repeats 3 {"op":"ask","kind":"net","unit":"A"} => {"refused":"NoSuchKey"}
0 asks {"op":"deliver","job":1} => {"delivered":"accepted"}
0 asks {"op":"commit","changes":[{"put":"A","base":0,"text":"FUNCTION_BLOCK A END_FUNCTION_BLOCK"}]} => {"current":1,"refused":"StaleBase","unit":"A"}
0 repeats 3 {"op":"ask","kind":"faults","unit":"A"} => {"faults":[]}
0 asks {"op":"commit","changes":[{"put":"A","base":0,"text":"FUNCTION_BLOCK A END_FUNCTION_BLOCK"}]} => {"current":1,"refused":"StaleBase","unit":"A"}
0 asks {"op":"commit","changes":[{"put":"A","base":1,"text":"FUNCTION_BLOCK A END_FUNCTION_BLOCK"}]} => {"commit":2}
0 leaves

== It begins again with the call after more bytes of texts than it may keep, also if they were put in vain / connections 2 / memory 60 / history 20 / calls 7, 3
0 asks {"op":"commit","changes":[{"put":"A","base":0,"text":"FUNCTION_BLOCK A END_FUNCTION_BLOCK"}]} => {"commit":1}
0 repeats 2 {"op":"ask","kind":"net","unit":"A"} => {"refused":"NoSuchKey"}
0 asks {"op":"commit","changes":[{"put":"A","base":0,"text":"FUNCTION_BLOCK A END_FUNCTION_BLOCK"}]} => {"current":1,"refused":"StaleBase","unit":"A"}
0 asks {"op":"ask","kind":"faults","unit":"A"} => {"answer":"pending"}
0 leaves
1 asks {"op":"commit","changes":[{"remove":"A","base":1}]} => {"commit":2}
1 asks {"op":"ask","kind":"net","unit":"A"} => {"refused":"NoSuchKey"}
1 leaves

== What a worker has done is there for the next connection / connections 2 / workers 1 / history 3 / calls any
// It makes more looks than it makes before its receipts go to the store.
0 commits 80 => {"faults":[]}
0 leaves
1 asks {"op":"ask","kind":"faults","unit":"U9"} => {"faults":[]}
1 asks {"op":"commit","changes":[{"put":"A","base":0,"text":"FUNCTION_BLOCK A END_FUNCTION_BLOCK"}]} => {"commit":81}
1 leaves

== The second connection comes while the first sits, and the third gets the seat once the first has gone / connections 2 / history 20 / calls 3, 3 / errors bench61499: connections turned away: 2, for a wrong secret: 0
// The second learns that before it says anything, and another one that has said much.
0 asks {"op":"ask","kind":"net","unit":"A"} => {"refused":"NoSuchKey"}
1 is closed => {"refused":"NoSeat"}
2 ends {"op":"take"} => {"refused":"NoSeat"}
0 asks {"op":"ask","kind":"net","unit":"A"} => {"refused":"NoSuchKey"}
0 leaves
3 asks {"op":"commit","changes":[{"put":"A","base":0,"text":"FUNCTION_BLOCK A END_FUNCTION_BLOCK"}]} => {"commit":1}
3 leaves

== The next session is given the keys again that a session took and left / connections 6 / history 100 / calls 36, 36
// The second session leaves in the middle of a line, and the third works for all keys.
0 asks {"op":"commit","changes":[{"put":"A","base":0,"text":"FUNCTION_BLOCK A END_FUNCTION_BLOCK"},{"put":"B","base":0,"text":"FUNCTION_BLOCK B END_FUNCTION_BLOCK"},{"put":"C","base":0,"text":"FUNCTION_BLOCK C END_FUNCTION_BLOCK"}]} => {"commit":1}
0 asks {"op":"take"} => {"job":1,"kind":"faults","unit":"A"}
0 asks {"op":"take"} => {"job":2,"kind":"faults","unit":"B"}
0 asks {"op":"take"} => {"job":3,"kind":"faults","unit":"C"}
0 asks {"op":"take"} => {"job":0}
0 leaves
1 asks {"op":"take"} => {"job":1,"kind":"faults","unit":"A"}
1 asks {"op":"take"} => {"job":2,"kind":"faults","unit":"B"}
1 asks {"op":"take"} => {"job":3,"kind":"faults","unit":"C"}
1 says {"op":"take"
1 leaves => {"refused":"BadRequest"}
2 asks {"op":"work","turns":9} => {"accepted":3}
2 leaves
// A result that is stale leaves its key out, so that it is given back.
3 asks {"op":"commit","changes":[{"put":"A","base":1,"text":"FUNCTION_BLOCK A END_FUNCTION_BLOCK"}]} => {"commit":2}
3 asks {"op":"take"} => {"job":1,"kind":"faults","unit":"A"}
3 asks {"op":"commit","changes":[{"put":"A","base":2,"text":"FUNCTION_BLOCK A END_FUNCTION_BLOCK"}]} => {"commit":3}
3 asks {"op":"take"} => {"job":2,"kind":"faults","unit":"A"}
3 asks {"op":"deliver","job":1} => {"refused":"Stale","unit":"A"}
3 leaves
// Of two keys of one unit one is settled, and the other is given back.
4 asks {"op":"take"} => {"job":1,"kind":"faults","unit":"A"}
4 asks {"op":"deliver","job":1} => {"delivered":"accepted"}
4 asks {"op":"commit","changes":[{"put":"S","base":0,"text":"SUBAPPLICATION S END_SUBAPPLICATION"}]} => {"commit":4}
4 asks {"op":"take"} => {"job":2,"kind":"faults","unit":"S"}
4 asks {"op":"take"} => {"job":3,"kind":"net","unit":"S"}
4 asks {"op":"deliver","job":2} => {"delivered":"accepted"}
4 leaves
5 asks {"op":"take"} => {"job":1,"kind":"net","unit":"S"}
5 leaves

== A key that somebody else took stays out / sessions 2 / connections 3 / history 100 / calls 8, 8
// The first takes a key, which a commit makes again, and which the second takes then. It stays out when the first goes, and is given back when the second does.
0 asks {"op":"commit","changes":[{"put":"A","base":0,"text":"FUNCTION_BLOCK A END_FUNCTION_BLOCK"}]} => {"commit":1}
0 asks {"op":"take"} => {"job":1,"kind":"faults","unit":"A"}
1 asks {"op":"commit","changes":[{"put":"A","base":1,"text":"FUNCTION_BLOCK A END_FUNCTION_BLOCK"}]} => {"commit":2}
1 asks {"op":"take"} => {"job":1,"kind":"faults","unit":"A"}
0 leaves
2 asks {"op":"take"} => {"job":0}
1 leaves
2 asks {"op":"take"} => {"job":1,"kind":"faults","unit":"A"}
2 leaves

== A session keeps a key and stays: the host gives it back, and a late result does no harm / sessions 2 / connections 2 / key 100 / history 1000 / calls any
0 asks {"op":"commit","changes":[{"put":"A","base":0,"text":"FUNCTION_BLOCK A END_FUNCTION_BLOCK"}]} => {"commit":1}
0 asks {"op":"take"} => {"job":1,"kind":"faults","unit":"A"}
1 takes => {"job":1,"kind":"faults","unit":"A"}
1 asks {"op":"deliver","job":1} => {"delivered":"accepted"}
0 asks {"op":"deliver","job":1} => {"refused":"NotPending"}
0 asks {"op":"ask","kind":"faults","unit":"A"} => {"faults":[]}
0 leaves
1 leaves
"#;

#[test]
fn a_seat_goes_on(rt: HostRuntime) -> Result<(), Fail> {
    compare(&rt, rt.alloc(), CONVERSATIONS)
}
