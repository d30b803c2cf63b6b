//! Reads: what a host shows of its workbench, and the events for those who watch.
use crate::play::compare;
use std::test::Fail;

const EACH: &str = r#"
== Each read, of an empty workbench, after a commit, after its work, and after a removal / connections 2 / high 1 / low 255 / calls 9, 9
0 asks {"op":"status"} => {"status":{"calls":0,"commits":0,"keys":0,"pending":0,"session":1,"units":0,"workbench":"000000000000000100000000000000ff"}}
0 asks {"op":"units"} => {"at":0,"units":[]}
0 asks {"op":"text","unit":"A"} => {"refused":"NoSuchUnit","unit":"A"}
0 asks {"op":"peek","kind":"faults","unit":"A"} => {"refused":"NoSuchKey"}
0 asks {"op":"watch","after":0,"wait":0} => {"at":0,"events":[]}
0 asks {"op":"commit","changes":[{"put":"B","base":0,"text":"FUNCTION_BLOCK B END_FUNCTION_BLOCK"},{"put":"A","base":0,"text":"FUNCTION_BLOCK A END_FUNCTION_BLOCK"}]} => {"commit":1}
0 asks {"op":"status"} => {"status":{"calls":1,"commits":1,"keys":2,"pending":2,"session":1,"units":2,"workbench":"000000000000000100000000000000ff"}}
0 asks {"op":"units"} => {"at":1,"units":[["A",1],["B",1]]}
0 asks {"op":"text","unit":"a"} => {"at":1,"base":1,"text":"FUNCTION_BLOCK A END_FUNCTION_BLOCK"}
0 asks {"op":"peek","kind":"faults","unit":"A"} => {"answer":"pending"}
0 asks {"op":"peek","kind":"net","unit":"A"} => {"refused":"NoSuchKey"}
0 asks {"op":"work","turns":9} => {"accepted":2}
0 asks {"op":"peek","kind":"faults","unit":"A"} => {"faults":[]}
0 asks {"op":"watch","after":0,"wait":0} => {"at":6,"events":[["commit",1,1,["B","A"],[]],["value","faults","A"],["value","faults","B"]]}
0 asks {"op":"watch","after":1,"wait":0} => {"at":6,"events":[["value","faults","A"],["value","faults","B"]]}
0 asks {"op":"commit","changes":[{"put":"C","base":0,"text":"FUNCTION_BLOCK C END_FUNCTION_BLOCK"},{"remove":"A","base":1}]} => {"commit":2}
0 asks {"op":"watch","after":6,"wait":30000} => {"at":7,"events":[["commit",2,1,["C"],["A"]]]}
0 asks {"op":"status"} => {"status":{"calls":7,"commits":2,"keys":2,"pending":1,"session":1,"units":2,"workbench":"000000000000000100000000000000ff"}}
0 asks {"op":"text","unit":"A"} => {"refused":"NoSuchUnit","unit":"A"}
0 asks {"op":"text","unit":"C"} => {"at":7,"base":2,"text":"FUNCTION_BLOCK C END_FUNCTION_BLOCK"}
0 asks {"op":"units"} => {"at":7,"units":[["B",1],["C",2]]}
// A refused commit and a question are no events.
0 asks {"op":"commit","changes":[{"put":"C","base":0,"text":"FUNCTION_BLOCK C END_FUNCTION_BLOCK"}]} => {"current":2,"refused":"StaleBase","unit":"C"}
0 asks {"op":"ask","kind":"net","unit":"C"} => {"refused":"NoSuchKey"}
0 asks {"op":"watch","after":7,"wait":0} => {"at":9,"events":[]}
0 asks {"op":"watch","after":9,"wait":40} => {"at":9,"events":[]}
passed 30
0 asks {"op":"watch","after":10,"wait":30000} => {"at":9,"missed":true}
within 20000
0 leaves
1 asks {"op":"text","unit":"C"} => {"at":9,"base":2,"text":"FUNCTION_BLOCK C END_FUNCTION_BLOCK"}
1 leaves

== What a read refuses, and in which order / connections 1 / calls 0, 0
0 asks {"op":"text"} => {"refused":"BadRequest"}
0 asks {"op":"text","unit":1} => {"refused":"BadRequest"}
0 asks {"op":"text","unit":"9"} => {"refused":"BadName"}
0 asks {"op":"units","after":7} => {"refused":"BadRequest"}
0 asks {"op":"units","after":""} => {"refused":"BadName"}
0 asks {"op":"peek","unit":"A"} => {"refused":"BadRequest"}
0 asks {"op":"peek","kind":"texts","unit":"9"} => {"refused":"BadRequest"}
0 asks {"op":"peek","kind":"faults","unit":"9"} => {"refused":"BadName"}
0 asks {"op":"watch","after":0} => {"refused":"BadRequest"}
0 asks {"op":"watch","wait":0} => {"refused":"BadRequest"}
0 asks {"op":"watch","after":-1,"wait":0} => {"refused":"BadRequest"}
0 asks {"op":"watch","after":0,"wait":30001} => {"refused":"BadRequest"}
0 asks {"op":"status","of":7} => {"status":{"calls":0,"commits":0,"keys":0,"pending":0,"session":1,"units":0,"workbench":"00000000000000000000000000000000"}}
0 leaves
"#;

const OVER: &str = r#"
== Pages of units: a thousand at most, behind a name that is there or not / connections 1 / units 1100 / history 2000 / calls 1001, 1001
0 puts 1001
0 counts [" in {"op":"units"} => 1000
0 asks {"op":"units","after":"U997"} => {"at":1001,"units":[["U998",999],["U999",1000]]}
0 asks {"op":"units","after":"U997X"} => {"at":1001,"units":[["U998",999],["U999",1000]]}
0 asks {"op":"units","after":"u999"} => {"at":1001,"units":[]}
0 counts [" in {"op":"units","after":"A"} => 1000
// A watch looks at two hundred calls.
0 counts commit in {"op":"watch","after":700,"wait":0} => 200
0 counts commit in {"op":"watch","after":900,"wait":0} => 101
0 leaves

== A roll between: only events are missed / connections 1 / history 3 / calls 11, 2
0 asks {"op":"commit","changes":[{"put":"A","base":0,"text":"FUNCTION_BLOCK A END_FUNCTION_BLOCK"}]} => {"commit":1}
0 repeats 3 {"op":"ask","kind":"net","unit":"A"} => {"refused":"NoSuchKey"}
0 asks {"op":"watch","after":1,"wait":0} => {"at":4,"events":[]}
0 asks {"op":"watch","after":0,"wait":30000} => {"at":4,"missed":true}
0 repeats 6 {"op":"ask","kind":"net","unit":"A"} => {"refused":"NoSuchKey"}
0 asks {"op":"watch","after":1,"wait":0} => {"at":10,"events":[]}
0 asks {"op":"commit","changes":[{"remove":"A","base":1}]} => {"commit":2}
0 asks {"op":"watch","after":1,"wait":30000} => {"at":11,"events":[["commit",2,1,[],["A"]]]}
within 20000
0 asks {"op":"watch","after":0,"wait":0} => {"at":11,"missed":true}
0 leaves

== Two watch while a third works, and a fourth may still come / connections 4 / sessions 3 / calls 3, 3
0 asks {"op":"commit","changes":[{"put":"A","base":0,"text":"FUNCTION_BLOCK A END_FUNCTION_BLOCK"}]} => {"commit":1}
1 says {"op":"watch","after":1,"wait":30000}\n
2 says {"op":"watch","after":1,"wait":30000}\n
wait 50
0 asks {"op":"work","turns":1} => {"accepted":1}
1 gets => {"at":3,"events":[["value","faults","A"]]}
2 gets => {"at":3,"events":[["value","faults","A"]]}
within 20000
0 leaves
1 leaves
2 leaves
3 asks {"op":"watch","after":3,"wait":0} => {"at":3,"events":[]}
3 leaves

== The peer of a watch goes, and its seat is free again / connections 2 / calls 1, 1
0 says {"op":"watch","after":0,"wait":300}\n
0 leaves => {"at":0,"events":[]}
1 asks {"op":"take"} => {"job":0}
1 leaves

== A host that lets nobody in any more is not held up by those who watch / connections 64 / sessions 64 / calls 0, 0
each 0 to 62 asks {"op":"watch","after":0,"wait":0} => {"at":0,"events":[]}
each 0 to 62 says {"op":"watch","after":0,"wait":30000}\n
63 asks {"op":"watch","after":0,"wait":0} => {"at":0,"events":[]}
63 says {"op":"watch","after":0,"wait":30000}\n
leave 0 to 63 => {"at":0,"events":[]}
within 20000
"#;

#[test]
fn each_read_is_answered(rt: HostRuntime) -> Result<(), Fail> {
    compare(&rt, rt.alloc(), EACH)
}

#[test]
fn reads_go_over_pages_rolls_and_sessions(rt: HostRuntime) -> Result<(), Fail> {
    compare(&rt, rt.alloc(), OVER)
}
