//! What connections say first.
use crate::play::compare;
use fb_admission::{begins_request, take_proof};
use fb_secret::{client_line, host_answer};
use std::process::Abort;
use std::test::Fail;

const SECRET: &[u8] = b"0123456789abcdef";

const HOST: &[u8] = b"0123456789abcdef0123456789abcdef0123456789abcdef0123456789abcdef";

const CLIENT: &[u8] = b"fedcba9876543210fedcba9876543210fedcba9876543210fedcba9876543210";

const REQUEST: &[u8] = b"{\"op\":\"take\"}\n";

#[test]
fn a_proof_is_taken_off(rt: HostRuntime) -> Result<(), Fail> {
    let mut head = client_line(rt.alloc(), SECRET, HOST, CLIENT)?;
    let wanted = host_answer(rt.alloc(), SECRET, HOST, &head)?.ok_or("no answer")?;
    head.extend_from_slice(REQUEST)?;
    let answer = take_proof(rt.alloc(), &mut head, SECRET, HOST)?.ok_or("no proof")?;
    assert!(rt; answer.as_slice() == wanted.as_slice());
    assert!(rt; head.as_slice() == REQUEST);
    for line in ["{\"op\":\"take\"}\n", "0123456789abcdef\n", ""] {
        let mut head = line.as_bytes().to_vec(rt.alloc())?;
        let answer = take_proof(rt.alloc(), &mut head, SECRET, HOST)?;
        assert!(rt;
            answer.is_none() && head.as_slice() == line.as_bytes(),
            "{line}"
        );
    }
    Ok(())
}

// The first bytes, and whether a request begins so.
const HEADS: &[(&str, bool)] = &[
    ("{\"op\":\"take\"}\n", true),
    (" \t\r\n{", true),
    ("{", true),
    ("", false),
    ("\r\n", false),
    ("POST / HTTP/1.1\r\n", false),
    ("patch / HTTP/1.1\r\n\r\n{", false),
    ("\r\nPOST / HTTP/1.1\r\n\r\n{", false),
    ("\u{16}\u{3}\u{1}{", false),
    ("\u{b}{", false),
    ("[{", false),
];

#[test]
fn requests_are_known(rt: HostRuntime) {
    for (head, is_known) in HEADS {
        assert_eq!(rt; begins_request(head.as_bytes()), *is_known, "{head}");
    }
}

const CONVERSATIONS: &str = r#"
== Who does not prove the secret gets no reply, also where all seats are taken / secret sesame / connections 2 / calls 2, 2 / errors bench61499: connections turned away: 8, for a wrong secret: 7
// Who proves it gets a seat, or learns that there is none.
0 is challenged
0 says {"op":"take"}\n
0 leaves
1 proves sesamf
2 is challenged
2 says {"proof":"","challenge":""}\n
2 leaves
3 is challenged
3 says sesame\n{"op":"take"}\n
3 leaves
4 is challenged
4 says \n{"op":"take"}\n
4 leaves
5 is challenged
5 says {"proof":"
5 leaves
6 proves sesame => proved
6 asks {"op":"take"} => {"job":0}
7 proves sesame => proved
7 leaves => {"refused":"NoSeat"}
8 proves sesamf
6 asks {"op":"take"} => {"job":0}
6 leaves
// Only sessions are counted: the host closes after the second one.
9 proves sesame => proved
9 leaves

== A proof comes in two pieces, and another connection comes and goes between them / secret sesame / connections 2 / calls 2, 2
// A request follows the second piece.
0 gets => {"challenge":"f375180aba92888401f1919be4a8715a62763b65c1c10e1d0858e81d4d6f9fd2"}
0 says {"proof":"58ef78d20c84bc2547b97e86988c7e2e68cc83fc8602265cc7
1 proves sesame => proved
1 asks {"op":"take"} => {"job":0}
1 leaves
0 asks f36ebc397fe603","challenge":"fedcba9876543210fedcba9876543210fedcba9876543210fedcba9876543210"}\n{"op":"take"} => {"proof":"8be27efd749f76d6ce4ab863398252e2d40e7afaaff3dd61764b1f1e08bd3114"}
0 gets => {"job":0}
0 leaves

== A page in a browser may send lines after its header, of which none is read / connections 1 / calls 1, 1 / errors bench61499: connections turned away: 7, for a wrong secret: 0
connect 5
0 says POST / HTTP/1.1\r\nContent-Length: 14\r\n\r\n{"op":"take"}\n
0 leaves
1 says GET / HTTP/1.1\r\n\r\n
1 leaves
2 says PRI * HTTP/2.0\r\n\r\nSM\r\n\r\n
2 leaves
3 says \r\nPOST / HTTP/1.1\r\n\r\n\n{"op":"take"}\n
3 leaves
4 says [\n{"op":"take"}\n
4 leaves
// A method that browsers send as it is written.
5 says patch / HTTP/1.1\r\nHost: evil.test\r\n\r\n\n{"op":"commit","changes":[{"put":"EVIL","base":0,"text":"FUNCTION_BLOCK EVIL END_FUNCTION_BLOCK"}]}\n
5 is closed
6 says  \r\n\n
6 says POST
6 is closed
// A request may have blanks before it. Nobody has committed anything.
7 says  \r\n 
7 asks {"op":"commit","changes":[{"remove":"EVIL","base":1}]} => {"refused":"NoSuchUnit","unit":"EVIL"}
7 leaves
"#;

#[test]
fn a_secret_is_asked_for(rt: HostRuntime) -> Result<(), Fail> {
    compare(&rt, rt.alloc(), CONVERSATIONS)
}
