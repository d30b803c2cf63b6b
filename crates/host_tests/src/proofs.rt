//! The codes of RFC 4231, the lines of an exchange, and lines that prove nothing.
use fb_admission::take_proof;
use fb_secret::{
    challenge, challenge_line, client_line, hmac_sha256, host_answer, proofs_are_for_one_exchange,
};
use refusing::{each_refused, refuse, report, was_refused};
use std::alloc::{AllocError, Global};
use std::io::Print;
use std::test::Fail;

/// A key and a message, each a byte this number of times and a text, and their code.
struct Code {
    key: (u8, usize, &'static str),
    message: (u8, usize, &'static str),
    code: &'static str,
}

const CODES: &[Code; 8] = &[
    Code {
        key: (0x0b, 20, ""),
        message: (0, 0, "Hi There"),
        code: "b0344c61d8db38535ca8afceaf0bf12b881dc200c9833da726e9376c2e32cff7",
    },
    Code {
        key: (0, 0, "Jefe"),
        message: (0, 0, "what do ya want for nothing?"),
        code: "5bdcc146bf60754e6a042426089575c75a003f089d2739839dec58b964ec3843",
    },
    Code {
        key: (0xaa, 20, ""),
        message: (0xdd, 50, ""),
        code: "773ea91e36800e46854db8ebd09181a72959098b3ef8c122d9635514ced565fe",
    },
    Code {
        key: (0xaa, 131, ""),
        message: (
            0,
            0,
            "Test Using Larger Than Block-Size Key - Hash Key First",
        ),
        code: "60e431591ee0b67f0d8a26aacbf5b77f8e0bc6213728c5140546040f0ee37f54",
    },
    Code {
        key: (0xaa, 131, ""),
        message: (
            0,
            0,
            "This is a test using a larger than block-size key and a larger than block-size data. \
            The key needs to be hashed before being used by the HMAC algorithm.",
        ),
        code: "9b09ffa71b942fcb27635fbcd5b0e944bfdc63644f0713938a7f51535c3a35e2",
    },
    // Keys round the size of a block: the codes are those of OpenSSL.
    Code {
        key: (b'k', 63, ""),
        message: (0, 0, ""),
        code: "a73e4ae46b2a9f2402fff056e156c0a25551e3db5097f9367522239bfbc2d02e",
    },
    Code {
        key: (b'k', 64, ""),
        message: (0, 0, ""),
        code: "83026a325aaee70e36cfe607536aa1054104ad1077c36134810d4ccded1ccd3b",
    },
    Code {
        key: (b'k', 65, ""),
        message: (0, 0, ""),
        code: "41f1c4cc3107cd5b8d92460f61032902bfdb06484eef17e861b83a5012d3b7f3",
    },
];

const SECRET: &[u8] = b"0123456789abcdef";

const HOST: &[u8] = b"0123456789abcdef0123456789abcdef0123456789abcdef0123456789abcdef";

const CLIENT: &[u8] = b"fedcba9876543210fedcba9876543210fedcba9876543210fedcba9876543210";

const FIRST: &str =
    "{\"challenge\":\"0123456789abcdef0123456789abcdef0123456789abcdef0123456789abcdef\"}\n";

// The proofs are those of OpenSSL.
const SECOND: &str =
    "{\"proof\":\"35ba471e2e34158312badf60e827ffb2549df7070a02bb423e867e6a38ea4845\",\
    \"challenge\":\"fedcba9876543210fedcba9876543210fedcba9876543210fedcba9876543210\"}\n";

const THIRD: &str =
    "{\"proof\":\"caf44998fa45d977e42e6e412512fd4a75f6a2ffebd89a79c798f193a089145d\"}\n";

fn bytes(rt: &HostRuntime, (byte, times, text): (u8, usize, &str)) -> Result<Vec<u8>, Fail> {
    let mut bytes = vec![in rt.alloc(); byte; times]?;
    bytes.extend_from_slice(text.as_bytes())?;
    Ok(bytes)
}

#[test]
fn codes(rt: HostRuntime) -> Result<(), Fail> {
    for it in CODES {
        let key = bytes(&rt, it.key)?;
        let message = bytes(&rt, it.message)?;
        let code = hex::encode(rt.alloc(), hmac_sha256(&key, &message))?;
        assert!(rt; code.as_str() == it.code, "{}", it.code);
    }
    Ok(())
}

#[test]
fn an_exchange(rt: HostRuntime) -> Result<(), Fail> {
    proofs_are_for_one_exchange();
    let first = challenge_line(rt.alloc(), HOST)?;
    assert!(rt; first.as_slice() == FIRST.as_bytes());
    let second = client_line(rt.alloc(), SECRET, HOST, CLIENT)?;
    assert!(rt; second.as_slice() == SECOND.as_bytes());
    let third = host_answer(rt.alloc(), SECRET, HOST, &second)?;
    assert!(rt; third.is_some_and(|line| line.as_slice() == THIRD.as_bytes()));
    Ok(())
}

#[test]
fn lines_that_prove_nothing(rt: HostRuntime) -> Result<(), Fail> {
    let mut line = client_line(rt.alloc(), SECRET, HOST, CLIENT)?;
    let other_secret = host_answer(rt.alloc(), b"0123456789abcdeg", HOST, &line)?;
    assert!(rt; other_secret.is_none());
    let other_challenge = host_answer(rt.alloc(), SECRET, CLIENT, &line)?;
    assert!(rt; other_challenge.is_none());
    for place in 0..line.len() {
        let part = host_answer(rt.alloc(), SECRET, HOST, &line[..place])?;
        assert!(rt; part.is_none(), "{place} bytes");
        line[place] ^= 1;
        let changed = host_answer(rt.alloc(), SECRET, HOST, &line)?;
        assert!(rt; changed.is_none(), "byte {place}");
        line[place] ^= 1;
    }
    for other in [
        FIRST,
        THIRD,
        "0123456789abcdef\n",
        "{\"op\":\"status\"}\n",
        "\n",
        "",
    ] {
        let answer = host_answer(rt.alloc(), SECRET, HOST, other.as_bytes())?;
        assert!(rt; answer.is_none(), "{other}");
    }
    Ok(())
}

#[test]
fn challenges(rt: HostRuntime) -> Result<(), Fail> {
    let seventh = challenge(rt.alloc(), b"a key", 7)?;
    let code = "38936a30ad9a941816aa5f3ead1d93f55ffc969bc8e466be661624c3d90331de";
    assert!(rt; seventh.as_str() == code);
    let eighth = challenge(rt.alloc(), b"a key", 8)?;
    assert!(rt; eighth.as_str() != code && eighth.len() == 64);
    Ok(())
}

/// A call that takes memory.
#[derive(Clone, Copy)]
enum Call {
    Challenge,
    ChallengeLine,
    ClientLine,
    TakeProof,
}

// What a call gives, if there is memory for it.
fn made(alloc: Global, call: Call, head: &mut Vec<u8>) -> Result<Option<Vec<u8>>, AllocError> {
    let made = match call {
        Call::Challenge => challenge(alloc, SECRET, 7)?.into_bytes(),
        Call::ChallengeLine => challenge_line(alloc, HOST)?,
        Call::ClientLine => client_line(alloc, SECRET, HOST, CLIENT)?,
        Call::TakeProof => return take_proof(alloc, head, SECRET, HOST),
    };
    Ok(Some(made))
}

// Whether an allocation of a call was refused, and whether the call found no memory. Then its head has to be as before.
fn call_without(alloc: Global, call: Call, number: u32) -> Result<(bool, bool), Fail> {
    let line = client_line(alloc, SECRET, HOST, CLIENT)?;
    let mut head = line.as_slice().to_vec(alloc)?;
    let mut again = line.as_slice().to_vec(alloc)?;
    let wanted = made(alloc, call, &mut again)?.ok_or("nothing is made")?;
    refuse(alloc, number);
    let found = made(alloc, call, &mut head);
    let is_refused = was_refused(alloc);
    let is_memory = found.is_err();
    if is_memory && head.as_slice() != line.as_slice() {
        return Err(Fail::from("the bytes changed"));
    }
    if found.is_ok_and(|made| made.is_none_or(|bytes| bytes.as_slice() != wanted.as_slice())) {
        return Err(Fail::from("other bytes"));
    }
    Ok((is_refused, is_memory))
}

// Refuses each allocation of a call in turn, and prints what was found.
fn try_call(rt: &impl Print, alloc: Global, call: Call, name: &str) -> Result<(), Fail> {
    let found = each_refused(|number| call_without(alloc, call, number))?;
    Ok(report(rt, name, "", found)?)
}

#[test]
fn each_allocation_of_a_proof(rt: HostRuntime) -> Result<(), Fail> {
    try_call(&rt, rt.alloc(), Call::Challenge, "challenge")?;
    try_call(&rt, rt.alloc(), Call::ChallengeLine, "challenge_line")?;
    try_call(&rt, rt.alloc(), Call::ClientLine, "client_line")?;
    try_call(&rt, rt.alloc(), Call::TakeProof, "take_proof")
}
