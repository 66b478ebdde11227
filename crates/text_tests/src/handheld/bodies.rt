use fact_kinds::Batch;
use handheld_http::{Asked, Cut, Refusal, cut, request_of};
use ldar_facts::Read;
use ldar_law::Request;
use std::alloc::Global;
use std::process::Abort;
use std::test::Fail;
use test_kit::is;

/// A batch with a fact of every kind, as Python's json writes it.
const EVERY_KIND: &[u8] =
    b"{\"facts\": [{\"kind\": \"unit\", \"day\": \"2024-02-29\", \"minute\": 0, \"unit\": 64, \"older\": true, \"name\": \"CRUDE-2\"}, {\"kind\": \"component\", \"day\": \"2024-02-29\", \"minute\": 1439, \"component\": 60000, \"unit\": 1, \"type\": \"relief\", \"monomer\": true, \"replaces\": false, \"service\": \"under300\", \"designation\": \"unsafe\", \"plan\": 60, \"month\": 3}, {\"kind\": \"class\", \"day\": \"2024-02-29\", \"minute\": 1, \"component\": 1, \"service\": \"gas\", \"designation\": \"none\", \"plan\": 0, \"month\": 1}, {\"kind\": \"retire\", \"day\": \"2024-02-29\", \"minute\": 2, \"component\": 2}, {\"kind\": \"election\", \"day\": \"2024-02-29\", \"minute\": 3, \"unit\": 3, \"mode\": 3, \"notified\": \"2008-01-01\"}, {\"kind\": \"shutdown\", \"day\": \"2024-02-29\", \"minute\": 4, \"unit\": 4, \"days\": 366}, {\"kind\": \"calibration\", \"day\": \"2024-02-29\", \"minute\": 600, \"instrument\": 1, \"gas\": 500}, {\"kind\": \"precision\", \"day\": \"2024-02-29\", \"minute\": 5, \"instrument\": 65535, \"value\": 999999, \"readings\": [0, 1, 999999]}, {\"kind\": \"drift\", \"day\": \"2024-02-29\", \"minute\": 6, \"instrument\": 2, \"value\": 1, \"readings\": [3, 4, 5]}, {\"kind\": \"reading\", \"day\": \"2024-02-29\", \"minute\": 7, \"component\": 7, \"instrument\": 8, \"operator\": 9, \"purpose\": \"follow\", \"ppm\": 10000, \"background\": 11}, {\"kind\": \"reading\", \"day\": \"2024-02-29\", \"minute\": 8, \"component\": 7, \"purpose\": \"routine\", \"ppm\": 0, \"background\": 0}, {\"kind\": \"visual\", \"day\": \"2024-02-29\", \"minute\": 9, \"component\": 8, \"state\": \"leak\"}, {\"kind\": \"attempt\", \"day\": \"2024-02-29\", \"minute\": 10, \"component\": 9, \"complete\": false}, {\"kind\": \"delay\", \"day\": \"2024-02-29\", \"minute\": 11, \"component\": 10, \"ground\": \"e\", \"signer\": 12, \"expected\": \"2099-12-31\"}, {\"kind\": \"delay\", \"day\": \"2024-02-29\", \"minute\": 12, \"component\": 10, \"ground\": \"none\"}, {\"kind\": \"release\", \"day\": \"2024-02-29\", \"minute\": 13, \"component\": 11}, {\"kind\": \"indication\", \"day\": \"2024-02-29\", \"minute\": 14, \"component\": 12, \"sort\": \"evidence\", \"present\": true}], \"number\": 4294967295, \"handheld\": 65535}";

/// The bytes of the same batch, by Python's struct.
const EVERY_KIND_IN_BYTES: &[u8] =
    b"B\xff\xff\xff\xff\xff\xff\x00\x11\x01MF\x00\x00@\x01CRUDE-2\x00\x00\x00\x00\x00\x02MF\x05\x9f\xea`\x01\x04\x01\x00\x05\x02<\x03\x03MF\x00\x01\x00\x01\x01\x00\x00\x01\x04MF\x00\x02\x00\x02\x05MF\x00\x03\x03\x0367\x06MF\x00\x04\x04\x01n\x07MF\x02X\x00\x01\x00\x00\x01\xf4\x08MF\x00\x05\xff\xff\x00\x0fB?\x00\x00\x00\x00\x00\x00\x00\x01\x00\x0fB?\x09MF\x00\x06\x00\x02\x00\x00\x00\x01\x00\x00\x00\x03\x00\x00\x00\x04\x00\x00\x00\x05\x0aMF\x00\x07\x00\x07\x00\x08\x00\x09\x02\x00\x00'\x10\x00\x00\x00\x0b\x0aMF\x00\x08\x00\x07\x00\x00\x00\x00\x01\x00\x00\x00\x00\x00\x00\x00\x00\x0bMF\x00\x09\x00\x08\x02\x0cMF\x00\x0a\x00\x09\x00\x0dMF\x00\x0b\x00\x0a\x05\x00\x0c\xb9y\x0dMF\x00\x0c\x00\x0a\x00\x00\x00\x00\x00\x0eMF\x00\x0d\x00\x0b\x0fMF\x00\x0e\x00\x0c\x02\x01";

/// A batch of one fact.
const ONE_FACT: &[u8] =
    b"{\"handheld\":7,\"number\":12,\"facts\":[{\"kind\":\"retire\",\"day\":\"2024-02-20\",\"minute\":600,\"component\":1}]}";

/// The same batch with repeated keys: the last value counts.
const KEYS_TWICE: &[u8] =
    b"{\"handheld\":\"x\",\"handheld\":7,\"number\":12,\"facts\":[{\"kind\":\"retire\",\"day\":\"2024-02-20\",\"minute\":600,\"component\":0,\"component\":1}]}";

/// A request with this body.
fn sent(alloc: Global, body: &[u8]) -> Result<Vec<u8>, Fail> {
    let head = format!(in alloc;
        "POST /sync HTTP/1.1\r\nContent-Length: {}\r\n\r\n",
        body.len()
    )?;
    let mut bytes = Vec::from_slice(alloc, head.as_bytes())?;
    bytes.extend_from_slice(body)?;
    Ok(bytes)
}

/// The batch in the body of a request, if it is one.
fn batch_in(alloc: Global, body: &[u8]) -> Result<Option<Batch>, Fail> {
    let bytes = sent(alloc, body)?;
    let Cut::Whole { head, .. } = cut(&bytes) else {
        return Err("no whole request".into());
    };
    match request_of(alloc, &bytes, head)? {
        Asked::Request(Request::Sync(batch)) => Ok(Some(batch)),
        Asked::Not(Refusal::BadBatch) => Ok(None),
        Asked::Request(_) | Asked::Not(_) => Err("neither a batch nor a bad one".into()),
    }
}

fn is_same(rt: &impl Abort, alloc: Global, body: &[u8], bytes: &[u8]) -> Result<bool, Fail> {
    let batch = batch_in(alloc, body)?.expect(rt, "a batch");
    let Read::Whole { batch: wanted, .. } = ldar_facts::read_batch(alloc, bytes)? else {
        return Ok(false);
    };
    Ok(
        batch.handheld == wanted.handheld
            && batch.number == wanted.number
            && batch.facts.as_slice() == wanted.facts.as_slice(),
    )
}

#[test]
fn bodies_are_read(rt: HostRuntime) -> Result<(), Fail> {
    let alloc = rt.alloc();
    let one_in_bytes = b"B\x00\x07\x00\x00\x00\x0c\x00\x01\x04M=\x02X\x00\x01";
    for (body, bytes) in [
        (EVERY_KIND, EVERY_KIND_IN_BYTES),
        (ONE_FACT, one_in_bytes.as_slice()),
        (KEYS_TWICE, one_in_bytes.as_slice()),
    ] {
        assert!(rt; is_same(&rt, alloc, body, bytes)?);
    }
    Ok(())
}

/// Checks whether a body is a batch.
fn is_one(alloc: Global, body: &[u8], want: bool) -> Result<(), Fail> {
    let batch = batch_in(alloc, body)?;
    is(batch.is_some() == want, "a body")
}

const OTHERS: [&[u8]; 32] = [
    b"{\"handheld\":65536,\"number\":12,\"facts\":[{\"kind\":\"retire\",\"day\":\"2024-02-20\",\"minute\":600,\"component\":1}]}",
    b"{\"handheld\":-1,\"number\":12,\"facts\":[{\"kind\":\"retire\",\"day\":\"2024-02-20\",\"minute\":600,\"component\":1}]}",
    b"{\"handheld\":1.0,\"number\":12,\"facts\":[{\"kind\":\"retire\",\"day\":\"2024-02-20\",\"minute\":600,\"component\":1}]}",
    b"{\"handheld\":1e3,\"number\":12,\"facts\":[{\"kind\":\"retire\",\"day\":\"2024-02-20\",\"minute\":600,\"component\":1}]}",
    b"{\"handheld\":\"7\",\"number\":12,\"facts\":[{\"kind\":\"retire\",\"day\":\"2024-02-20\",\"minute\":600,\"component\":1}]}",
    b"{\"handheld\":null,\"number\":12,\"facts\":[{\"kind\":\"retire\",\"day\":\"2024-02-20\",\"minute\":600,\"component\":1}]}",
    b"{\"number\":12,\"facts\":[{\"kind\":\"retire\",\"day\":\"2024-02-20\",\"minute\":600,\"component\":1}]}",
    b"{\"handheld\":7,\"site\":1,\"number\":12,\"facts\":[{\"kind\":\"retire\",\"day\":\"2024-02-20\",\"minute\":600,\"component\":1}]}",
    b"{\"handheld\":7,\"number\":4294967296,\"facts\":[{\"kind\":\"retire\",\"day\":\"2024-02-20\",\"minute\":600,\"component\":1}]}",
    b"{\"handheld\":7,\"number\":-0,\"facts\":[{\"kind\":\"retire\",\"day\":\"2024-02-20\",\"minute\":600,\"component\":1}]}",
    b"{\"handheld\":7,\"number\":12,\"facts\":[{\"kind\":\"retired\",\"day\":\"2024-02-20\",\"minute\":600,\"component\":1}]}",
    b"{\"handheld\":7,\"number\":12,\"facts\":[{\"kind\":\"Retire\",\"day\":\"2024-02-20\",\"minute\":600,\"component\":1}]}",
    b"{\"handheld\":7,\"number\":12,\"facts\":[{\"kind\":\"retire\",\"day\":\"2024-2-20\",\"minute\":600,\"component\":1}]}",
    b"{\"handheld\":7,\"number\":12,\"facts\":[{\"kind\":\"retire\",\"day\":\"2024-02-30\",\"minute\":600,\"component\":1}]}",
    b"{\"handheld\":7,\"number\":12,\"facts\":[{\"kind\":\"retire\",\"day\":\"2007-12-31\",\"minute\":600,\"component\":1}]}",
    b"{\"handheld\":7,\"number\":12,\"facts\":[{\"kind\":\"retire\",\"day\":19773,\"minute\":600,\"component\":1}]}",
    b"{\"handheld\":7,\"number\":12,\"facts\":[{\"kind\":\"retire\",\"day\":\"2024-02-20\",\"minute\":1440,\"component\":1}]}",
    b"{\"handheld\":7,\"number\":12,\"facts\":[{\"kind\":\"retire\",\"day\":\"2024-02-20\",\"minute\":600,\"component\":0}]}",
    b"{\"handheld\":7,\"number\":12,\"facts\":[{\"kind\":\"retire\",\"day\":\"2024-02-20\",\"minute\":600,\"component\":60001}]}",
    b"{\"handheld\":7,\"number\":12,\"facts\":[{\"kind\":\"retire\",\"day\":\"2024-02-20\",\"minute\":600,\"component\":true}]}",
    b"{\"handheld\":7,\"number\":12,\"facts\":[{\"kind\":\"retire\",\"day\":\"2024-02-20\",\"minute\":600}]}",
    b"{\"handheld\":7,\"number\":12,\"facts\":[{\"kind\":\"retire\",\"day\":\"2024-02-20\",\"minute\":600,\"component\":1,\"unit\":1}]}",
    b"{\"handheld\":7,\"number\":12,\"facts\":[]}",
    b"{\"handheld\":7,\"number\":12,\"facts\":{}}",
    b"{\"handheld\":7,\"number\":12,\"facts\":[7,{\"kind\":\"retire\",\"day\":\"2024-02-20\",\"minute\":600,\"component\":1}]}",
    b"{\"handheld\":7,\"number\":12,\"facts\":[{\"kind\":\"retire\",\"day\":\"2024-02-20\",\"minute\":600,\"component\":1}]",
    b"{\"handheld\":7,\"number\":12,\"facts\":[{\"kind\":\"retire\",\"day\":\"2024-02-20\",\"minute\":600,\"component\":1}]}x",
    b"",
    b"[]",
    b"[[[[[[[[[[[[[[[[[[[[[[[[[[[[[[[[[[[[[[[[[[[[[[[[[[[[[[[[[[[[[[[[[[[[[[[[[[[[[[[[[[[[[[[[[[[[[[[[[[[[[[[[[[[[[[[[[[[[[[[[[[[[[[[[]]]]]]]]]]]]]]]]]]]]]]]]]]]]]]]]]]]]]]]]]]]]]]]]]]]]]]]]]]]]]]]]]]]]]]]]]]]]]]]]]]]]]]]]]]]]]]]]]]]]]]]]]]]]]]]]]]]]]]]]]]]]]]]]",
    b"{\"handheld\":7,\"number\":12,\"facts\":[{\"kind\":\"retire\",\"day\":\"2024-02-2\xff\",\"minute\":600,\"component\":1}]}",
    b"\xef\xbb\xbf{\"handheld\":7,\"number\":12,\"facts\":[{\"kind\":\"retire\",\"day\":\"2024-02-20\",\"minute\":600,\"component\":1}]}",
];

#[test]
fn other_bodies_are_none(rt: HostRuntime) -> Result<(), Fail> {
    for body in OTHERS {
        is_one(rt.alloc(), body, false)?;
    }
    Ok(())
}

const FACT: &[u8] = b"{\"kind\":\"retire\",\"day\":\"2024-02-20\",\"minute\":600,\"component\":1}";

/// The body of a batch with `count` facts and one more.
fn and_one_more(alloc: Global, count: usize) -> Result<Vec<u8>, Fail> {
    let mut body = Vec::from_slice(alloc, b"{\"handheld\":7,\"number\":12,\"facts\":[")?;
    for _ in 0..count {
        body.extend_from_slice(FACT)?;
        body.push(b',')?;
    }
    body.extend_from_slice(FACT)?;
    body.extend_from_slice(b"]}")?;
    Ok(body)
}

#[test]
fn a_batch_has_1_to_512_facts(rt: HostRuntime) -> Result<(), Fail> {
    for (count, want) in [(0, true), (511, true), (512, false)] {
        let body = and_one_more(rt.alloc(), count)?;
        is_one(rt.alloc(), &body, want)?;
    }
    Ok(())
}
