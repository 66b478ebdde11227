use handheld_http::{Asked, Cut, Refusal, cut, request_of};
use ldar_law::{Request, What};
use std::alloc::Global;
use std::test::Fail;
use test_kit::is;

/// The meaning of a request, as a word and three numbers.
type Told = (&'static str, u16, u32, u32);

fn told_request(request: &Request) -> Told {
    match request {
        Request::Sync(batch) => (
            "sync",
            batch.handheld,
            batch.number,
            batch.facts.as_slice().len() as u32,
        ),
        Request::Due { unit, day } => ("due", *unit, 0, day.number()),
        Request::Tags { unit, day } => ("tags", *unit, 0, day.number()),
        Request::Delays { unit, day } => ("delays", *unit, 0, day.number()),
        Request::Route { unit, day, stops } => ("route", *unit, u32::from(*stops), day.number()),
        Request::Percent { unit, quarter, day } => (
            "percent",
            *unit,
            u32::from(*quarter),
            day.number(),
        ),
        Request::Report { unit, half, day } => ("report", *unit, u32::from(*half), day.number()),
    }
}

fn told_refusal(refusal: Refusal) -> Told {
    let word = match refusal {
        Refusal::BadBatch => "bad batch",
        Refusal::NoPath => "no path",
        Refusal::NoMethod { post: true } => "POST alone",
        Refusal::NoMethod { post: false } => "GET alone",
        Refusal::NoSuch(What::Unit) => "no unit",
        Refusal::NoSuch(What::Quarter) => "no quarter",
        Refusal::NoSuch(What::Half) => "no half",
        Refusal::NoSuch(What::Day) => "no day",
        Refusal::NoSuch(What::Stops) => "no stops",
    };
    (word, 0, 0, 0)
}

/// The meaning of the request at the front of the bytes.
fn told(alloc: Global, bytes: &[u8]) -> Result<Told, Fail> {
    let Cut::Whole { head, .. } = cut(bytes) else {
        return Ok(("cut", 0, 0, 0));
    };
    Ok(match request_of(alloc, bytes, head)? {
        Asked::Request(request) => told_request(&request),
        Asked::Not(refusal) => told_refusal(refusal),
    })
}

/// The meaning of a request without a body whose first line begins like this.
fn told_of(alloc: Global, line: &[u8]) -> Result<Told, Fail> {
    let mut bytes = Vec::from_slice(alloc, line)?;
    bytes.extend_from_slice(b" HTTP/1.1\r\nContent-Length: 0\r\n\r\n")?;
    told(alloc, &bytes)
}

/// Checks the meaning of a request without a body whose first line begins like this.
fn asks(alloc: Global, line: &[u8], want: Told) -> Result<(), Fail> {
    let told = told_of(alloc, line)?;
    is(told == want, want.0)
}

const VIEWS: [(&[u8], Told); 11] = [
    (b"GET /due/1/2024-02-20", ("due", 1, 0, 19_773)),
    (b"GET /tags/0/2008-01-01", ("tags", 0, 0, 13_879)),
    (b"GET /delays/255/2099-12-31", ("delays", 255, 0, 47_481)),
    (
        b"GET /route/1/2024-02-20/65535",
        ("route", 1, 65_535, 19_773),
    ),
    (b"GET /route/1/2024-02-20/0", ("route", 1, 0, 19_773)),
    (b"GET /percent/1/16/2024-03-31", ("percent", 1, 16, 19_813)),
    (b"GET /report/1/8/2024-03-31", ("report", 1, 8, 19_813)),
    (b"GET /due/1/2024-02-20?", ("due", 1, 0, 19_773)),
    (b"GET /due/1/2024-02-20?day=/x?y", ("due", 1, 0, 19_773)),
    (b"\r\nGET /due/1/2024-02-20", ("due", 1, 0, 19_773)),
    (b"GET /percent/10/0/2024-03-31", ("percent", 10, 0, 19_813)),
];

#[test]
fn views_are_asked(rt: HostRuntime) -> Result<(), Fail> {
    for (line, want) in VIEWS {
        asks(rt.alloc(), line, want)?;
    }
    Ok(())
}

const OTHERS: [(&[u8], &'static str); 40] = [
    (b"GET /nothing", "no path"),
    (b"POST /nothing", "no path"),
    (b"GET /", "no path"),
    (b"GET *", "no path"),
    (b"GET ?/sync", "no path"),
    (b"GET /Sync", "no path"),
    (b"GET /sync/", "no path"),
    (b"GET //sync", "no path"),
    (b"GET http://office/sync", "no path"),
    (b"GET /due", "no path"),
    (b"GET /due/1", "no path"),
    (b"GET /due/1/", "no path"),
    (b"GET /due//2024-02-20", "no path"),
    (b"GET /due/1/2024-02-20/", "no path"),
    (b"GET /route/1/2024-02-20", "no path"),
    (b"GET /due/1/?2024-02-20", "no path"),
    (b"GET /%64ue/1/2024-02-20", "no path"),
    (b"GET /sync", "POST alone"),
    (b"PUT /sync?x", "POST alone"),
    (b"post /sync", "POST alone"),
    (b"POST /due/1/2024-02-20", "GET alone"),
    (b"HEAD /due/x/y", "GET alone"),
    (b"get /tags/1/2024-02-20", "GET alone"),
    (b"GET /due/01/2024-02-20", "no unit"),
    (b"GET /due/256/x", "no unit"),
    (b"GET /due/-1/2024-02-20", "no unit"),
    (b"GET /due/+1/2024-02-20", "no unit"),
    (b"GET /due/1.0/2024-02-20", "no unit"),
    (b"GET /due/%31/2024-02-20", "no unit"),
    (b"GET /due/\xc3\xa9/2024-02-20", "no unit"),
    (b"GET /due/99999999999999999999999/2024-02-20", "no unit"),
    (b"GET /due/1/x", "no day"),
    (b"GET /due/1/2024-2-20", "no day"),
    (b"GET /due/1/2023-02-29", "no day"),
    (b"GET /due/1/2007-12-31", "no day"),
    (b"GET /percent/1/65536/x", "no quarter"),
    (b"GET /percent/1/00/2024-03-31", "no quarter"),
    (b"GET /report/1/08/2024-03-31", "no half"),
    (b"GET /route/1/2024-02-30/x", "no day"),
    (b"GET /route/1/2024-02-20/x", "no stops"),
];

#[test]
fn other_requests_ask_nothing(rt: HostRuntime) -> Result<(), Fail> {
    for (line, want) in OTHERS {
        asks(rt.alloc(), line, (want, 0, 0, 0))?;
    }
    Ok(())
}

/// A batch of one fact in a request, and the next request after it in the same piece.
const SYNC: &[u8] =
    b"POST /sync HTTP/1.1\r\nHost: office\r\nContent-Length: 116\r\n\r\n{\"handheld\":7,\"number\":12,\"facts\":[{\"kind\":\"calibration\",\"day\":\"2024-02-20\",\"minute\":600,\"instrument\":1,\"gas\":500}]}GET /percent/1/16/2024-03-31 HTTP/1.1\r\nHost: office\r\n\r\n";

#[test]
fn batches_are_asked(rt: HostRuntime) -> Result<(), Fail> {
    let alloc = rt.alloc();
    let at = SYNC.len() - 55;
    assert_eq!(rt; told(alloc, SYNC)?, ("sync", 7, 12, 1));
    assert_eq!(rt; told(alloc, &SYNC[at..])?, ("percent", 1, 16, 19_813));
    let short = b"POST /sync HTTP/1.1\r\nContent-Length: 1\r\n\r\n{}";
    assert_eq!(rt; told(alloc, short)?, ("bad batch", 0, 0, 0));
    assert_eq!(rt;
        told_of(alloc, b"POST /sync?a=/due/1")?,
        ("bad batch", 0, 0, 0)
    );
    Ok(())
}

/// A request with a body of 262,144 bytes that has `count` facts.
fn of_facts(alloc: Global, count: usize) -> Result<Vec<u8>, Fail> {
    let mut bytes = Vec::from_slice(
        alloc,
        b"POST /sync HTTP/1.1\r\nContent-Length: 262144\r\n\r\n{\"handheld\":7,\"number\":12,\"facts\":[",
    )?;
    for i in 0..count {
        if i > 0 {
            bytes.push(b',')?;
        }
        bytes.extend_from_slice(
            b"{\"kind\":\"release\",\"day\":\"2024-02-20\",\"minute\":0,\"component\":8}",
        )?;
    }
    bytes.extend_from_slice(b"]}")?;
    bytes.resize(47 + 262_144, b' ')?;
    Ok(bytes)
}

/// Checks the meaning of a request with `count` facts.
fn asks_with(alloc: Global, count: usize, want: &str) -> Result<(), Fail> {
    let bytes = of_facts(alloc, count)?;
    let told = told(alloc, &bytes)?;
    is(told.0 == want, want)
}

#[test]
fn a_body_has_512_facts_and_262144_bytes(rt: HostRuntime) -> Result<(), Fail> {
    asks_with(rt.alloc(), 512, "sync")?;
    asks_with(rt.alloc(), 513, "bad batch")
}
