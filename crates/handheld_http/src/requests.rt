ghost use Rattle.std.specs.Prelude.{◌≡◌, ◌+◌, ◌≤◌, length, take, IfOk, IsUtf8};
ghost use Rattle.handheld_http.specs.Cuts.{IsExtent};
ghost use Rattle.handheld_http.specs.Heads as heads;
ghost use Rattle.handheld_http.specs.Requests as spec;
ghost use Rattle.handheld_http.specs.Requests.{IsAsked, Means, RequestAsks, ResourceAsks, SyncAsks, WasCut};

use crate::answer::{Asked, Refusal};
use crate::batch_json::batch_in;
use crate::fields::is_post;
use crate::heads::judge;
use crate::outcome::Extent;
use crate::paths::{parts_of, path_of, view_of};
use crate::routes::{Page, Resource, resource_of};
use fact_kinds::Memory;
use ldar_law::Request;
use std::alloc::Global;
use std::str::from_utf8;

/// Whether the method is `GET`.
fn is_get(method: &[u8]) -> bool
    ensures { result ≡ spec.is_get method.now }
{
    method == b"GET".as_slice()
}

/// The request that a body sent to the path for batches makes.
fn asked_sync(alloc: Global, method: &[u8], body: &[u8]) -> Result<Asked, Memory>
    ensures { IfOk result (SyncAsks (heads.is_post method.now) body.now) }
{
    if !is_post(method) {
        return Ok(Asked::Not(Refusal::NoMethod { post: true }));
    }
    Ok(match batch_in(alloc, body)? {
        Some(batch) => Asked::Request(Request::Sync(batch)),
        None => Asked::Not(Refusal::BadBatch),
    })
}

/// The request for a view.
fn asked_view(page: Page, method: &[u8], path: &str) -> Asked
    ensures { spec.ViewAsks (spec.is_get method.now) page path.now result }
{
    if !is_get(method) {
        return Asked::Not(Refusal::NoMethod { post: false });
    }
    match view_of(page, parts_of(path)) {
        Ok(request) => Asked::Request(request),
        Err(what) => Asked::Not(Refusal::NoSuch(what)),
    }
}

/// The request with this method, this target and this body.
fn asked_of(alloc: Global, method: &[u8], target: &str, body: &[u8]) -> Result<Asked, Memory>
    ensures { IfOk result (RequestAsks method.now target.now body.now) }
{
    let path = path_of(target);
    match resource_of(alloc, path)? {
        None => Ok(Asked::Not(Refusal::NoPath)),
        Some(Resource::Sync) => asked_sync(alloc, method, body),
        Some(Resource::View(page)) => Ok(asked_view(page, method, path)),
    }
}

/// The text of bytes that are UTF-8.
fn text_of(bytes: &[u8]) -> &str
    requires { IsUtf8 bytes.now }
    ensures { result.now ≡ bytes.now }
{
    match from_utf8(bytes) {
        Ok(text) => text,
        Err(_) => unreachable!(),
    }
}

/// What the request at the front asks for, from its extent: a batch or a view, or why it is not passed to the office.
/// Its body must be complete.
pub fn asked_by(alloc: Global, bytes: &[u8], extent: Extent) -> Result<Asked, Memory>
    requires begins { IsExtent bytes.now extent }
    requires whole { extent.head + extent.body ≤ length bytes.now }
    ensures value { IfOk result (Means (take (extent.head + extent.body) bytes.now)) }
{
    let head = &bytes[..extent.head];
    let body = &bytes[extent.head..extent.head + extent.body];
    let target = text_of(extent.target.of(head));
    asked_of(alloc, extent.method.of(head), target, body)
}

/// What the request that `cut` found at the front of these bytes asks for; `head` is the length of its head.
pub fn request_of(alloc: Global, bytes: &[u8], head: usize) -> Result<Asked, Memory>
    requires was_cut { WasCut bytes.now head }
    ensures value { IfOk result (IsAsked bytes.now head) }
{
    let Ok(extent) = judge(&bytes[..head]) else {
        unreachable!()
    };
    asked_by(alloc, bytes, extent)
}
