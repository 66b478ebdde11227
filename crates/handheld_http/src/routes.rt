ghost use Rattle.std.specs.Prelude.{◌≡◌, IfOk, OnOk};
ghost use Rattle.handheld_http.specs.Routes as spec;

use fact_kinds::Memory;
use matchit::Router;
use std::alloc::Global;

/// What a view shows.
#[derive(Clone, Copy)]
pub(crate) enum Page {
    Due,
    Tags,
    Delays,
    Route,
    Percent,
    Report,
}

/// What a path names: the path for batches, or a view.
#[derive(Clone, Copy)]
pub(crate) enum Resource {
    Sync,
    View(Page),
}

/// Adds a route.
#[tactic(auto, unfolding(crate::specs::Routes::with_route))]
fn add(routes: &mut Router<Resource>, text: &str, resource: Resource) -> Result<(), Memory>
    ensures { OnOk result (routes.new ≡ spec.with_route text.now resource routes.old) }
{
    match routes.insert(text, resource) {
        Ok(()) => Ok(()),
        Err(_) => Err(Memory),
    }
}

/// The routes of the office.
fn office_routes(alloc: Global) -> Result<Router<Resource>, Memory>
    ensures { IfOk result (λ routes. routes ≡ spec.office_routes) }
{
    let mut routes = Router::new(alloc);
    add(&mut routes, "/sync", Resource::Sync)?;
    add(&mut routes, "/due/{unit}/{day}", Resource::View(Page::Due))?;
    add(
        &mut routes,
        "/tags/{unit}/{day}",
        Resource::View(Page::Tags),
    )?;
    add(
        &mut routes,
        "/delays/{unit}/{day}",
        Resource::View(Page::Delays),
    )?;
    add(
        &mut routes,
        "/route/{unit}/{day}/{stops}",
        Resource::View(Page::Route),
    )?;
    add(
        &mut routes,
        "/percent/{unit}/{quarter}/{day}",
        Resource::View(Page::Percent),
    )?;
    add(
        &mut routes,
        "/report/{unit}/{half}/{day}",
        Resource::View(Page::Report),
    )?;
    Ok(routes)
}

/// What a path names, if it has a route. Most requests send a batch; for those no routes are built.
pub(crate) fn resource_of(alloc: Global, path: &str) -> Result<Option<Resource>, Memory>
    ensures { IfOk result (λ resource. resource ≡ spec.resource_of path.now) }
{
    if path == "/sync" {
        return Ok(Some(Resource::Sync));
    }
    routed(alloc, path)
}

/// What a path names by the office's routes, if it has one.
fn routed(alloc: Global, path: &str) -> Result<Option<Resource>, Memory>
    ensures { IfOk result (λ resource. resource ≡ spec.resource_of path.now) }
{
    let routes = office_routes(alloc)?;
    match routes.at(path) {
        Ok(found) => Ok(Some(*found.value)),
        Err(_) => Ok(None),
    }
}
