//! Pages and nodes that are filled at once.

ghost use Rattle.std.specs.Prelude.{◌≡◌, ◌≤◌, ◌<◌, ◌++◌, ◌∷◌, [], length, map, IfOk, OnOk};
ghost use Rattle.kube_meta.specs.Rows.{AreRising};
ghost use Rattle.obj_tree.specs.Pages.{values_of, joined, AreFilled, IsNoded, IsPaged, ArePagesOf};

use crate::node::{FULL, HALF, Node};
use crate::page::Page;
use encode_once::Shown;
use kube_meta::Memory;
use std::alloc::Global;
use std::sync::Arc;

// The rows of a page that is filled at once: room is left for as many puts as removals.
const FILL: usize = 48;

/// Nodes of 32 pages, and a last one of those that are left, fewer than 64.
pub(crate) fn filled(alloc: Global, rows: Vec<Arc<Shown>>) -> Result<Vec<Arc<Node>>, Memory>
    requires { AreRising (values_of rows.items) }
    ensures noded { IfOk result (λ nodes. IsNoded (values_of nodes.items)) }
    ensures rows { IfOk result (λ nodes. joined (values_of nodes.items) ≡ values_of rows.items) }
{
    let _len = rows.len();
    let pages = filled_pages(alloc, rows)?;
    noded(alloc, &pages)
}

// Nodes of pages, which are shared.
fn noded(alloc: Global, pages: &[Arc<Page>]) -> Result<Vec<Arc<Node>>, Memory>
    requires paged { IsPaged (values_of pages.now) }
    requires few { length (joined (values_of pages.now)) ≤ usize.MAX }
    ensures noded { IfOk result (λ nodes. IsNoded (values_of nodes.items)) }
    ensures rows { IfOk result (λ nodes. joined (values_of nodes.items) ≡ joined (values_of pages.now)) }
{
    let mut nodes = Vec::new(alloc);
    let mut rest = pages;
    while rest.len() >= FULL {
        let (front, back) = rest.split_at(HALF);
        add_node(alloc, &mut nodes, front)?;
        rest = back;
    }
    if rest.len() == 0 {
        return Ok(nodes);
    }
    add_node(alloc, &mut nodes, rest)?;
    Ok(nodes)
}

// Puts a node of pages behind others.
fn add_node(alloc: Global, nodes: &mut Vec<Arc<Node>>, pages: &[Arc<Page>]) -> Result<(), Memory>
    requires paged { IsPaged (values_of pages.now) }
    requires few { length (joined (values_of pages.now)) ≤ usize.MAX }
    ensures { OnOk result (values_of nodes.new.items ≡ values_of nodes.old.items ++ (joined (values_of pages.now) ∷ [])) }
{
    let node = Node::sharing(alloc, pages)?;
    nodes.push(Arc::new(alloc, node)?)?;
    Ok(())
}

// Pages of 48 rows, and a last one of those that are left. The rows are cut before a page is made of any, so that
// the looks at the pages' first rows don't wait for one another.
fn filled_pages(alloc: Global, rows: Vec<Arc<Shown>>) -> Result<Vec<Arc<Page>>, Memory>
    ensures { IfOk result (λ pages. ArePagesOf (values_of pages.items) (values_of rows.items)) }
{
    let mut parts = Vec::new(alloc);
    let last = cut(alloc, &mut parts, rows)?;
    if last.len() == 0 {
        return paged(alloc, parts);
    }
    add(&mut parts, last)?;
    paged(alloc, parts)
}

// A page of each part.
fn paged(alloc: Global, parts: Vec<Vec<Arc<Shown>>>) -> Result<Vec<Arc<Page>>, Memory>
    ensures { IfOk result (λ pages. values_of pages.items ≡ map (λ part. values_of part.items) parts.items) }
{
    let mut pages = Vec::with_capacity(alloc, parts.len())?;
    for page in prefixed(alloc, parts)? {
        pages.push(Arc::new(alloc, page)?)?;
    }
    Ok(pages)
}

// The parts with the prefixes of their first rows and the words of all. Nothing else is done here, so that many
// looks are under way at a time.
fn prefixed(alloc: Global, parts: Vec<Vec<Arc<Shown>>>) -> Result<Vec<Page>, Memory>
    ensures { IfOk result (λ pages. pages.items ≡ map (λ part. values_of part.items) parts.items) }
{
    let mut pages = Vec::with_capacity(alloc, parts.len())?;
    for part in parts {
        let page = Page::of(alloc, part)?;
        pages.push(page)?;
    }
    Ok(pages)
}

// Cuts the rows into parts as long as full pages, and answers those of the last one.
fn cut(
    alloc: Global,
    parts: &mut Vec<Vec<Arc<Shown>>>,
    rows: Vec<Arc<Shown>>,
) -> Result<Vec<Arc<Shown>>, Memory>
    requires { AreFilled (map (λ part. values_of part.items) parts.old.items) }
    ensures filled { OnOk result (AreFilled (map (λ part. values_of part.items) parts.new.items)) }
    ensures few { IfOk result (λ last. length last.items ≤ 48) }
    ensures rows { IfOk result (λ last. joined (map (λ part. values_of part.items) parts.new.items) ++ values_of last.items ≡ joined (map (λ part. values_of part.items) parts.old.items) ++ values_of rows.items) }
{
    let mut last = Vec::with_capacity(alloc, FILL)?;
    for shown in rows {
        if last.len() == FILL {
            last = next_part(alloc, parts, last)?;
        }
        last.push(shown)?;
    }
    Ok(last)
}

// Puts a full part behind the others, and answers the one to go on with, which has room for as many rows.
fn next_part(
    alloc: Global,
    parts: &mut Vec<Vec<Arc<Shown>>>,
    full: Vec<Arc<Shown>>,
) -> Result<Vec<Arc<Shown>>, Memory>
    requires filled { AreFilled (map (λ part. values_of part.items) parts.old.items) }
    requires full { length full.items ≡ 48 }
    ensures filled { OnOk result (AreFilled (map (λ part. values_of part.items) parts.new.items)) }
    ensures room { IfOk result (λ next. length next.items < 48) }
    ensures rows { IfOk result (λ next. joined (map (λ part. values_of part.items) parts.new.items) ++ values_of next.items ≡ joined (map (λ part. values_of part.items) parts.old.items) ++ values_of full.items) }
{
    let next = Vec::with_capacity(alloc, FILL)?;
    add(parts, full)?;
    Ok(next)
}

// Puts a part behind the others.
fn add(parts: &mut Vec<Vec<Arc<Shown>>>, rows: Vec<Arc<Shown>>) -> Result<(), Memory>
    ensures { OnOk result (map (λ part. values_of part.items) parts.new.items ≡ map (λ part. values_of part.items) parts.old.items ++ (values_of rows.items ∷ [])) }
{
    parts.push(rows)?;
    Ok(())
}
