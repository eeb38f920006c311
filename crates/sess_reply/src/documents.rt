//! The text of each document by which the server tells of itself.

ghost use Rattle.std.specs.Prelude.{◌≡◌, ◌++◌, if◌then◌else◌};
ghost use Rattle.std.specs.List.{flat_map};
ghost use Rattle.sess_reply.specs.Documents.{document_text};

use crate::document_texts::{
    APPS_FRONT, APPS_ITEM, APPS_VERSIONS, CONFIG_MAPS, CORE_FRONT, CORE_VERSIONS, DEPLOYMENTS,
    GROUP_BACK, GROUP_FRONT, GROUPS_FRONT, LIST_BACK, NAMESPACE_BACK, NAMESPACE_FRONT,
    NAMESPACE_MIDDLE, NO_VERSIONS, OPEN_API, PODS, PROBED, VERSION,
};
use client_api::Resources;
use route_req::Document;

// A text in one piece.
fn alone<'a>(text: &'a [u8]) -> [&'a [u8]; 5]
    ensures { flat_map (λ piece. piece.now) result ≡ text.now }
{
    [text, b"", b"", b"", b""]
}

// A text in these pieces.
fn joined<'a>(first: &'a [u8], second: &'a [u8], third: &'a [u8], fourth: &'a [u8]) -> [&'a [u8]; 5]
    ensures { flat_map (λ piece. piece.now) result ≡ first.now ++ (second.now ++ (third.now ++ fourth.now)) }
{
    [first, second, third, fourth, b""]
}

// The first text where something is served, and the other where it isn't.
fn chosen<'a>(is_served: bool, text: &'a [u8], other: &'a [u8]) -> &'a [u8]
    ensures { result.now ≡ (if is_served then text.now else other.now) }
{
    if is_served { text } else { other }
}

/// The text of the document at a server that has these resources, in pieces that stand one after the other: JSON, of a
/// probe a plain text, and the OpenAPI document in protobuf, without the line feed with which that ends.
pub(crate) fn pieces(document: &Document, served: Resources) -> [&[u8]; 5]
    ensures { flat_map (λ piece. piece.now) result ≡ document_text served document.now }
{
    match document {
        Document::Version => alone(VERSION),
        Document::CoreVersions => alone(CORE_VERSIONS),
        Document::Groups => {
            joined(
                GROUPS_FRONT,
                chosen(served.deployments, APPS_ITEM, b""),
                LIST_BACK,
                b"",
            )
        }
        Document::AppsGroup => {
            joined(
                GROUP_FRONT,
                chosen(served.deployments, APPS_VERSIONS, NO_VERSIONS),
                GROUP_BACK,
                b"",
            )
        }
        Document::CoreResources => {
            joined(
                CORE_FRONT,
                chosen(served.pods, PODS, b""),
                chosen(served.config_maps, CONFIG_MAPS, b""),
                LIST_BACK,
            )
        }
        Document::AppsResources => {
            joined(
                APPS_FRONT,
                chosen(served.deployments, DEPLOYMENTS, b""),
                LIST_BACK,
                b"",
            )
        }
        Document::OpenApi => alone(OPEN_API),
        Document::Namespace(ns) => {
            let name = ns.as_str().as_bytes();
            [
                NAMESPACE_FRONT,
                name,
                NAMESPACE_MIDDLE,
                name,
                NAMESPACE_BACK,
            ]
        }
        Document::Probe(_) => alone(PROBED),
    }
}
