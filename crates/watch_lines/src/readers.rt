//! The numbers in bookmarks and in losses.

ghost use Rattle.std.specs.Prelude.{◌≡◌, ◌≢◌, ◌≤◌, ◌^◌, ◌∷◌, ◌++◌, ℕ, List, false, decimal, MatchOption};
ghost use Rattle.std.specs.List.{list_any};
ghost use Rattle.meta_view.specs.declared.form.Form.TheVariants.{Whole};
ghost use Rattle.meta_view.specs.Lines.{bookmark_line, expired_line};
ghost use Rattle.watch_lines.specs.Numbers.{is_space, bookmark_front, loss_numbers};

use crate::pieces::{behind, digits_within, revision_in};
use kube_meta::Resource;

/// The revision of the bookmark of the resource that a line is: of one that closes the initial events, or of one that
/// doesn't.
pub fn bookmark_in(line: &[u8], resource: Resource, closing: bool) -> Option<u64>
    ensures { MatchOption result ((n : ℕ) → n ≤ 2 ^ 62 → line.now ≢ bookmark_line Whole resource n closing)
        (λ n. (n ≤ 2 ^ 62) × (line.now ≡ bookmark_line Whole resource n closing)) }
{
    digits_within(line, front_of(resource, closing), CLOSES)
}

const CLOSES: &[u8] = b"\"}}}";

// What a bookmark begins with.
#[tactic(auto, unfolding(json::specs::Print::escape_byte))]
fn front_of(resource: Resource, closing: bool) -> &'static [u8]
    ensures { result.now ≡ bookmark_front resource closing }
{
    match (resource, closing) {
        (Resource::Pods, false) => POD,
        (Resource::Pods, true) => LAST_POD,
        (Resource::ConfigMaps, false) => CONFIG_MAP,
        (Resource::ConfigMaps, true) => LAST_CONFIG_MAP,
        (Resource::Deployments, false) => DEPLOYMENT,
        (Resource::Deployments, true) => LAST_DEPLOYMENT,
    }
}

const POD: &[u8] =
    b"{\"type\":\"BOOKMARK\",\"object\":{\"apiVersion\":\"v1\",\"kind\":\"Pod\",\"metadata\":{\"resourceVersion\":\"";

const CONFIG_MAP: &[u8] =
    b"{\"type\":\"BOOKMARK\",\"object\":{\"apiVersion\":\"v1\",\"kind\":\"ConfigMap\",\"metadata\":{\"resourceVersion\":\"";

const DEPLOYMENT: &[u8] =
    b"{\"type\":\"BOOKMARK\",\"object\":{\"apiVersion\":\"apps/v1\",\"kind\":\"Deployment\",\"metadata\":{\"resourceVersion\":\"";

const LAST_POD: &[u8] =
    b"{\"type\":\"BOOKMARK\",\"object\":{\"apiVersion\":\"v1\",\"kind\":\"Pod\",\"metadata\":{\"annotations\":{\"k8s.io/initial-events-end\":\"true\"},\"resourceVersion\":\"";

const LAST_CONFIG_MAP: &[u8] =
    b"{\"type\":\"BOOKMARK\",\"object\":{\"apiVersion\":\"v1\",\"kind\":\"ConfigMap\",\"metadata\":{\"annotations\":{\"k8s.io/initial-events-end\":\"true\"},\"resourceVersion\":\"";

const LAST_DEPLOYMENT: &[u8] =
    b"{\"type\":\"BOOKMARK\",\"object\":{\"apiVersion\":\"apps/v1\",\"kind\":\"Deployment\",\"metadata\":{\"annotations\":{\"k8s.io/initial-events-end\":\"true\"},\"resourceVersion\":\"";

/// The position of the loss that a line is, and the floor that it names.
pub fn loss_in(line: &[u8]) -> Option<(u64, u64)>
    ensures { MatchOption result ((at floor : ℕ) → at ≤ 2 ^ 62 → floor ≤ 2 ^ 62 → line.now ≢ expired_line at floor)
        (λ loss. (loss.0 ≤ 2 ^ 62) × (loss.1 ≤ 2 ^ 62) × (line.now ≡ expired_line loss.0 loss.1)) }
{
    match behind(line, LOSS_OPENS) {
        Some(rest) => numbers_in(rest),
        None => None,
    }
}

// The two numbers, from the first on.
fn numbers_in(text: &[u8]) -> Option<(u64, u64)>
    ensures { MatchOption result ((at floor : ℕ) → at ≤ 2 ^ 62 → floor ≤ 2 ^ 62 → text.now ≢ loss_numbers at floor)
        (λ loss. (loss.0 ≤ 2 ^ 62) × (loss.1 ≤ 2 ^ 62) × (text.now ≡ loss_numbers loss.0 loss.1)) }
{
    let Some((at, floor)) = around_space(text) else {
        return None;
    };
    let Some(at) = revision_in(at) else {
        return None;
    };
    match digits_within(floor, FLOOR_OPENS, LOSS_CLOSES) {
        Some(floor) => Some((at, floor)),
        None => None,
    }
}

const LOSS_OPENS: &[u8] =
    b"{\"type\":\"ERROR\",\"object\":{\"apiVersion\":\"v1\",\"code\":410,\"kind\":\"Status\",\"message\":\"too old resource version: ";

const FLOOR_OPENS: &[u8] = b"(";

const LOSS_CLOSES: &[u8] = b")\",\"metadata\":{},\"reason\":\"Expired\",\"status\":\"Failure\"}}";

// The pieces of a text around its first space.
fn around_space(text: &[u8]) -> Option<(&[u8], &[u8])>
    ensures { MatchOption result (list_any is_space text.now ≡ false)
        (λ pieces. (list_any is_space pieces.0.now ≡ false) × (text.now ≡ pieces.0.now ++ 32 ∷ pieces.1.now)) }
{
    match text.iter().position(|byte| *byte == b' ') {
        Some(at) => Some((&text[..at], &text[at + 1..])),
        None => None,
    }
}
