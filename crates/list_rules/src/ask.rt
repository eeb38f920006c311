//! What a list asks for.

ghost use Rattle.std.specs.Prelude.{◌≡◌, false, IfErr, Err, Some, codes};
ghost use Rattle.list_rules.specs.Asking.{ask_of, Asks, wraps_memory, refused_token};
ghost use Rattle.list_rules.specs.Options.{options_of, options_fault};

use crate::options::{Options, limit, text};
use crate::tokens::read_token;
use crate::{AskNo, TokenNo};
use http_read::Params;
use kube_meta::{Key, Text};
use select_all::{Meaning, Selection};
use std::alloc::Global;

/// A list that is asked for, or a page of one.
#[derive(Debug, Drop)]
pub struct ListAsk {
    pub selection: Selection,
    /// At which revision.
    pub meaning: Meaning,
    /// How many objects at most; 0 is no limit.
    pub limit: u64,
    /// The key behind which the page begins, where a token gives one.
    pub after: Option<Key>,
    /// The label selector's text, as it was given.
    pub label_text: Text,
    /// The field selector's text, as it was given.
    pub field_text: Text,
}

// How the refusal of a token is told.
fn refused_token(fault: TokenNo) -> AskNo
    ensures { result ≡ refused_token fault }
{
    match fault {
        TokenNo::Memory => AskNo::Memory,
        fault => AskNo::BadContinue(fault),
    }
}

impl ListAsk {
    ghost use Rattle.list_rules.specs.declared.refusal.AskNo.{AskNo as Fault};

    /// What the parameters of a list of `selection` ask for: `resourceVersion`, `resourceVersionMatch`, `limit` and
    /// `continue` of the Kubernetes API concepts. `selection` is what `labelSelector` and `fieldSelector` were read
    /// as.
    pub fn from_params(
        alloc: Global,
        selection: Selection,
        params: &Params,
    ) -> Result<ListAsk, AskNo>
        ensures asked { Asks result (ask_of selection params.now) }
        // A fault of the other options is told whatever memory there is.
        ensures told { (fault : Fault) → options_fault (options_of params.now) ≡ Some fault → result ≡ Err fault }
        ensures plain { IfErr result (λ fault. wraps_memory fault ≡ false) }
    {
        let options = Options::of(params);
        if let Some(fault) = options.first_fault() {
            return Err(fault);
        }
        let label_text = Text::new(alloc, text(params, "labelSelector"))?;
        let field_text = Text::new(alloc, text(params, "fieldSelector"))?;
        let (meaning, after) = match params.get("continue") {
            None => (options.meaning(), None),
            Some(token) => {
                match read_token(
                    alloc,
                    token,
                    &selection,
                    label_text.as_str(),
                    field_text.as_str(),
                ) {
                    Ok((rev, key)) => (Meaning::Exact(rev), Some(key)),
                    Err(fault) => return Err(refused_token(fault)),
                }
            }
        };
        Ok(ListAsk {
            selection,
            meaning,
            limit: limit(options.limit),
            after,
            label_text,
            field_text,
        })
    }
}
